//! The error of readers and conversions.
ghost use Rattle.std.specs.Prelude.{◌≡◌};
ghost use Rattle.ufmt_scan.specs.ReadError.{code_of, error_of, OutOfMemory};

use crate::scan::ScanError;
use std::alloc::{AllocError, AllocFailed};

/// Why a text was not read or converted.
#[derive(Clone, Copy, PartialEq, Eq, Debug)]
pub enum ReadError {
    /// No document of the class that the call takes has this text.
    NotText,
    OutOfMemory,
}

impl From<AllocError> for ReadError {
    ghost from_gives = { λ _ e. e ≡ OutOfMemory };

    fn from(_e: AllocError) -> ReadError {
        ReadError::OutOfMemory
    }
}

/// For the error of `Vec::push`, so that a caller can collect documents with `?`.
impl<T: Drop> From<AllocFailed<T>> for ReadError {
    ghost from_gives = { λ _ e. e ≡ OutOfMemory };

    fn from(_e: AllocFailed<T>) -> ReadError {
        ReadError::OutOfMemory
    }
}

/// A sink whose error is `AllocError` fails only if memory runs out.
impl From<ScanError<AllocError>> for ReadError {
    ghost from_gives = { λ error e. e ≡ error_of error };

    fn from(error: ScanError<AllocError>) -> ReadError {
        match error {
            ScanError::NotText => ReadError::NotText,
            ScanError::Sink(_) => ReadError::OutOfMemory,
        }
    }
}

impl ReadError {
    /// Returns 1 for `NotText`, and 2 for `OutOfMemory`.
    pub fn code(&self) -> u8
        ensures { result ≡ code_of self.now }
    {
        match self {
            ReadError::NotText => 1,
            ReadError::OutOfMemory => 2,
        }
    }
}
