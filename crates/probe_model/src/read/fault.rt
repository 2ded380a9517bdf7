//! What is wrong with a call's result.
use std::alloc::{AllocError, AllocFailed, Global};
use ufmt::Full;
use ufmt_doc::plain_reader::ReadError;
use ufmt_doc::scan::ScanError;

/// A wrong result. There is memory enough, so want of memory is wrong too.
#[derive(Clone, Copy)]
pub enum Fault {
    WantOfMemory,
    NotText,
    Full,
    /// The call of this name disagrees with the others.
    Other(&'static str),
}

impl Fault {
    pub fn message(&self, alloc: Global) -> Result<String, AllocError> {
        match self {
            Fault::WantOfMemory => String::from_str(alloc, "FAULT, want of memory"),
            Fault::NotText => String::from_str(alloc, "FAULT, no text"),
            Fault::Full => String::from_str(alloc, "FAULT, full"),
            Fault::Other(call) => format!(in alloc; "FAULT, {call}"),
        }
    }
}

/// Returns `Ok` if the call of this name is right.
pub fn agree(is_right: bool, call: &'static str) -> Result<(), Fault> {
    if is_right {
        Ok(())
    } else {
        Err(Fault::Other(call))
    }
}

impl From<AllocError> for Fault {
    fn from(_error: AllocError) -> Fault {
        Fault::WantOfMemory
    }
}

impl<T: Drop> From<AllocFailed<T>> for Fault {
    fn from(_error: AllocFailed<T>) -> Fault {
        Fault::WantOfMemory
    }
}

impl From<Full> for Fault {
    fn from(_error: Full) -> Fault {
        Fault::Full
    }
}

impl From<ReadError> for Fault {
    fn from(error: ReadError) -> Fault {
        match error {
            ReadError::NotText => Fault::NotText,
            ReadError::OutOfMemory => Fault::WantOfMemory,
        }
    }
}

impl From<ScanError<AllocError>> for Fault {
    fn from(error: ScanError<AllocError>) -> Fault {
        match error {
            ScanError::NotText => Fault::NotText,
            ScanError::Sink(_) => Fault::WantOfMemory,
        }
    }
}

impl From<ScanError<Full>> for Fault {
    fn from(error: ScanError<Full>) -> Fault {
        match error {
            ScanError::NotText => Fault::NotText,
            ScanError::Sink(_) => Fault::Full,
        }
    }
}
