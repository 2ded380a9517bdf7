//! Faults of devices and of memory.
ghost use Rattle.std.specs.Prelude.{◌≡◌};
ghost use Rattle.ufmt_io.specs.Fault.{status_of};
ghost use Rattle.ufmt_io.specs.declared.fault.IoFault.TheVariants.{OutOfMemory};

use std::alloc::AllocError;

/// Why a program can't read or write on.
#[derive(Clone, Copy, PartialEq, Eq, Debug)]
pub enum IoFault {
    /// The input failed.
    CannotRead,
    /// The output failed.
    CannotWrite,
    /// A growth of memory was refused.
    OutOfMemory,
}

impl IoFault {
    /// Returns the program's exit status.
    pub fn status(&self) -> u8
        ensures { result ≡ status_of self.now }
    {
        match self {
            IoFault::CannotRead => 3,
            IoFault::CannotWrite => 4,
            IoFault::OutOfMemory => 5,
        }
    }
}

impl From<AllocError> for IoFault {
    ghost from_gives = { λ _ fault. fault ≡ OutOfMemory };

    fn from(_error: AllocError) -> IoFault {
        IoFault::OutOfMemory
    }
}
