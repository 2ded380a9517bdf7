//! Faults: why a run ends before its whole output is written.
ghost use Rattle.std.specs.Prelude.{◌≡◌};
ghost use Rattle.ufmt_conv.specs.Fault.{line_of, of_io, status_of};
ghost use Rattle.ufmt_conv.specs.declared.run.fault.Fault.TheVariants.{OutOfMemory};

use std::alloc::AllocError;
use ufmt_io::IoFault;

/// Why a run didn't write its whole output.
#[derive(Clone, Copy, PartialEq, Eq, Debug)]
pub enum Fault {
    /// The command is `pretty`, and the input is no token document's plain text.
    NotPlain,
    /// The command is `plain`, and the input is no token document's pretty text.
    NotPretty,
    /// The input failed.
    CannotRead,
    /// The output failed.
    CannotWrite,
    /// A growth of memory was refused.
    OutOfMemory,
}

impl Fault {
    /// Returns the program's exit status.
    pub fn status(&self) -> u8
        ensures { result ≡ status_of self.now }
    {
        match self {
            Fault::NotPlain | Fault::NotPretty => 1,
            Fault::CannotRead => IoFault::CannotRead.status(),
            Fault::CannotWrite => IoFault::CannotWrite.status(),
            Fault::OutOfMemory => IoFault::OutOfMemory.status(),
        }
    }

    /// Returns the line for standard error, without its line feed.
    pub fn line(&self) -> &'static str
        ensures { result.now ≡ line_of self.now }
    {
        match self {
            Fault::NotPlain => "ufmt_conv: not a plain text",
            Fault::NotPretty => "ufmt_conv: not a pretty text",
            Fault::CannotRead => "ufmt_conv: cannot read",
            Fault::CannotWrite => "ufmt_conv: cannot write",
            Fault::OutOfMemory => "ufmt_conv: out of memory",
        }
    }
}

impl From<AllocError> for Fault {
    ghost from_gives = { λ _ fault. fault ≡ OutOfMemory };

    fn from(_error: AllocError) -> Fault {
        Fault::OutOfMemory
    }
}

impl From<IoFault> for Fault {
    ghost from_gives = { λ io fault. fault ≡ of_io io };

    fn from(fault: IoFault) -> Fault {
        match fault {
            IoFault::CannotRead => Fault::CannotRead,
            IoFault::CannotWrite => Fault::CannotWrite,
            IoFault::OutOfMemory => Fault::OutOfMemory,
        }
    }
}
