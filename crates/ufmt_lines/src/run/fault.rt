//! How a run ends: the lines of faults, and the status.
ghost use Rattle.std.specs.Prelude.{◌≡◌};
ghost use Rattle.ufmt_lines.specs.Fault.{line_of, status_of_run};

use ufmt_io::IoFault;

// The status of a program that ends by the signal for a closed pipe, in a shell.
const CLOSED: u8 = 141;

/// Returns what is said of a fault on standard error, before its reason.
pub fn fault_line(fault: IoFault) -> &'static str
    ensures { result.now ≡ line_of fault }
{
    match fault {
        IoFault::CannotRead => "ufmt_lines: cannot read",
        IoFault::CannotWrite => "ufmt_lines: cannot write standard output",
        IoFault::OutOfMemory => "ufmt_lines: out of memory",
    }
}

/// Returns the status of a run, in which inputs may have been missed, and whose output may be closed.
pub fn status(outcome: Result<(), IoFault>, has_missed: bool, is_closed: bool) -> u8
    ensures { result ≡ status_of_run outcome has_missed is_closed }
{
    match outcome {
        Ok(()) if has_missed => IoFault::CannotRead.status(),
        Ok(()) => 0,
        Err(IoFault::CannotWrite) if is_closed => CLOSED,
        Err(fault) => fault.status(),
    }
}
