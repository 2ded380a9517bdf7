//! What `main` does first and last: it takes the arguments, and reports why the program ends.
ghost use Rattle.std.specs.Prelude.{◌≡◌};
ghost use Rattle.std.specs.Process.{exit_status};

use std::env::Env;
use std::fmt::Display;
use std::process::ExitCode;
use std::{env, io};

/// The status if the arguments aren't known.
pub const USAGE_STATUS: u8 = 2;

/// Returns the arguments after the program's name. Fails if memory runs out, and with the kind
/// `InvalidData` if one isn't UTF-8.
pub fn arguments<R: Env + AllocGlobal>(rt: &R) -> io::Result<Vec<String>> {
    let arguments: Vec<String> = env::args(rt)?.skip(1).collect(rt.alloc())?;
    Ok(arguments)
}

/// Prints the line, if standard error takes it, and returns the status to end with.
pub fn report<D: Display + Drop>(rt: &impl io::Eprint, line: D, status: u8) -> ExitCode
    ensures { exit_status result ≡ status }
{
    let _ = rt.eprintln(line);
    ExitCode::from(status)
}
