//! Makes a log readable: each line of the inputs is written with its long debug texts as pretty ones,
//! before the next line is read. With `--plain` it is the other way round: pretty texts of several lines
//! are written as plain ones.
#![tactic(auto)]

ghost use Rattle.std.specs.Prelude.{◌≡◌, true, false, IsSomeAnd};
ghost use Rattle.std.specs.IoError.{error_kind};
ghost use Rattle.std.specs.Process.{exit_status};
ghost use Rattle.ufmt_lines.specs.Fault.{status_of_run};

pub mod inputs;
pub mod run;
mod system;

use inputs::Inputs;
use run::{Conversion, IoFault, Request, Watched};
use std::io;
use std::io::ErrorKind;
use std::process::ExitCode;
use system::System;
use ufmt_io::{USAGE_STATUS, arguments, report};

fn main(rt: HostRuntime) -> ExitCode {
    let arguments = match arguments(&rt) {
        Ok(arguments) => arguments,
        Err(error) if error.kind() == ErrorKind::InvalidData => {
            return report_misuse(&rt, "ufmt_lines: an argument isn't UTF-8", "");
        }
        Err(_) => return end(&rt, Err(IoFault::OutOfMemory), false, None),
    };
    match run::asked(&arguments) {
        Ok(Request::Convert(conversion)) => convert(&rt, conversion, &arguments),
        Ok(Request::Help) => print(&rt, run::help()),
        Ok(Request::Version) => print(&rt, run::version()),
        Err(mistake) => report_misuse(&rt, mistake.what, mistake.word),
    }
}

// Converts the files that are named, or standard input.
fn convert(rt: &HostRuntime, conversion: Conversion, arguments: &[String]) -> ExitCode {
    let Ok(names) = run::inputs(rt.alloc(), arguments) else {
        return end(rt, Err(IoFault::OutOfMemory), false, None);
    };
    let opener = System { rt };
    let mut input = Watched::new(Inputs::new(&opener, names.as_slice()));
    let mut output = Watched::new(io::writer(rt));
    let outcome = run::run(rt.alloc(), conversion, &mut input, &mut output);
    end(
        rt,
        outcome,
        input.device().has_missed(),
        output.first_failure(),
    )
}

// Prints a text on standard output.
fn print(rt: &HostRuntime, text: &str) -> ExitCode {
    let mut output = Watched::new(io::writer(rt));
    let outcome = run::print(text, &mut output);
    end(rt, outcome, false, output.first_failure())
}

// Says why a run ends, unless it is whole or nobody reads its output, and returns the status. The error
// is that of the output.
fn end(
    rt: &HostRuntime,
    outcome: Result<(), IoFault>,
    has_missed: bool,
    error: Option<io::Error>,
) -> ExitCode
    ensures closed { IsSomeAnd error (λ e. error_kind e ≡ ErrorKind.BrokenPipe)
        → exit_status result ≡ status_of_run outcome has_missed true }
    ensures open { ¬ (IsSomeAnd error (λ e. error_kind e ≡ ErrorKind.BrokenPipe))
        → exit_status result ≡ status_of_run outcome has_missed false }
{
    let is_closed = matches!(&error, Some(error) if error.kind() == ErrorKind::BrokenPipe);
    let status = run::status(outcome, has_missed, is_closed);
    match outcome {
        Err(fault) if !is_closed => report_fault(rt, fault, error, status),
        _ => ExitCode::from(status),
    }
}

// Says a fault, with its reason if there is one.
fn report_fault(rt: &HostRuntime, fault: IoFault, error: Option<io::Error>, status: u8) -> ExitCode
    ensures { exit_status result ≡ status }
{
    let line = run::fault_line(fault);
    match error {
        Some(error) => report(rt, format_args!("{line}: {error}"), status),
        None => report(rt, line, status),
    }
}

// Says that an argument is wrong.
fn report_misuse(rt: &HostRuntime, what: &str, word: &str) -> ExitCode
    ensures { exit_status result ≡ USAGE_STATUS }
{
    report(
        rt,
        format_args!("{what}{word}\n{}", run::usage()),
        USAGE_STATUS,
    )
}
