//! Converts standard input: `ufmt_conv pretty` prints the pretty text of a plain text, `plain` the plain
//! text of a pretty text, and `lengths` the lengths of its lines.
#![tactic(auto)]

ghost use Rattle.std.specs.Prelude.{◌≡◌};
ghost use Rattle.std.specs.Process.{exit_status};
ghost use Rattle.ufmt_conv.specs.Fault.{status_of};

pub mod run;

use run::{Command, Fault, Watched};
use std::io;
use std::process::ExitCode;
pub use ufmt_doc::{doc, laws, plain_reader, pretty_reader, scan};
use ufmt_io::{USAGE_STATUS, arguments, report};

/// Texts of values, and conversions of texts.
pub mod convert {
    pub use ufmt::{plain_text, pretty_text};
    pub use ufmt_doc::convert::{convert, convert_into, to_plain, to_pretty, write_converted};
}

fn main(rt: HostRuntime) -> ExitCode {
    let Ok(arguments) = arguments(&rt) else {
        return report_fault(&rt, Fault::OutOfMemory);
    };
    let Some(command) = Command::parse(&arguments) else {
        return report(&rt, run::usage(), USAGE_STATUS);
    };
    let mut input = Watched::new(rt.reader());
    let mut output = Watched::new(io::writer(&rt));
    match run::run(rt.alloc(), command, &mut input, &mut output) {
        Ok(()) => ExitCode::SUCCESS,
        Err(fault) => report_fault(&rt, fault),
    }
}

fn report_fault(rt: &HostRuntime, fault: Fault) -> ExitCode
    ensures { exit_status result ≡ status_of fault }
{
    report(rt, fault.line(), fault.status())
}
