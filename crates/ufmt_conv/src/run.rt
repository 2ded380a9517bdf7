//! A run of the program: reads all its input, and writes the output.
ghost use Rattle.std.specs.Prelude.{◌≡◌, ◌≢◌, ◌↔◌, false, IsTrue, IfErr, IsErrOf, OnOk};
ghost use Rattle.std.specs.Io.KnownBytes.{IsAtEnd};
ghost use Rattle.ufmt.specs.Layout.{plain_text, pretty_text};
ghost use Rattle.ufmt_conv.specs.Output.{WritesOutput, WritesOutputPrefix, NoDocumentPrintsInput};
ghost use Rattle.ufmt_io.specs.Watched.{device_of, has_failed, has_given_up};

mod command;
mod fault;
mod output;
#[cfg(test)]
mod tests;

pub use command::{Command, usage};
pub use fault::Fault;
pub use output::line_lengths;
use output::output_line;
use std::alloc::Global;
use std::io::{Read, Write};
pub use ufmt_io::{Failed, Watched};
use ufmt_io::{read_to_end, write_whole};

// Promise (programs): `run` of `ufmt_conv` writes the output and a line feed. If writing fails, it has written
// a prefix, and for any other fault nothing. `NotPlain`, `NotPretty`, `CannotRead` and `CannotWrite` mean what
// they say. Also: `line_lengths`.
/// Reads the input to its end, and writes the command's output and a line feed.
///
/// On `CannotWrite` a prefix of these bytes was written, perhaps nothing, perhaps all. On any other
/// fault nothing was written, and any part of the input may have been read. A reader that never ends
/// leads to `OutOfMemory`.
pub fn run<R: Read, W: Write>(
    alloc: Global,
    command: Command,
    input: &mut Watched<R>,
    output: &mut Watched<W>,
) -> Result<(), Fault>
    requires input_works { has_failed input.old ≡ false }
    requires output_works { has_failed output.old ≡ false }

    // What is read and written, if the bytes of reader and writer are known.
    ensures ok { OnOk result (WritesOutput command (R.remaining (device_of input.old))
        (W.contents (device_of output.old)) (W.contents (device_of output.new))) }
    ensures read_whole { OnOk result (IsAtEnd (R.remaining (device_of input.new))) }
    ensures partly_written { IsErrOf result Fault.CannotWrite
        → WritesOutputPrefix command (R.remaining (device_of input.old))
        (W.contents (device_of output.old)) (W.contents (device_of output.new)) }
    ensures not_plain { IsErrOf result Fault.NotPlain
        → NoDocumentPrintsInput plain_text (R.remaining (device_of input.old)) }
    ensures not_pretty { IsErrOf result Fault.NotPretty
        → NoDocumentPrintsInput pretty_text (R.remaining (device_of input.old)) }

    // What each fault means.
    ensures only_pretty { IsErrOf result Fault.NotPlain → command ≡ Command.Pretty }
    ensures only_plain { IsErrOf result Fault.NotPretty → command ≡ Command.Plain }
    ensures unwritten { IfErr result (λ fault. fault ≢ Fault.CannotWrite
        → output.new ≡ output.old) }
    ensures input_failed { IsErrOf result Fault.CannotRead ↔ IsTrue (has_failed input.new) }
    ensures output_failed { IsErrOf result Fault.CannotWrite ↔ IsTrue (has_failed output.new) }
    ensures reads_on { has_given_up input.new ≡ has_given_up input.old }
    ensures writes_on { has_given_up output.new ≡ has_given_up output.old }
{
    let text = read_to_end(alloc, input)?;
    let line = output_line(alloc, command, &text)?;
    write_whole(output, line.as_bytes()).map_err(|_| Fault::CannotWrite)
}
