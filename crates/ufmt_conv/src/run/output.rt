//! The output for a command on an input.
ghost use Rattle.std.specs.Prelude.{◌≡◌, ◌≢◌, string_bytes, IfErr, IfOk, IsErrOf};
ghost use Rattle.ufmt.specs.Layout.{plain_text, pretty_text};
ghost use Rattle.ufmt_grammar.specs.declared.class.Class.TheVariants.{Token};
ghost use Rattle.ufmt_conv.specs.Output.{IsOutputLine, line_lengths, without_line_feed};
ghost use Rattle.ufmt_doc.specs.Texts.{NoDocumentPrints};

use super::command::Command;
use super::fault::Fault;
use crate::convert::{plain_text, to_plain, to_pretty};
use crate::plain_reader::ReadError;
use std::alloc::{AllocError, Global};

// The output and a line feed.
pub(super) fn output_line(alloc: Global, command: Command, input: &[u8]) -> Result<String, Fault>
    ensures ok { IfOk result (λ line. IsOutputLine command input.now (string_bytes line)) }
    ensures not_plain { IsErrOf result Fault.NotPlain → (command ≡ Command.Pretty)
        × NoDocumentPrints Token plain_text (without_line_feed input.now) }
    ensures not_pretty { IsErrOf result Fault.NotPretty → (command ≡ Command.Plain)
        × NoDocumentPrints Token pretty_text (without_line_feed input.now) }
    ensures no_device { IfErr result (λ fault.
        (fault ≢ Fault.CannotRead) × (fault ≢ Fault.CannotWrite)) }
{
    let text = without_line_feed(input);
    let mut line = match command {
        Command::Lengths => plain_text(alloc, &line_lengths(alloc, input)?)?,
        Command::Pretty => to_pretty(alloc, text).map_err(|error| fault(error, Fault::NotPlain))?,
        Command::Plain => to_plain(alloc, text).map_err(|error| fault(error, Fault::NotPretty))?,
    };
    line.push('\n')?;
    Ok(line)
}

/// Returns how many bytes each line of the input has. A line ends before its line feed. Bytes after the
/// last line feed are a line too. Fails only for want of memory.
#[tactic(auto, using(crate::proofs::Lines::longer_first_zero))]
pub fn line_lengths(alloc: Global, input: &[u8]) -> Result<Vec<u64>, AllocError>
    ensures { IfOk result (λ lengths. lengths.items ≡ line_lengths input.now) }
{
    let mut lengths = Vec::new(alloc);
    let mut length = 0;
    for byte in input {
        if *byte == b'\n' {
            lengths.push(length)?;
            length = 0;
        } else {
            length += 1;
        }
    }
    if length > 0 {
        lengths.push(length)?;
    }
    Ok(lengths)
}

// The input without one final line feed, if it has one.
fn without_line_feed(input: &[u8]) -> &[u8]
    ensures { result.now ≡ without_line_feed input.now }
{
    input.strip_suffix(b"\n").unwrap_or(input)
}

// The fault for an error of a conversion.
fn fault(error: ReadError, not_text: Fault) -> Fault
    ensures not_text { error ≡ ReadError.NotText → result ≡ not_text }
    ensures no_memory { error ≡ ReadError.OutOfMemory → result ≡ Fault.OutOfMemory }
{
    match error {
        ReadError::NotText => not_text,
        ReadError::OutOfMemory => Fault::OutOfMemory,
    }
}
