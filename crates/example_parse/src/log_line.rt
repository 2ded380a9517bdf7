//! A line of a log without memory: made readable in a buffer, and tested.
ghost use Rattle.std.specs.Prelude.{◌≡◌, ◌↔◌, List, ℕ, IsErrOf, IsOk, IsTrue};
ghost use Rattle.ufmt.specs.Buffer.{Fronts};
ghost use Rattle.ufmt.specs.Document.{Document};
ghost use Rattle.ufmt.specs.Layout.{plain_text, pretty_text};
ghost use Rattle.ufmt.specs.Token.{IsTokenDocument};
ghost use Rattle.ufmt_doc.specs.Texts.{IsConverted, NoDocumentPrints};
ghost use Rattle.ufmt_grammar.specs.declared.class.Class.TheVariants.{Token};

#[cfg(test)]
mod tests;

use ufmt::Full;
use ufmt::class::Class;
use ufmt::layout::Mode;
use ufmt_doc::convert::convert_into;
use ufmt_doc::is_text;
use ufmt_doc::scan::ScanError;

/// Writes the pretty text of a line to the front of the buffer, and returns its length. Takes no memory.
/// Fails with `Full` if the text is longer than 256 bytes: the buffer then has a prefix of it.
pub fn pretty_line(line: &[u8], buffer: &mut [u8; 256]) -> Result<usize, ScanError<Full>>
    ensures fronts { (text : List ℕ) → IsConverted Token plain_text pretty_text line.now text
        → Fronts buffer.old text result buffer.new }
    ensures is_text { IsOk result
        → (text : List ℕ) × IsConverted Token plain_text pretty_text line.now text }
    ensures not_text { IsErrOf result ScanError.NotText → NoDocumentPrints Token plain_text line.now }
{
    convert_into(buffer, Class::Token, Mode::Pretty, line)
}

/// Returns whether `read_plain` would read the line, given memory.
pub fn is_readable(line: &[u8]) -> bool
    ensures { IsTrue result
        ↔ ((d : Document) × IsTokenDocument d × (plain_text d ≡ line.now)) }
{
    is_text(Class::Token, Mode::Plain, line)
}
