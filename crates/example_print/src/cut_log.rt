//! One line of a log in a buffer of a fixed size, as much of it as fits.
ghost use Rattle.std.specs.Prelude.{[], ◌∷◌, codes};
ghost use Rattle.ufmt.specs.Cut.{FrontsCut};
ghost use Rattle.ufmt.specs.Pieces.{line_text, shown, text};
ghost use Rattle.ufmt.specs.ValueDocuments.{number};

use ufmt::{Cut, line_cut_into, pieces};

/// Writes one line of a log to the front of the buffer: `node 7: ` and the message. A line that is
/// longer than the buffer is cut there, between two characters.
pub fn log_cut(buffer: &mut [u8], node: u16, message: &str) -> Cut
    ensures { FrontsCut buffer.old
        (line_text (text (codes "node ") ∷ shown (number node) ∷ text (codes ": ") ∷ text message.now ∷ []))
        result buffer.new }
{
    line_cut_into(
        buffer,
        &pieces!(text "node ", debug node, text ": ", text message),
    )
}
