//! Values and lines printed to a caller's buffer, as much of each as fits.
ghost use Rattle.std.specs.Prelude.{◌≡◌, List, length, not};
ghost use Rattle.ufmt_core.specs.Layout.{plain_text, pretty_text};
ghost use Rattle.ufmt.specs.Cut.{FrontsCut};
ghost use Rattle.ufmt.specs.Pieces.{Piece, SamePieces, line_text};
ghost use Rattle.ufmt.specs.Truncating.{has_cut, written_bytes};

use crate::display::uDisplay;
use crate::pieces::Line;
use crate::print::{write_debug, write_display, write_line, write_pretty};
use crate::truncating::Truncating;
use ufmt_core::uDebug;

/// How much of a text was printed to the front of a buffer.
#[derive(Clone, Copy, PartialEq, Eq, Debug, Drop)]
pub struct Cut {
    /// The number of bytes.
    pub length: usize,
    /// Whether they are all of the text.
    pub is_whole: bool,
}

// Promise (buffers): A cut text has as many whole characters as fit, so at most three bytes stay unused.
// `is_whole` says whether all of it fits. Also: `cut::pretty_cut_into`, `cut::display_cut_into`,
// `cut::line_cut_into`.
/// Prints to the front of the buffer as much of the value as fits, by `uDebug` in plain mode. The text
/// is cut between two characters. The other bytes stay as they were.
pub fn debug_cut_into<T: uDebug>(buffer: &mut [u8], value: &T) -> Cut
    ensures { FrontsCut buffer.old (plain_text (T.document value.now)) result buffer.new }
{
    let mut writer = Truncating::new(buffer);
    let _ = write_debug(&mut writer, value);
    cut_by(&writer)
}

/// `debug_cut_into` in pretty mode, at depth 0.
pub fn pretty_cut_into<T: uDebug>(buffer: &mut [u8], value: &T) -> Cut
    ensures { FrontsCut buffer.old (pretty_text (T.document value.now)) result buffer.new }
{
    let mut writer = Truncating::new(buffer);
    let _ = write_pretty(&mut writer, value);
    cut_by(&writer)
}

/// `debug_cut_into` by `uDisplay`.
pub fn display_cut_into<T: uDisplay>(buffer: &mut [u8], value: &T) -> Cut
    ensures { FrontsCut buffer.old (plain_text (T.display value.now)) result buffer.new }
{
    let mut writer = Truncating::new(buffer);
    let _ = write_display(&mut writer, value);
    cut_by(&writer)
}

/// Prints to the front of the buffer as much of the line as fits, in plain mode. The text is cut between
/// two characters. The other bytes stay as they were.
pub fn line_cut_into<L: Line>(buffer: &mut [u8], line: &L) -> Cut
    ensures line { FrontsCut buffer.old (line_text (L.pieces line.now)) result buffer.new }
    ensures alike { (ps : List Piece) → SamePieces ps (L.pieces line.now)
        → FrontsCut buffer.old (line_text ps) result buffer.new }
{
    let mut writer = Truncating::new(buffer);
    let _ = write_line(&mut writer, line);
    cut_by(&writer)
}

// How much the writer took.
fn cut_by(writer: &Truncating<'_>) -> Cut
    ensures length { result.length ≡ length (written_bytes writer.now) }
    ensures is_whole { result.is_whole ≡ not (has_cut writer.now) }
{
    Cut {
        length: writer.written().len(),
        is_whole: !writer.is_cut(),
    }
}
