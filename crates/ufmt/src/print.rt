//! Values and lines printed to a writer, to a caller's buffer, and to a text of their own.
ghost use Rattle.std.specs.Prelude.{◌≡◌, ◌≤◌, List, is_ok, string_bytes, IfOk};
ghost use Rattle.ufmt_core.specs.Document.{nest, pretty_part};
ghost use Rattle.ufmt_core.specs.Formatter.{LaysOut};
ghost use Rattle.ufmt_core.specs.Layout.{plain_text, pretty_text};
ghost use Rattle.ufmt_core.specs.Writes.{Writes};
ghost use Rattle.ufmt_core.specs.Buffer.{Fronts};
ghost use Rattle.ufmt.specs.Pieces.{Piece, SamePieces, line_text};
ghost use Rattle.ufmt_core.specs.Shift.{HasNoLineFeed, shifted};

use crate::display::uDisplay;
use crate::pieces::Line;
use std::alloc::{AllocError, Global};
use ufmt_core::cursor::{Cursor, Full};
use ufmt_core::{Formatter, uDebug, uWrite};

/// Prints the value in pretty mode, at the formatter's depth, as a piece `pretty e` does. On `Err` a
/// prefix of its text was written. Mode and depth are as before.
#[tactic(auto, using(crate::proofs::PiecesInARow::laid_out_in_pretty))]
pub fn fmt_pretty<T: uDebug, W: uWrite>(value: &T, f: &mut Formatter<W>) -> Result<(), W::Error>
    ensures { LaysOut W.seen f.old (pretty_part (T.document value.now)) (is_ok result) f.new }
{
    f.pretty(|f| value.fmt(f))
}

/// Prints the value to the writer, by `uDebug` in plain mode. On `Err` a prefix of its text was
/// written.
pub fn write_debug<T: uDebug, W: uWrite>(writer: &mut W, value: &T) -> Result<(), W::Error>
    ensures { Writes W.seen writer.old (plain_text (T.document value.now)) (is_ok result)
        writer.new }
{
    let mut f = Formatter::new(writer);
    value.fmt(&mut f)
}

/// Prints the value to the writer, by `uDisplay` in plain mode. On `Err` a prefix of its text was
/// written.
pub fn write_display<T: uDisplay, W: uWrite>(writer: &mut W, value: &T) -> Result<(), W::Error>
    ensures { Writes W.seen writer.old (plain_text (T.display value.now)) (is_ok result)
        writer.new }
{
    let mut f = Formatter::new(writer);
    value.fmt(&mut f)
}

/// Prints the value to the writer, by `uDebug` in pretty mode at depth 0. On `Err` a prefix of its
/// text was written.
pub fn write_pretty<T: uDebug, W: uWrite>(writer: &mut W, value: &T) -> Result<(), W::Error>
    ensures { Writes W.seen writer.old (pretty_text (T.document value.now)) (is_ok result)
        writer.new }
{
    let mut f = Formatter::new(writer);
    fmt_pretty(value, &mut f)
}

/// Prints the line to the writer, in plain mode. On `Err` a prefix of it was written.
pub fn write_line<L: Line, W: uWrite>(writer: &mut W, line: &L) -> Result<(), W::Error>
    ensures line { Writes W.seen writer.old (line_text (L.pieces line.now)) (is_ok result) writer.new }
    ensures alike { (ps : List Piece) → SamePieces ps (L.pieces line.now)
        → Writes W.seen writer.old (line_text ps) (is_ok result) writer.new }
{
    let mut f = Formatter::new(writer);
    line.print(&mut f)
}

// Promise (buffers): The text is at the front of the buffer, and `Ok` has its length. With `Full`, a prefix of
// it is there. Other bytes stay as they were. A text that fits never fails. Also: `print::pretty_into`,
// `print::display_into`, `print::line_into`, `dump::hex_dump_into`.
/// Prints the value to the front of the buffer, by `uDebug` in plain mode, and returns the text's
/// length. On `Full` a prefix of the text was printed there. The other bytes stay as they were.
pub fn debug_into<T: uDebug>(buffer: &mut [u8], value: &T) -> Result<usize, Full>
    ensures { Fronts buffer.old (plain_text (T.document value.now)) result buffer.new }
{
    let mut cursor = Cursor::new(buffer);
    write_debug(&mut cursor, value)?;
    Ok(cursor.written().len())
}

/// `debug_into` in pretty mode, at depth 0.
pub fn pretty_into<T: uDebug>(buffer: &mut [u8], value: &T) -> Result<usize, Full>
    ensures { Fronts buffer.old (pretty_text (T.document value.now)) result buffer.new }
{
    let mut cursor = Cursor::new(buffer);
    write_pretty(&mut cursor, value)?;
    Ok(cursor.written().len())
}

/// `debug_into` by `uDisplay`.
pub fn display_into<T: uDisplay>(buffer: &mut [u8], value: &T) -> Result<usize, Full>
    ensures { Fronts buffer.old (plain_text (T.display value.now)) result buffer.new }
{
    let mut cursor = Cursor::new(buffer);
    write_display(&mut cursor, value)?;
    Ok(cursor.written().len())
}

/// Prints the line to the front of the buffer, in plain mode, and returns its length. On `Full` a
/// prefix of its text was printed there. The other bytes stay as they were.
pub fn line_into<L: Line>(buffer: &mut [u8], line: &L) -> Result<usize, Full>
    ensures line { Fronts buffer.old (line_text (L.pieces line.now)) result buffer.new }
    ensures alike { (ps : List Piece) → SamePieces ps (L.pieces line.now)
        → Fronts buffer.old (line_text ps) result buffer.new }
{
    let mut cursor = Cursor::new(buffer);
    write_line(&mut cursor, line)?;
    Ok(cursor.written().len())
}

/// Returns the value's plain text. Fails only for want of memory.
pub fn plain_text<T: uDebug>(alloc: Global, value: &T) -> Result<String, AllocError>
    ensures { IfOk result (λ text. string_bytes text ≡ plain_text (T.document value.now)) }
{
    let mut text = String::new(alloc);
    write_debug(&mut text, value)?;
    Ok(text)
}

// Promise (printing): In pretty text a line inside `n` blocks begins with four times `n` spaces, if no leaf
// and no name has a line feed and `n` is at most 255. Clauses: `shifted`. Also:
// `ufmt_grammar::laws::shifted_at_depth`.
/// Returns the value's pretty text, from depth 0. Fails only for want of memory. The text is also the
/// shifted text, which is defined without a depth, if blocks with entries are nested at most 255 deep
/// and no leaf and no name has a line feed.
pub fn pretty_text<T: uDebug>(alloc: Global, value: &T) -> Result<String, AllocError>
    ensures text { IfOk result (λ text. string_bytes text ≡ pretty_text (T.document value.now)) }
    ensures shifted { IfOk result (λ text.
        HasNoLineFeed (T.document value.now) → nest (T.document value.now) ≤ 255
        → string_bytes text ≡ shifted (T.document value.now)) }
{
    let mut text = String::new(alloc);
    write_pretty(&mut text, value)?;
    Ok(text)
}
