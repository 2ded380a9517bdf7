//! Values and lines written to a buffer of C.
ghost use Rattle.std.specs.Prelude.{ℕ, List, length};
ghost use Rattle.ufmt.specs.Pieces.{line_text};
ghost use Rattle.ufmt_core.specs.Layout.{plain_text};
ghost use Rattle.ufmt_c.specs.Calls.{PutsText};
ghost use Rattle.ufmt_c.specs.Private.Narrow.{StandsFor};

use crate::filler::Filler;
use ufmt::{Line, uDebug, write_debug, write_line};

/// Writes the value's plain text to the front of the buffer.
pub(crate) fn print<T: uDebug>(buffer: &mut [u8], value: &T, detail: &mut usize) -> isize
    ensures { PutsText buffer.old (plain_text (T.document value.now)) result buffer.new
        detail.new }
{
    let mut filler = Filler::new(buffer);
    match write_debug(&mut filler, value) {
        Ok(()) => filler.report(detail),
        Err(never) => match never {},
    }
}

/// Writes the line to the front of the buffer.
pub(crate) fn print_line<L: Line>(buffer: &mut [u8], line: &L, detail: &mut usize) -> isize
    ensures { PutsText buffer.old (line_text (L.pieces line.now)) result buffer.new detail.new }
{
    print_longer(buffer, line, 0, detail)
}

/// Writes a longer line to the front of the buffer, of which this one has what the buffer shows. It has
/// `rest` bytes more.
pub(crate) fn print_longer<L: Line>(
    buffer: &mut [u8],
    line: &L,
    rest: usize,
    detail: &mut usize,
) -> isize
    ensures { (whole : List ℕ)
        → StandsFor (length buffer.old) (line_text (L.pieces line.now)) rest whole
        → PutsText buffer.old whole result buffer.new detail.new }
{
    let mut filler = Filler::new(buffer);
    match write_line(&mut filler, line) {
        Ok(()) => filler.report_longer(rest, detail),
        Err(never) => match never {},
    }
}
