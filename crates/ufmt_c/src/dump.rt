//! Dumps of bytes.
ghost use Rattle.std.specs.Prelude.{◌≡◌, ◌<◌, ◌≤◌, ℕ, List, length, min};
ghost use Rattle.ufmt.specs.Dump.{dump_text};
ghost use Rattle.ufmt_c.specs.Calls.{PutsText, WritesNothing, bad_option, reported};
ghost use Rattle.ufmt_c.specs.Options.{IsDumpStyle, dump_of};
ghost use Rattle.ufmt_c.specs.Private.Narrow.{StandsFor, left_out};

use crate::code::BAD_OPTION;
use crate::filler::Filler;
use crate::options::DumpStyle;
use ufmt::{HexDump, write_hex_dump};

/// Writes a dump of the bytes. Returns `BAD_OPTION` if the style is none.
#[unsafe(no_mangle)]
pub extern "C" fn ufmt_dump(
    buffer: &mut [u8],
    bytes: &[u8],
    style: &DumpStyle,
    detail: &mut usize,
) -> isize
    ensures text { IsDumpStyle style.now
        → PutsText buffer.old (dump_text (dump_of style.now) bytes.now) result buffer.new detail.new }
    ensures refused { ¬ (IsDumpStyle style.now) → result ≡ bad_option }
    ensures nothing { ¬ (IsDumpStyle style.now)
        → WritesNothing buffer.old detail.old buffer.new detail.new }
{
    let Some(dump) = style.to_dump() else {
        return BAD_OPTION;
    };
    if bytes.is_empty() {
        return print_dump(buffer, bytes, &dump, 0, detail);
    }
    let narrow = narrowed(&dump, buffer.len() + bytes.len());
    let rest = left_out(&dump, narrow.per_row);
    print_dump(buffer, bytes, &narrow, rest, detail)
}

// The dump with rows of at most so many bytes. Where one row has all bytes, a longer row only has more
// spaces before its text.
fn narrowed(dump: &HexDump, per_row: usize) -> HexDump
    ensures { result ≡ record dump.now { per_row = min dump.now.per_row per_row } }
{
    HexDump {
        per_row: dump.per_row.min(per_row),
        group: dump.group,
        offset: dump.offset,
        ascii: dump.ascii,
    }
}

// How many spaces fewer a row with text has if it is this long.
fn left_out(dump: &HexDump, per_row: usize) -> usize
    requires within { per_row ≤ dump.now.per_row }
    requires some { 0 < dump.now.per_row → 0 < per_row }
    ensures { result ≡ reported (left_out dump.now per_row) }
{
    if !dump.ascii || dump.per_row == per_row {
        return 0;
    }
    let of_digits = (dump.per_row - per_row).saturating_mul(2);
    if dump.group == 0 {
        return of_digits;
    }
    of_digits.saturating_add((dump.per_row - 1) / dump.group - (per_row - 1) / dump.group)
}

// Writes a dump that is `rest` bytes longer than this one, which has what the buffer shows of it.
fn print_dump(
    buffer: &mut [u8],
    bytes: &[u8],
    dump: &HexDump,
    rest: usize,
    detail: &mut usize,
) -> isize
    ensures { (whole : List ℕ)
        → StandsFor (length buffer.old) (dump_text dump.now bytes.now) rest whole
        → PutsText buffer.old whole result buffer.new detail.new }
{
    let mut filler = Filler::new(buffer);
    match write_hex_dump(&mut filler, bytes, dump) {
        Ok(()) => filler.report_longer(rest, detail),
        Err(never) => match never {},
    }
}
