//! Texts in columns.
ghost use Rattle.std.specs.Prelude.{◌≡◌, ◌+◌, ◌*◌, ◌^◌, ◌<◌, min};
ghost use Rattle.std.specs.Str.{IsUtf8};
ghost use Rattle.ufmt.specs.Column.{in_column};
ghost use Rattle.ufmt_c.specs.Calls.{RefusesBytes, WritesNothing, PutsText, bad_option, reported};
ghost use Rattle.ufmt_c.specs.Options.{IsColumnStyle, column_of};

use crate::code::{BAD_OPTION, NOT_UTF8};
use crate::options::ColumnStyle;
use crate::print::print_longer;
use crate::text::text_of;
use ufmt::{Column, pieces};

/// Writes the text, with fills up to the width of the column. Returns `BAD_OPTION` if the style is none, or
/// else `NOT_UTF8` if the input isn't UTF-8; `detail` becomes the number of bytes at its front that are.
#[tactic(auto, unfolding(ufmt::specs::Pieces::line_text))]
#[unsafe(no_mangle)]
pub extern "C" fn ufmt_in_column(
    buffer: &mut [u8],
    input: &[u8],
    style: &ColumnStyle,
    detail: &mut usize,
) -> isize
    ensures text { IsColumnStyle style.now → IsUtf8 input.now
        → PutsText buffer.old (in_column (column_of style.now) input.now) result buffer.new
        detail.new }
    ensures bytes { IsColumnStyle style.now → ¬ (IsUtf8 input.now)
        → RefusesBytes input.now buffer.old result buffer.new detail.new }
    ensures refused { ¬ (IsColumnStyle style.now) → result ≡ bad_option }
    ensures nothing { ¬ (IsColumnStyle style.now)
        → WritesNothing buffer.old detail.old buffer.new detail.new }
{
    let Some(column) = style.to_column() else {
        return BAD_OPTION;
    };
    let Some(text) = text_of(input, detail) else {
        return NOT_UTF8;
    };
    let narrow = narrowed(column, input.len(), buffer.len());
    let rest = (column.width - narrow.width).saturating_mul(column.fill.len_utf8());
    print_longer(buffer, &pieces!(display text in narrow), rest, detail)
}

// The column with as much of its width as a buffer can show, for a text of this length. In the center half of
// the fills come before the text.
fn narrowed(column: Column, length: usize, room: usize) -> Column
    requires { room < 2 ^ 63 }
    ensures { result ≡ record column { width = min column.width (reported (2 * room + length)) } }
{
    Column {
        width: column.width.min((2 * room).saturating_add(length)),
        align: column.align,
        fill: column.fill,
    }
}
