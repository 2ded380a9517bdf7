//! Floats with a number of decimals.
ghost use Rattle.std.specs.Prelude.{◌≡◌};
ghost use Rattle.ufmt_fixed.specs.Text.{fixed_text};
ghost use Rattle.ufmt_c.specs.Calls.{PutsText};
ghost use Rattle.ufmt_c.specs.Private.Narrow.{zeros_column};

use crate::print::{print_line, print_longer};
use ufmt::{Align, Column, pieces};
use ufmt_core::internal::text_from;
use ufmt_fixed::{LongText, ShortText};

/// Writes the float's exact value, rounded to so many decimals, as Rust's `{:.2}` does.
#[tactic(auto, unfolding(ufmt::specs::Pieces::line_text))]
#[unsafe(no_mangle)]
pub extern "C" fn ufmt_float_fixed(
    buffer: &mut [u8],
    number: f64,
    decimals: usize,
    detail: &mut usize,
) -> isize
    ensures { PutsText buffer.old (fixed_text decimals number) result buffer.new detail.new }
{
    match ShortText::of(number, decimals) {
        Some(short) => {
            let digits = text_from(short.as_bytes(), 0);
            print_line(buffer, &pieces!(text digits), detail)
        }
        None => print_long(buffer, number, decimals, detail),
    }
}

// The same of every float. Out of line: its frame is large, and few texts need it.
#[tactic(auto, unfolding(ufmt::specs::Pieces::line_text))]
#[inline(never)]
fn print_long(buffer: &mut [u8], number: f64, decimals: usize, detail: &mut usize) -> isize
    ensures { PutsText buffer.old (fixed_text decimals number) result buffer.new detail.new }
{
    let long = LongText::of(number, decimals);
    let (bytes, zeros) = long.parts();
    let digits = text_from(bytes, 0);
    let shown = zeros.min(buffer.len());
    let column = zeros_column(shown);
    print_longer(
        buffer,
        &pieces!(text digits, display "" in column),
        zeros - shown,
        detail,
    )
}

// A column that without a text has so many zeros.
fn zeros_column(width: usize) -> Column
    ensures { result ≡ zeros_column width }
{
    Column {
        width,
        align: Align::Left,
        fill: '0',
    }
}
