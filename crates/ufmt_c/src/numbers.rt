//! Numbers in decimal, hexadecimal and binary digits.
ghost use Rattle.std.specs.Prelude.{◌≡◌, ◌+◌, ◌^◌, ◌<◌, ◌≤◌, min, pos, true};
ghost use lib.Ieee.{binary64};
ghost use Rattle.ufmt_core.specs.Decimal.{decimal};
ghost use Rattle.ufmt_core.specs.FloatText.{float_text};
ghost use Rattle.ufmt.specs.Hex.{padded_hexadecimal};
ghost use Rattle.ufmt.specs.Radix.{padded_in};
ghost use Rattle.ufmt.specs.declared.radix.Radix.TheVariants.{Binary};
ghost use Rattle.ufmt_c.specs.Calls.{WritesNothing, PutsText, bad_option};
ghost use Rattle.ufmt_c.specs.Options.{IsHexStyle, hex_of};

use crate::code::BAD_OPTION;
use crate::options::HexStyle;
use crate::print::{print, print_longer};
use ufmt::{HexOptions, pieces};

// The longest prefix and digits: `0b` and 64 bits.
const LONGEST: usize = 66;

// Promise (programs): A call from C leaves its text at the front of the buffer, with `full` a prefix, and its
// length in `detail`. Also: `ufmt_signed`, `ufmt_float`, `ufmt_float_fixed`, `ufmt_hexadecimal`,
// `ufmt_binary`, `ufmt_dump`, `ufmt_quote`, `ufmt_in_column`, `ufmt_difference`.
/// Writes the number in decimal digits.
#[unsafe(no_mangle)]
pub extern "C" fn ufmt_unsigned(buffer: &mut [u8], number: u64, detail: &mut usize) -> isize
    ensures { PutsText buffer.old (decimal (pos number)) result buffer.new detail.new }
{
    print(buffer, &number, detail)
}

/// Writes the number in decimal digits, with a minus before those of a negative one.
#[unsafe(no_mangle)]
pub extern "C" fn ufmt_signed(buffer: &mut [u8], number: i64, detail: &mut usize) -> isize
    ensures { PutsText buffer.old (decimal number) result buffer.new detail.new }
{
    print(buffer, &number, detail)
}

/// Writes the shortest decimal that reads as the float, as Rust's `{:?}` does.
#[unsafe(no_mangle)]
pub extern "C" fn ufmt_float(buffer: &mut [u8], number: f64, detail: &mut usize) -> isize
    ensures { PutsText buffer.old (float_text binary64 true number) result buffer.new detail.new }
{
    print(buffer, &number, detail)
}

/// Writes the number in hexadecimal digits, with a prefix and padding. Returns `BAD_OPTION` if the
/// style is none.
#[tactic(auto, unfolding(ufmt::specs::Pieces::line_text))]
#[unsafe(no_mangle)]
pub extern "C" fn ufmt_hexadecimal(
    buffer: &mut [u8],
    number: u64,
    style: &HexStyle,
    detail: &mut usize,
) -> isize
    ensures text { IsHexStyle style.now
        → PutsText buffer.old (padded_hexadecimal (hex_of style.now) number) result buffer.new
        detail.new }
    ensures refused { ¬ (IsHexStyle style.now) → result ≡ bad_option }
    ensures nothing { ¬ (IsHexStyle style.now)
        → WritesNothing buffer.old detail.old buffer.new detail.new }
{
    let Some(options) = style.to_options() else {
        return BAD_OPTION;
    };
    let narrow = narrowed(options, buffer.len());
    let rest = options.pad_length - narrow.pad_length;
    print_longer(buffer, &pieces!(hex number with narrow), rest, detail)
}

/// Writes the number in binary digits, with a prefix and padding. Fails as `ufmt_hexadecimal` does.
#[tactic(auto, unfolding(ufmt::specs::Pieces::line_text))]
#[unsafe(no_mangle)]
pub extern "C" fn ufmt_binary(
    buffer: &mut [u8],
    number: u64,
    style: &HexStyle,
    detail: &mut usize,
) -> isize
    ensures text { IsHexStyle style.now
        → PutsText buffer.old (padded_in Binary (hex_of style.now) number) result buffer.new
        detail.new }
    ensures refused { ¬ (IsHexStyle style.now) → result ≡ bad_option }
    ensures nothing { ¬ (IsHexStyle style.now)
        → WritesNothing buffer.old detail.old buffer.new detail.new }
{
    let Some(options) = style.to_options() else {
        return BAD_OPTION;
    };
    let narrow = narrowed(options, buffer.len());
    let rest = options.pad_length - narrow.pad_length;
    print_longer(buffer, &pieces!(bin number with narrow), rest, detail)
}

// The options with as much of their width as a buffer of this length can show.
fn narrowed(options: HexOptions, room: usize) -> HexOptions
    requires { room < 2 ^ 63 }
    ensures { result ≡ record options { pad_length = min options.pad_length (room + LONGEST) } }
{
    HexOptions {
        upper_case: options.upper_case,
        pad_char: options.pad_char,
        pad_length: options.pad_length.min(room + LONGEST),
        ox_prefix: options.ox_prefix,
    }
}
