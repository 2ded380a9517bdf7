//! Conversions of plain texts to pretty ones and back.
ghost use Rattle.std.specs.Prelude.{◌≡◌, ◌≤◌};
ghost use Rattle.ufmt.specs.Layout.{layout, setting};
ghost use Rattle.ufmt_c.specs.Calls.{WritesNothing, bad_option};
ghost use Rattle.ufmt_c.specs.Conversions.{ConvertsText};
ghost use Rattle.ufmt_c.specs.Options.{AreChoices, class_of, mode_of};
ghost use Rattle.ufmt_scan.specs.Texts.{other_mode};

use crate::code::{BAD_OPTION, NO_TEXT};
use crate::filler::Filler;
use crate::options::{to_class, to_mode};
use ufmt::class::Class;
use ufmt::layout::Mode;
use ufmt_scan::convert::{other_mode, write_converted};
use ufmt_scan::scan::ScanError;
use ufmt_scan::valid_up_to;

// Promise (programs): A conversion for C writes the other text. It returns `no_text` if and only if the input
// isn't a text, with the place in `detail`. `ufmt_unquote` undoes `ufmt_quote`, and `ufmt_unquote_debug` reads
// each escape of Rust, too. Where they fail, they say how much of the input is right. Also: `ufmt_is_text`,
// `ufmt_unquote`, `ufmt_unquote_debug`.
// Promise (programs): If bytes aren't UTF-8, a call from C says how many at the front are. For such bytes
// and for meaningless options the buffer stays as it was. Also: `ufmt_quote`.
/// Writes the text in the mode `to` of the documents of the class with this text in the other mode. Returns
/// `BAD_OPTION` if there is no such class or mode, and else `NO_TEXT` only if no document of the class has
/// it. Then `detail` becomes the number of bytes at the input's front that were read before the piece that
/// doesn't fit, and any byte of the buffer may have been overwritten.
#[unsafe(no_mangle)]
pub extern "C" fn ufmt_convert(
    buffer: &mut [u8],
    class: u32,
    to: u32,
    input: &[u8],
    detail: &mut usize,
) -> isize
    ensures converts { AreChoices class to → ConvertsText (class_of class)
        (layout (setting (other_mode (mode_of to)) 0)) (layout (setting (mode_of to) 0)) input.now
        buffer.old result buffer.new detail.new }
    ensures refused { ¬ (AreChoices class to) → result ≡ bad_option }
    ensures nothing { ¬ (AreChoices class to)
        → WritesNothing buffer.old detail.old buffer.new detail.new }
{
    let Some(class) = to_class(class) else {
        return BAD_OPTION;
    };
    let Some(to) = to_mode(to) else {
        return BAD_OPTION;
    };
    convert(class, to, buffer, input, detail)
}

// Writes the text of the input in the mode `to`, or returns `NO_TEXT`. Then `detail` becomes where the input
// stops being a text, which takes a scan of its own.
#[inline(always)]
fn convert(class: Class, to: Mode, buffer: &mut [u8], input: &[u8], detail: &mut usize) -> isize
    ensures { ConvertsText class (layout (setting (other_mode to) 0)) (layout (setting to 0)) input.now
        buffer.old result buffer.new detail.new }
{
    let mut filler = Filler::new(buffer);
    match write_converted(&mut filler, class, to, input) {
        Ok(()) => filler.report(detail),
        Err(ScanError::NotText) => {
            *detail = valid_up_to(class, other_mode(to), input);
            NO_TEXT
        }
        Err(ScanError::Sink(never)) => match never {},
    }
}
