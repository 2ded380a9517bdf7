//! The first line in which two texts differ.
ghost use Rattle.std.specs.Prelude.{◌≡◌};
ghost use Rattle.std.specs.Str.{IsUtf8};
ghost use Rattle.ufmt_c.specs.Calls.{RefusesBytes, RefusesText};
ghost use Rattle.ufmt_c.specs.Differences.{LineOfDifference, TellsDifference};

use crate::code::NOT_UTF8;
use crate::message::Message;
use crate::print::print_line;
use crate::text::text_of;
use ufmt_snapshot::first_difference;

// Promise (programs): C gets the number of the first line that differs, or 0.
/// Returns the number of the first line in which the texts differ, and 0 if they are equal; or `NOT_UTF8` if
/// one isn't UTF-8. Then `detail` becomes the number of bytes at the first such text's front that are.
#[unsafe(no_mangle)]
pub extern "C" fn ufmt_first_difference(given: &[u8], stored: &[u8], detail: &mut usize) -> isize
    ensures texts { IsUtf8 given.now → IsUtf8 stored.now
        → LineOfDifference given.now stored.now result }
    ensures same_detail { IsUtf8 given.now → IsUtf8 stored.now → detail.new ≡ detail.old }
    ensures given { ¬ (IsUtf8 given.now) → RefusesText given.now result detail.new }
    ensures stored { IsUtf8 given.now → ¬ (IsUtf8 stored.now)
        → RefusesText stored.now result detail.new }
{
    let Some(given) = text_of(given, detail) else {
        return NOT_UTF8;
    };
    let Some(stored) = text_of(stored, detail) else {
        return NOT_UTF8;
    };
    match first_difference(given, stored) {
        None => 0,
        Some(difference) => difference.line.min(isize::MAX as usize) as isize,
    }
}

/// Writes a message on the first line in which the texts differ, or the empty text if they are equal. Fails as `ufmt_first_difference` does.
#[tactic(auto, unfolding(ufmt::specs::Pieces::line_text))]
#[unsafe(no_mangle)]
pub extern "C" fn ufmt_difference(
    buffer: &mut [u8],
    given: &[u8],
    stored: &[u8],
    detail: &mut usize,
) -> isize
    ensures texts { IsUtf8 given.now → IsUtf8 stored.now
        → TellsDifference given.now stored.now buffer.old result buffer.new detail.new }
    ensures given { ¬ (IsUtf8 given.now)
        → RefusesBytes given.now buffer.old result buffer.new detail.new }
    ensures stored { IsUtf8 given.now → ¬ (IsUtf8 stored.now)
        → RefusesBytes stored.now buffer.old result buffer.new detail.new }
{
    let Some(given) = text_of(given, detail) else {
        return NOT_UTF8;
    };
    let Some(stored) = text_of(stored, detail) else {
        return NOT_UTF8;
    };
    match first_difference(given, stored) {
        None => print_line(buffer, &(), detail),
        Some(difference) => print_line(buffer, &Message { difference }, detail),
    }
}
