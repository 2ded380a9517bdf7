//! Texts of bytes that are ASCII.
ghost use Rattle.std.specs.Prelude.{◌≡◌, ◌≤◌, IsAscii, drop, length};

use std::str;

/// Returns the end of `buffer`, from `start` on, as a text. These bytes must be ASCII.
#[inline(always)]
pub fn text_from(buffer: &[u8], start: usize) -> &str
    requires within { start ≤ length buffer.now }
    requires ascii { IsAscii (drop start buffer.now) }
    ensures { result.now ≡ drop start buffer.now }
{
    // ASCII is UTF-8. The check proves that at this call, so nothing is tested at run time.
    unsafe { str::from_utf8_unchecked(&buffer[start..]) }
}
