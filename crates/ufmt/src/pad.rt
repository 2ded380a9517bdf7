//! Padding: an ASCII byte many times.
ghost use Rattle.std.specs.Prelude.{◌≡◌, ◌<◌, ◌≤◌, is_ok, replicate};
ghost use Rattle.ufmt_core.specs.Formatter.{Prints};

use ufmt_core::internal::text_from;
use ufmt_core::{Formatter, uWrite};

/// Writes so many of the byte, at most 64 in a piece. The pieces are parts of `copies`, a constant of the caller.
pub(crate) fn pad<W: uWrite, const BYTE: u8>(
    f: &mut Formatter<W>,
    copies: &[u8; 64],
    count: usize,
) -> Result<(), W::Error>
    requires ascii { BYTE < 128 }
    requires copies { copies.now ≡ replicate 64 BYTE }
    ensures { Prints W.seen f.old (replicate count BYTE) (is_ok result) f.new }
{
    for _piece in 0..count / 64 {
        f.write_str(part::<BYTE>(copies, 64))?;
    }
    match count % 64 {
        0 => Ok(()),
        left => f.write_str(part::<BYTE>(copies, left)),
    }
}

// So many of the copies.
fn part<const BYTE: u8>(copies: &[u8; 64], count: usize) -> &str
    requires ascii { BYTE < 128 }
    requires copies { copies.now ≡ replicate 64 BYTE }
    requires within { count ≤ 64 }
    ensures { result.now ≡ replicate count BYTE }
{
    text_from(copies, 64 - count)
}
