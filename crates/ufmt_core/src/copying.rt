//! Short copies of bytes, without a call of `memcpy`.
ghost use Rattle.std.specs.Prelude.{◌≡◌, ◌+◌, ◌++◌, ◌*◌, ◌<◌, ◌≤◌, ℕ, length, take, drop};

/// Writes the bytes to the buffer, from `start` on. They must fit.
#[inline(always)]
pub fn put(bytes: &[u8], buffer: &mut [u8], start: usize)
    requires { start + length bytes.now ≤ length buffer.old }
    ensures written { take (start + length bytes.now) buffer.new
        ≡ take start buffer.old ++ bytes.now }
    ensures unwritten { drop (start + length bytes.now) buffer.new
        ≡ drop (start + length bytes.now) buffer.old }
{
    copy(bytes, &mut buffer[start..start + bytes.len()]);
}

// Copies the bytes to a target of the same length, without a test whether source and target overlap. Up to 16
// bytes are copied as their two ends, without a loop.
#[inline(always)]
fn copy(bytes: &[u8], target: &mut [u8])
    requires { length bytes.now ≡ length target.old }
    ensures { target.new ≡ bytes.now }
{
    let count = bytes.len();
    if count == 1 {
        target[0] = bytes[0];
    } else if count > 16 {
        copy_longer(bytes, target);
    } else if count >= 8 {
        copy_ends::<8>(bytes, target);
    } else if count >= 4 {
        copy_ends::<4>(bytes, target);
    } else if count >= 2 {
        copy_ends::<2>(bytes, target);
    }
}

// In line: a call would cost each caller more than the loop does.
#[inline(always)]
fn copy_longer(bytes: &[u8], target: &mut [u8])
    requires same_length { length bytes.now ≡ length target.old }
    requires longer { 16 < length bytes.now }
    ensures { target.new ≡ bytes.now }
{
    // From the end: the last chunk may overlap the one before it.
    let mut start = bytes.len() - 16;
    copy_chunk(bytes, target, start);
    while start > 16 {
        // Down to a multiple of 16. If each turn took 16 off, LLVM would see how often the loop runs, and unroll it
        // into three times as many bytes of code.
        start = (start - 1) / 16 * 16;
        copy_chunk(bytes, target, start);
    }
    copy_chunk(bytes, target, 0);
}

// Copies the 16 bytes from `start` on.
#[inline(always)]
fn copy_chunk(bytes: &[u8], target: &mut [u8], start: usize)
    requires same_length { length bytes.now ≡ length target.old }
    requires within { start + 16 ≤ length bytes.now }
    ensures same_length { length target.new ≡ length bytes.now }
    ensures copied { (n : ℕ) → n ≤ start + 16 → drop n target.old ≡ drop n bytes.now
        → drop start target.new ≡ drop start bytes.now }
{
    copy_whole::<16>(&bytes[start..start + 16], &mut target[start..start + 16]);
}

// Copies N bytes. `N` is always 16, but the check finds a proof only for any `N`.
#[inline(always)]
fn copy_whole<const N: usize>(bytes: &[u8], target: &mut [u8])
    requires source { length bytes.now ≡ N }
    requires same_length { length bytes.now ≡ length target.old }
    ensures { target.new ≡ bytes.now }
{
    *target.first_chunk_mut::<N>().unwrap() = *bytes.first_chunk::<N>().unwrap();
}

// Copies the first N bytes and the last N. They are all of the bytes, and may overlap.
#[inline]
fn copy_ends<const N: usize>(bytes: &[u8], target: &mut [u8])
    requires same_length { length bytes.now ≡ length target.old }
    requires each_end { N ≤ length bytes.now }
    requires no_middle { length bytes.now ≤ 2 * N }
    ensures { target.new ≡ bytes.now }
{
    *target.first_chunk_mut::<N>().unwrap() = *bytes.first_chunk::<N>().unwrap();
    *target.last_chunk_mut::<N>().unwrap() = *bytes.last_chunk::<N>().unwrap();
}
