//! Bytes that are ASCII and are written as themselves in quotation marks, sixteen at once.
ghost use Rattle.std.specs.Prelude.{◌≡◌, ◌≤◌, length, map, take, true};
ghost use Rattle.std.specs.Simd.Lanes.{mask_l};
ghost use Rattle.ufmt_parse_leaves.specs.Spelling.{all_plain, is_marked, is_plain};

use std::simd::prelude::*;

// A bit for each byte that isn't plain.
#[inline(always)]
fn marks(bytes: u8x16) -> u64
    ensures { result ≡ mask_l (map is_marked bytes) }
{
    ((bytes - u8x16::splat(32)).simd_ge(u8x16::splat(95))
        | bytes.simd_eq(u8x16::splat(b'"'))
        | bytes.simd_eq(u8x16::splat(b'\\'))).to_bitmask()
}

// Whether the byte is ASCII and written as itself.
#[inline(always)]
fn is_plain(byte: u8) -> bool
    ensures { result ≡ is_plain byte }
{
    (32 <= byte) & (byte < 127) & (byte != b'"') & (byte != b'\\')
}

// How far the input is plain, byte by byte, where it is up to `start`.
#[inline(always)]
#[tactic(auto, using(crate::proofs::PlainFronts::plain_bytes))]
fn plain_end(input: &[u8], start: usize) -> usize
    requires within { start ≤ length input.now }
    requires plain { all_plain (take start input.now) ≡ true }
    ensures within { result ≤ length input.now }
    ensures plain { all_plain (take result input.now) ≡ true }
{
    let mut end = start;
    'bytes: while end < input.len() && is_plain(input[end]) {
        end += 1;
    }
    end
}

/// Returns how many bytes at the front are plain.
#[inline(always)]
pub(crate) fn plain_len(input: &[u8]) -> usize
    ensures within { result ≤ length input.now }
    ensures plain { all_plain (take result input.now) ≡ true }
{
    let mut end = 0;
    'vectors: while input.len() - end >= 16 {
        let found = marks(u8x16::from_slice(&input[end..]));
        if found != 0 {
            return end + found.trailing_zeros() as usize;
        }
        end += 16;
    }
    plain_end(input, end)
}
