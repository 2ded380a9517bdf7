//! The first byte of a set in a text, and the last, sixteen bytes at once.
ghost use Rattle.std.specs.Prelude.{◌≡◌, ◌<◌, ◌≤◌, ◌-◌, ◌==◌, ℕ, Bool, false, length, map, not, slice_index};
ghost use Rattle.std.specs.List.{position_or_len, suffix_len};
ghost use Rattle.std.specs.Simd.Lanes.{mask_l};
ghost use Rattle.ufmt.specs.Bytes.{line_feed};
ghost use Rattle.ufmt.specs.Leaves.{is_opening};
ghost use Rattle.ufmt_values.specs.Unclosed.{is_closing};

use crate::values::{is_closing, is_opening};
use std::simd::prelude::*;

/// A set of bytes that are searched for.
pub trait ByteSet {
    ghost has: { ℕ → Bool };

    /// Whether the set has this byte.
    fn has(byte: u8) -> bool
        ensures { result ≡ has byte };

    /// A bit for each byte that the set has.
    fn marks(bytes: u8x16) -> u64
        ensures { result ≡ mask_l (map has bytes) };
}

/// The byte that ends a line.
pub struct LineFeed;

/// The brackets that open a block.
pub struct Opening;

/// The brackets that close a block.
pub struct Closing;

impl ByteSet for LineFeed {
    ghost has = { λ byte. byte == line_feed };

    #[inline(always)]
    fn has(byte: u8) -> bool {
        byte == b'\n'
    }

    #[inline(always)]
    fn marks(bytes: u8x16) -> u64 {
        bytes.simd_eq(u8x16::splat(b'\n')).to_bitmask()
    }
}

impl ByteSet for Opening {
    ghost has = { is_opening };

    #[inline(always)]
    fn has(byte: u8) -> bool {
        is_opening(byte)
    }

    // `[` and `{` differ in one bit.
    #[inline(always)]
    fn marks(bytes: u8x16) -> u64 {
        ((bytes | u8x16::splat(0x20)).simd_eq(u8x16::splat(b'{'))
            | bytes.simd_eq(u8x16::splat(b'('))).to_bitmask()
    }
}

impl ByteSet for Closing {
    ghost has = { is_closing };

    #[inline(always)]
    fn has(byte: u8) -> bool {
        is_closing(byte)
    }

    // `]` and `}` differ in one bit.
    #[inline(always)]
    fn marks(bytes: u8x16) -> u64 {
        ((bytes | u8x16::splat(0x20)).simd_eq(u8x16::splat(b'}'))
            | bytes.simd_eq(u8x16::splat(b')'))).to_bitmask()
    }
}

/// Returns the place of the first byte of the set, or the length if there is none.
pub fn len_before_first<S: ByteSet>(text: &[u8]) -> usize
    ensures place { result ≡ position_or_len S.has text.now }
    ensures within { result ≤ length text.now }
{
    // Sixteen bytes are left before it.
    let limit = text.len().saturating_sub(15);
    let mut at = 0;
    'vectors: while at < limit {
        let found = S::marks(u8x16::from_slice(&text[at..]));
        if found != 0 {
            return at + found.trailing_zeros() as usize;
        }
        at += 16;
    }
    len_before_first_from::<S>(text, at)
}

// The same, byte by byte, if the set has none of the bytes before `start`.
#[inline(always)]
fn len_before_first_from<S: ByteSet>(text: &[u8], start: usize) -> usize
    requires within { start ≤ length text.now }
    requires none { (k : ℕ) → k < start → S.has (slice_index text.now k) ≡ false }
    ensures place { result ≡ position_or_len S.has text.now }
    ensures within { result ≤ length text.now }
{
    let mut at = start;
    'bytes: while at < text.len() && !S::has(text[at]) {
        at += 1;
    }
    at
}

/// Returns the place after the last byte of the set, or 0 if there is none.
pub fn len_through_last<S: ByteSet>(text: &[u8]) -> usize
    ensures end { result ≡ length text.now - suffix_len (λ byte. not (S.has byte)) text.now }
    ensures within { result ≤ length text.now }
{
    let mut end = text.len();
    'vectors: while end >= 16 {
        let found = S::marks(u8x16::from_slice(&text[end - 16..]));
        if found != 0 {
            return end - 15 + found.ilog2() as usize;
        }
        end -= 16;
    }
    len_through_last_before::<S>(text, end)
}

// The same, byte by byte, if the set has none of the bytes from `limit` on.
#[inline(always)]
fn len_through_last_before<S: ByteSet>(text: &[u8], limit: usize) -> usize
    requires within { limit ≤ length text.now }
    requires none { (k : ℕ) → limit ≤ k → k < length text.now
        → S.has (slice_index text.now k) ≡ false }
    ensures end { result ≡ length text.now - suffix_len (λ byte. not (S.has byte)) text.now }
    ensures within { result ≤ length text.now }
{
    let mut end = limit;
    'bytes: while end > 0 && !S::has(text[end - 1]) {
        end -= 1;
    }
    end
}
