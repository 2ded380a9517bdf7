//! Texts of floats with a number of decimals.
ghost use Rattle.std.specs.Prelude.{◌≡◌, ◌++◌, ◌*◌, ◌^◌, ◌<◌, ◌≤◌, [], List, ℕ, IsAscii, IfSome, codes, length, drop, replicate, if◌then◌else◌};
ghost use Rattle.ufmt_float.specs.Put.{IsPut};
ghost use Rattle.ufmt_fixed.specs.Dyadic.{IsSize};
ghost use Rattle.ufmt_fixed.specs.Nearest.{nearest};
ghost use Rattle.ufmt_fixed.specs.Text.{fixed_digits, fixed_text};

use crate::dyadic::{Dyadic, dyadic_of};
use crate::put::{put_decimals, put_fixed, put_natural, put_point};
use crate::rounding::{is_below_half, long_digits, short_digits};
use std::marker::Model;
use ufmt_float::Float;
use ufmt_float::internal::{put_byte, put_sign, put_word};

// Room for a sign, 20 digits, a point and 19 decimals.
const SHORT_SIZE: usize = 48;

/// A text of a float below 2 ^ 63 with at most 19 decimals, whose digits together are a word.
#[derive(Drop)]
pub struct ShortText {
    bytes: [u8; SHORT_SIZE],
    start: usize,
}

impl Model for ShortText {
    ghost Value = { List ℕ };

    ghost view = { λ t. drop t.start t.bytes };

    ghost invariant = { λ t. (t.start ≤ 48) × IsAscii (drop t.start t.bytes) };
}

impl ShortText {
    /// Returns the text of `x` with so many decimals, unless `LongText` must make it.
    #[inline(always)]
    pub fn of<F: Float>(x: F, decimals: usize) -> Option<ShortText>
        ensures { IfSome result (λ t. t ≡ fixed_text decimals (F.value x)) }
    {
        let Dyadic::Finite {
            negative,
            significand,
            twos,
            halves,
        } = dyadic_of(x)
        else {
            return None;
        };
        let digits = short_digits(significand, twos, halves, decimals)?;
        let mut bytes = [0; SHORT_SIZE];
        let start = put_fixed(&mut bytes, SHORT_SIZE, digits, decimals);
        let start = put_sign(&mut bytes, start, negative);
        Some(ShortText { bytes, start })
    }

    /// Returns the bytes of the text.
    #[inline(always)]
    pub fn as_bytes(&self) -> &[u8]
        ensures text { result.now ≡ self.now }
        ensures ascii { IsAscii result.now }
    {
        &self.bytes[self.start..]
    }
}

// Room for a sign, 309 digits, a point and 1,074 decimals. The largest float is about 10 ^ 308.3, and the least above 0 is
// 2 ^ -1074.
const LONG_SIZE: usize = 1385;

/// A text of any float with any number of decimals. Zeros at its end are counted only.
#[derive(Drop)]
pub struct LongText {
    bytes: [u8; LONG_SIZE],
    start: usize,
    zeros: usize,
}

impl Model for LongText {
    ghost Value = { List ℕ };

    ghost view = { λ t. drop t.start t.bytes ++ replicate t.zeros 48 };

    ghost invariant = { λ t. (t.start ≤ 1385) × IsAscii (drop t.start t.bytes) };
}

impl LongText {
    // Promise (floats): With `n` decimals a float prints its exact value rounded to `n` places, ties to even,
    // with its sign, and a point before the `n` digits. Also: `ShortText::of`, `laws::nearest_is_closest`,
    // `ufmt::laws::floats::uwrite_decimals`, `ufmt::laws::floats::line_of_decimals`.
    /// Returns the text of `x` with so many decimals.
    pub fn of<F: Float>(x: F, decimals: usize) -> LongText
        ensures { result ≡ fixed_text decimals (F.value x) }
    {
        let mut bytes = [0; LONG_SIZE];
        let (start, zeros) = put_float(&mut bytes, x, decimals);
        LongText {
            bytes,
            start,
            zeros,
        }
    }

    /// Returns the bytes of the text, and how many zeros come after them.
    #[inline(always)]
    pub fn parts(&self) -> (&[u8], usize)
        ensures text { result.0.now ++ replicate result.1 48 ≡ self.now }
        ensures ascii { IsAscii result.0.now }
    {
        (&self.bytes[self.start..], self.zeros)
    }
}

/// Writes a float at the end of the buffer, without some of its last zeros. Returns where the text starts, and how many
/// zeros are left out.
fn put_float<F: Float>(buffer: &mut [u8], x: F, decimals: usize) -> (usize, usize)
    requires { length buffer.old ≡ 1385 }
    ensures text { drop result.0 buffer.new ++ replicate result.1 48 ≡ fixed_text decimals (F.value x) }
    ensures ascii { IsAscii (drop result.0 buffer.new) }
    ensures within { result.0 ≤ 1385 }
    ensures same { length buffer.new ≡ length buffer.old }
{
    match dyadic_of(x) {
        Dyadic::NotANumber => (put_word(buffer, LONG_SIZE, *b"NaN"), 0),
        Dyadic::Infinite { negative } => {
            let end = put_word(buffer, LONG_SIZE, *b"inf");
            (put_sign(buffer, end, negative), 0)
        }
        Dyadic::Finite {
            negative,
            significand,
            twos,
            halves,
        } => {
            let (end, zeros) = put_finite(buffer, significand, twos, halves, decimals);
            (put_sign(buffer, end, negative), zeros)
        }
    }
}

/// Writes `significand * 2 ^ twos / 2 ^ halves` as `put_float` does.
fn put_finite(
    buffer: &mut [u8],
    significand: u64,
    twos: u64,
    halves: u64,
    decimals: usize,
) -> (usize, usize)
    requires size { IsSize significand twos halves }
    requires room { length buffer.old ≡ 1385 }
    ensures text { drop result.0 buffer.new ++ replicate result.1 48 ≡
        fixed_digits decimals (nearest (significand * 2 ^ twos * 10 ^ decimals) (2 ^ halves)) }
    ensures ascii { IsAscii (drop result.0 buffer.new) }
    ensures within { (0 < result.0) × (result.0 ≤ 1385) }
    ensures same { length buffer.new ≡ length buffer.old }
{
    if is_below_half(significand, halves, decimals) {
        return (put_zero(buffer, decimals > 0), decimals);
    }
    let places = decimals.min(halves as usize);
    let mut digits = long_digits(significand, twos, halves, places as u64);
    let end = put_decimals(buffer, LONG_SIZE, &mut digits, places);
    let end = put_point(buffer, end, decimals > 0);
    (put_natural(buffer, end, &mut digits), decimals - places)
}

/// Writes a 0 at the end of the buffer, and a point after it if `has_decimals`.
#[inline(always)]
fn put_zero(buffer: &mut [u8], has_decimals: bool) -> usize
    requires { length buffer.old ≡ 1385 }
    ensures { IsPut (codes "0" ++ (if has_decimals then (codes ".") else [])) 1385 buffer.old result
        buffer.new }
{
    let end = put_point(buffer, LONG_SIZE, has_decimals);
    put_byte(buffer, end, b'0')
}
