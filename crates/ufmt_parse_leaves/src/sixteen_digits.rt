//! Sixteen digits at once, in the lanes of a vector.
ghost use Rattle.std.specs.Prelude.{◌≡◌, ◌+◌, [], ◌∷◌, length, map, true, IfSome};
ghost use Rattle.std.specs.Int.Digits.{number_from_digits, AllBelowBase};
ghost use Rattle.ufmt_core.specs.Decimal.{decimal_byte};
ghost use Rattle.ufmt_parse_leaves.specs.Private.Digits.{joined, BeginsWithDigits};

use std::simd::prelude::*;

// How much more than `0` each byte is, wrapped.
#[inline(always)]
fn less_zero(bytes: u8x16) -> u8x16
    ensures { AllBelowBase 10 result → bytes ≡ map decimal_byte result }
{
    bytes - u8x16::splat(b'0')
}

#[inline(always)]
fn are_digits(values: u8x16) -> bool
    ensures { result ≡ true → AllBelowBase 10 values }
{
    !values.simd_gt(u8x16::splat(9)).any()
}

// The numbers of two digits each. The first digit is in a lane's lower half. The product adds ten
// times it to the second, in the upper half.
#[inline(always)]
fn pairs(digits: u8x16) -> u16x8
    requires { AllBelowBase 10 digits }
    ensures { result ≡ joined 10 digits }
{
    (u16x8::from_le_bytes(digits) * u16x8::splat(1 + (10 << 8))) >> 8
}

// The numbers of four digits each, in the same way.
#[inline(always)]
fn fours(pairs: u16x8) -> u32x4
    requires { AllBelowBase 100 pairs }
    ensures { result ≡ joined 100 pairs }
{
    (u32x4::from_le_bytes(pairs.to_le_bytes()) * u32x4::splat(1 + (100 << 16))) >> 16
}

// The numbers of eight digits each. There is no product of lanes so wide.
#[inline(always)]
fn eights(fours: u32x4) -> (u64, u64)
    requires { AllBelowBase 10000 fours }
    ensures { result.0 ∷ result.1 ∷ [] ≡ joined 10000 fours }
{
    let lanes = u64x2::from_le_bytes(fours.to_le_bytes());
    let factor = 1 + (10_000 << 32);
    (
        lanes[0].wrapping_mul(factor) >> 32,
        lanes[1].wrapping_mul(factor) >> 32,
    )
}

// The number of all sixteen.
#[inline(always)]
fn number(digits: u8x16) -> u64
    requires { AllBelowBase 10 digits }
    ensures { result ≡ number_from_digits 10 digits }
{
    let (high, low) = eights(fours(pairs(digits)));
    high * 100_000_000 + low
}

/// The number that the first sixteen bytes denote, if all are digits, and what follows them.
#[inline(always)]
pub(crate) fn split_sixteen(input: &[u8]) -> Option<(u64, &[u8])>
    ensures denotes { IfSome result (λ found. BeginsWithDigits 16 found.0 input.now found.1.now) }
    ensures shrinks { IfSome result (λ found. length found.1.now + 16 ≡ length input.now) }
{
    if input.len() < 16 {
        return None;
    }
    let digits = less_zero(u8x16::from_slice(input));
    if are_digits(digits) {
        Some((number(digits), &input[16..]))
    } else {
        None
    }
}
