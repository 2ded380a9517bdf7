//! Floats whose text has a point and no exponent, without reading the text as std does.
ghost use Rattle.std.specs.Prelude.{◌≡◌, ◌≤◌, ◌++◌, ◌^◌, ℕ, true, false, IfSome, IsTrue};
ghost use Rattle.core.specs.Float.{float_with_sign};
ghost use lib.Ieee.{round};
ghost use Rattle.ufmt_core.specs.FloatText.{float_text};
ghost use Rattle.ufmt_float.specs.Shortest.{IsAboveZero, IsShortestDecimal};
ghost use Rattle.ufmt_parse_leaves.specs.Values.{IsFloatOf};
ghost use Rattle.ufmt_parse_leaves.specs.Private.FloatBytes.{float_len};
ghost use Rattle.ufmt_parse_leaves.specs.Private.PlainDecimals.{IsPlainDecimal, IsPrintedAs};

use crate::fixed_point::split_fixed;
use crate::floats::{Float, is_float_byte};
use core::dec2flt::ten_to;
use ufmt_float::{Decimal, shortest};

// Whether no byte of a float's text is at the front.
#[inline(always)]
fn ends_float(input: &[u8]) -> bool
    ensures { IsTrue result → float_len input.now ≡ 0 }
{
    match input.first() {
        None => true,
        Some(&byte) => !is_float_byte(byte),
    }
}

// Whether `digits / 10 ^ places` is above 0, and can be a text of `{:?}` as it is written: without an exponent, and with no zero at
// the end but one right after the point.
#[inline(always)]
fn is_plain(digits: u64, places: u64) -> bool
    ensures { IsTrue result → IsPlainDecimal digits places }
{
    0 < digits
        && digits < 100_000_000_000_000_000
        && 0 < places
        && places <= 19
        && (places <= 4 || ten_to(places - 4) <= digits)
        && (places == 1 || digits % 10 != 0)
}

// Whether the decimal is printed as `digits / 10 ^ places`: with no zero at the end, but for one after the point.
#[inline(always)]
fn is_decimal(decimal: Decimal, digits: u64, places: u64) -> bool
    requires { places ≤ 19 }
    ensures { IsTrue result → IsPrintedAs digits places decimal.digits decimal.power }
{
    if decimal.power > 415 {
        return false;
    }
    let end = decimal.power + places;
    if end == 400 {
        return digits == decimal.digits;
    }
    if places != 1 || end < 400 {
        return false;
    }
    digits as u128 == decimal.digits as u128 * ten_to(end - 400) as u128
}

// Whether `{:?}` prints the float nearest to `digits / 10 ^ places` with these digits. It does if they are fewer than its significand
// has: no two such decimals with as many places have one nearest float.
#[inline(always)]
fn is_printed<F: Float>(nearest: F, digits: u64, places: u64) -> bool
    requires plain { IsPlainDecimal digits places }
    requires above { IsAboveZero (F.value nearest) × (float_with_sign false (F.value nearest) ≡ F.value nearest) }
    requires nearest { F.value nearest ≡ round F.format false digits (10 ^ places) }
    ensures { IsTrue result → (left : ℕ) × (power : ℕ) × IsShortestDecimal F.format (float_with_sign false (F.value nearest)) left power
        × IsPrintedAs digits places left power }
{
    if digits < F::HIDDEN {
        nearest.prove_float();
        return true;
    }
    match shortest(nearest) {
        None => false,
        Some(decimal) => is_decimal(decimal, digits, places),
    }
}

// The float whose text is at the front, and what follows it. It finds those whose text has a point and no exponent, but 0, and is
// quicker than reading the text and printing the float, since it does neither.
pub(crate) fn split_plain<F: Float>(input: &[u8]) -> Option<(F, &[u8])>
    ensures { IfSome result (λ x. IsFloatOf F.format (F.value x.0)
        × (input.now ≡ float_text F.format true (F.value x.0) ++ x.1.now) × (float_len x.1.now ≡ 0)) }
{
    let ((number, places), after) = split_fixed(input)?;
    let digits = number.unsigned_abs();
    let places = places as u64;
    if !is_plain(digits, places) || !ends_float(after) {
        return None;
    }
    let size = F::nearest(digits, places)?;
    if !is_printed(size, digits, places) {
        return None;
    }
    let negative = number.is_negative();
    let value = if negative { size.negated() } else { size };
    value.prove_float();
    Some((value, after))
}
