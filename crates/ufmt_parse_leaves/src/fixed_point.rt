//! Fixed-point numbers, exactly as `{:?}` prints them.
ghost use Rattle.std.specs.Prelude.{◌≡◌, ◌<◌, ◌≤◌, ◌^◌, ◌++◌, MatchOption, codes};
ghost use Rattle.ufmt_parse_leaves.specs.FixedPoint.{fixed_number, is_fixed};
ghost use Rattle.ufmt_parse_leaves.specs.Private.Places.{CompletesNone, CompletesOne};
ghost use Rattle.ufmt_parser.specs.Taking.{BeginsWithNone, LeavesOnly};

use crate::digits::{split_magnitude, split_minus, split_more};
use crate::integers::Integer;
use ufmt_scan::internal::strip_byte;

// So many digits after a point as places: there is one, and there aren't too many.
fn places_of(digits: usize) -> Option<u8>
    ensures { MatchOption result (0 < digits → 2 ^ 8 ≤ digits) (λ places. (places ≡ digits) × (0 < digits)) }
{
    if digits == 0 {
        return None;
    }
    u8::try_from(digits).ok()
}

// The number that the digits after a point complete, its places, and what follows them.
fn split_after_point(whole: u64, digits: &[u8]) -> Option<(u64, u8, &[u8])>
    ensures { MatchOption result (CompletesNone whole (codes "." ++ digits.now))
        (λ x. CompletesOne whole x.0 x.1 (codes "." ++ digits.now) x.2.now) }
{
    let (magnitude, rest) = split_more(whole, digits)?;
    let places = places_of(digits.len() - rest.len())?;
    Some((magnitude, places, rest))
}

// The same after the digits of the whole number: without a point it has no places.
fn split_places(whole: u64, input: &[u8]) -> Option<(u64, u8, &[u8])>
    ensures { MatchOption result (CompletesNone whole input.now)
        (λ x. CompletesOne whole x.0 x.1 input.now x.2.now) }
{
    match strip_byte(b'.', input) {
        None => Some((whole, 0, input)),
        Some(digits) => split_after_point(whole, digits),
    }
}

/// The fixed-point number at the front, as its value and how many digits come after its point, and what
/// follows it. Not taken are a zero before another digit of the whole number, `-` before a value of 0, and
/// a point with no digit after it.
pub fn split_fixed(input: &[u8]) -> Option<((i64, u8), &[u8])>
    ensures { MatchOption result (BeginsWithNone is_fixed fixed_number input.now)
        (λ x. is_fixed x.0 × (input.now ≡ fixed_number x.0 ++ x.1.now)
        × LeavesOnly is_fixed fixed_number input.now x.1.now) }
{
    let (negative, digits) = split_minus(input);
    let (whole, after) = split_magnitude::<u64>(digits, false)?;
    let (magnitude, places, rest) = split_places(whole, after)?;
    let value = i64::from_magnitude(negative, magnitude)?;
    Some(((value, places), rest))
}
