//! Integers: decimal digits with no zero before them, after `-` if the number is negative.
ghost use Rattle.std.specs.Prelude.{◌≡◌, ◌<◌, ◌≤◌, ◌≤ℤ◌, length, List, ℕ, ℤ, pos, negsuc, nat_abs, false, IfOk, IfErr, IsErrOf, MatchOption};
ghost use Rattle.ufmt_core.specs.Decimal.{decimal};
ghost use Rattle.ufmt_core.specs.Document.{leaf};
ghost use Rattle.ufmt_parser.specs.Needs.{need};
ghost use Rattle.ufmt_parser.specs.Next.{IsNotNext, NextLeaves};
ghost use Rattle.ufmt_parse_leaves.specs.Private.Digits.{IsSigned, SplitsSign, range_text};
ghost use Rattle.ufmt_parser.specs.Taking.{IsTaken, open_blocks, rest};
ghost use Rattle.ufmt_parse_leaves.specs.Values.{is_u8, is_u16, is_u32, is_u64, is_u128, is_usize, is_i8, is_i16, is_i32, is_i64, is_i128, is_isize};

use crate::digits::{Magnitude, split_magnitude, split_minus};
use ufmt_parser::detail::Detail;
use ufmt_parser::mode::ParseMode;
use ufmt_parser::need::Need;
use ufmt_parser::parser::{Fault, Parser};

/// An integer type, whose magnitudes `N` can hold.
pub trait Integer<N: Magnitude> {
    ghost int: { Self → ℤ };

    ghost in_range: { Self → Type 0 };

    // The integer with this sign and magnitude, if it is one of the type. 0 has no `-`.
    fn from_magnitude(negative: bool, magnitude: N) -> Option<Self>
    where
        Self: Sized,
        ensures { MatchOption result
            ((v : Self) → in_range v → IsSigned negative (N.value magnitude) (int v) → ⊥)
            (λ v. in_range v × IsSigned negative (N.value magnitude) (int v)) };

    // Whether there are integers below 0.
    #[inline(always)]
    fn is_signed() -> bool
        ensures { result ≡ false → (v : Self) → int v ≡ pos (nat_abs (int v)) }
    {
        true
    }

    // The least and the greatest integer of the type.
    ghost least: { ℤ };

    ghost greatest: { ℤ };

    // The text of the range of the type, such as `0 to 255`.
    fn range() -> &'static str
        ensures text { result.now ≡ range_text least greatest }
        ensures bounds { (v : Self) → in_range v → (least ≤ℤ int v) × (int v ≤ℤ greatest) }
        ensures all { (v : Self) → least ≤ℤ int v → int v ≤ℤ greatest → in_range v };

    // Shows that `N` holds the magnitudes of this type.
    fn prove_fits()
        ensures { (v : Self) → in_range v → nat_abs (int v) < N.bound };
}

impl Integer<u64> for u8 {
    ghost int = { λ v. pos v };

    ghost in_range = { is_u8 };

    ghost least = { pos 0 };

    ghost greatest = { pos 255 };

    #[inline(always)]
    fn from_magnitude(negative: bool, magnitude: u64) -> Option<u8> {
        if negative {
            None
        } else {
            u8::try_from(magnitude).ok()
        }
    }

    #[inline(always)]
    fn is_signed() -> bool {
        false
    }

    #[tactic(auto, using(crate::proofs::RangeTexts::range_texts))]
    fn range() -> &'static str {
        "0 to 255"
    }

    fn prove_fits() {}
}

impl Integer<u64> for u16 {
    ghost int = { λ v. pos v };

    ghost in_range = { is_u16 };

    ghost least = { pos 0 };

    ghost greatest = { pos 65535 };

    #[inline(always)]
    fn from_magnitude(negative: bool, magnitude: u64) -> Option<u16> {
        if negative {
            None
        } else {
            u16::try_from(magnitude).ok()
        }
    }

    #[inline(always)]
    fn is_signed() -> bool {
        false
    }

    #[tactic(auto, using(crate::proofs::RangeTexts::range_texts))]
    fn range() -> &'static str {
        "0 to 65535"
    }

    fn prove_fits() {}
}

impl Integer<u64> for u32 {
    ghost int = { λ v. pos v };

    ghost in_range = { is_u32 };

    ghost least = { pos 0 };

    ghost greatest = { pos 4294967295 };

    #[inline(always)]
    fn from_magnitude(negative: bool, magnitude: u64) -> Option<u32> {
        if negative {
            None
        } else {
            u32::try_from(magnitude).ok()
        }
    }

    #[inline(always)]
    fn is_signed() -> bool {
        false
    }

    #[tactic(auto, using(crate::proofs::RangeTexts::range_texts))]
    fn range() -> &'static str {
        "0 to 4294967295"
    }

    fn prove_fits() {}
}

impl Integer<u64> for u64 {
    ghost int = { λ v. pos v };

    ghost in_range = { is_u64 };

    ghost least = { pos 0 };

    ghost greatest = { pos 18446744073709551615 };

    #[inline(always)]
    fn from_magnitude(negative: bool, magnitude: u64) -> Option<u64> {
        if negative { None } else { Some(magnitude) }
    }

    #[inline(always)]
    fn is_signed() -> bool {
        false
    }

    #[tactic(auto, using(crate::proofs::RangeTexts::range_texts))]
    fn range() -> &'static str {
        "0 to 18446744073709551615"
    }

    fn prove_fits() {}
}

impl Integer<u64> for usize {
    ghost int = { λ v. pos v };

    ghost in_range = { is_usize };

    ghost least = { pos 0 };

    ghost greatest = { pos 18446744073709551615 };

    #[inline(always)]
    fn from_magnitude(negative: bool, magnitude: u64) -> Option<usize> {
        if negative {
            None
        } else {
            usize::try_from(magnitude).ok()
        }
    }

    #[inline(always)]
    fn is_signed() -> bool {
        false
    }

    #[tactic(auto, using(crate::proofs::RangeTexts::range_texts))]
    fn range() -> &'static str {
        "0 to 18446744073709551615"
    }

    fn prove_fits() {}
}

impl Integer<u128> for u128 {
    ghost int = { λ v. pos v };

    ghost in_range = { is_u128 };

    ghost least = { pos 0 };

    ghost greatest = { pos 340282366920938463463374607431768211455 };

    #[inline(always)]
    fn from_magnitude(negative: bool, magnitude: u128) -> Option<u128> {
        if negative { None } else { Some(magnitude) }
    }

    #[inline(always)]
    fn is_signed() -> bool {
        false
    }

    #[tactic(auto, using(crate::proofs::RangeTexts::range_texts))]
    fn range() -> &'static str {
        "0 to 340282366920938463463374607431768211455"
    }

    fn prove_fits() {}
}

impl Integer<u64> for i8 {
    ghost int = { λ v. v };

    ghost in_range = { is_i8 };

    ghost least = { negsuc 127 };

    ghost greatest = { pos 127 };

    #[inline(always)]
    fn from_magnitude(negative: bool, magnitude: u64) -> Option<i8> {
        i8::try_from(i64::from_magnitude(negative, magnitude)?).ok()
    }

    #[tactic(auto, using(crate::proofs::RangeTexts::range_texts))]
    fn range() -> &'static str {
        "-128 to 127"
    }

    fn prove_fits() {}
}

impl Integer<u64> for i16 {
    ghost int = { λ v. v };

    ghost in_range = { is_i16 };

    ghost least = { negsuc 32767 };

    ghost greatest = { pos 32767 };

    #[inline(always)]
    fn from_magnitude(negative: bool, magnitude: u64) -> Option<i16> {
        i16::try_from(i64::from_magnitude(negative, magnitude)?).ok()
    }

    #[tactic(auto, using(crate::proofs::RangeTexts::range_texts))]
    fn range() -> &'static str {
        "-32768 to 32767"
    }

    fn prove_fits() {}
}

impl Integer<u64> for i32 {
    ghost int = { λ v. v };

    ghost in_range = { is_i32 };

    ghost least = { negsuc 2147483647 };

    ghost greatest = { pos 2147483647 };

    #[inline(always)]
    fn from_magnitude(negative: bool, magnitude: u64) -> Option<i32> {
        i32::try_from(i64::from_magnitude(negative, magnitude)?).ok()
    }

    #[tactic(auto, using(crate::proofs::RangeTexts::range_texts))]
    fn range() -> &'static str {
        "-2147483648 to 2147483647"
    }

    fn prove_fits() {}
}

impl Integer<u64> for i64 {
    ghost int = { λ v. v };

    ghost in_range = { is_i64 };

    ghost least = { negsuc 9223372036854775807 };

    ghost greatest = { pos 9223372036854775807 };

    #[inline(always)]
    fn from_magnitude(negative: bool, magnitude: u64) -> Option<i64> {
        if !negative {
            return i64::try_from(magnitude).ok();
        }
        let before = i64::try_from(magnitude.checked_sub(1)?).ok()?;
        Some(-1 - before)
    }

    #[tactic(auto, using(crate::proofs::RangeTexts::range_texts))]
    fn range() -> &'static str {
        "-9223372036854775808 to 9223372036854775807"
    }

    fn prove_fits() {}
}

impl Integer<u64> for isize {
    ghost int = { λ v. v };

    ghost in_range = { is_isize };

    ghost least = { negsuc 9223372036854775807 };

    ghost greatest = { pos 9223372036854775807 };

    #[inline(always)]
    fn from_magnitude(negative: bool, magnitude: u64) -> Option<isize> {
        isize::try_from(i64::from_magnitude(negative, magnitude)?).ok()
    }

    #[tactic(auto, using(crate::proofs::RangeTexts::range_texts))]
    fn range() -> &'static str {
        "-9223372036854775808 to 9223372036854775807"
    }

    fn prove_fits() {}
}

impl Integer<u128> for i128 {
    ghost int = { λ v. v };

    ghost in_range = { is_i128 };

    ghost least = { negsuc 170141183460469231731687303715884105727 };

    ghost greatest = { pos 170141183460469231731687303715884105727 };

    #[inline(always)]
    fn from_magnitude(negative: bool, magnitude: u128) -> Option<i128> {
        if !negative {
            return i128::try_from(magnitude).ok();
        }
        let before = i128::try_from(magnitude.checked_sub(1)?).ok()?;
        Some(-1 - before)
    }

    #[tactic(auto, using(crate::proofs::RangeTexts::range_texts))]
    fn range() -> &'static str {
        "-170141183460469231731687303715884105728 to 170141183460469231731687303715884105727"
    }

    fn prove_fits() {}
}

// Whether the integer at the front is negative, and what follows its sign.
#[inline(always)]
#[tactic(auto, using(crate::proofs::IntegerFronts::splits_none))]
fn split_sign<N: Magnitude, T: Integer<N>>(input: &[u8]) -> (bool, &[u8])
    ensures { SplitsSign T.int input.now result.0 result.1.now }
{
    if T::is_signed() {
        split_minus(input)
    } else {
        (false, input)
    }
}

// Refuses what isn't in the range of the type.
#[inline(always)]
fn refuse_outside<N: Magnitude, T: Integer<N>, M: ParseMode>(parser: &mut Parser<'_, M>) -> Fault
    ensures fault { result ≡ Fault.NotText }
    ensures needs { need parser.new ≡ Need.Number }
    ensures rest { rest parser.new ≡ rest parser.old }
    ensures blocks { open_blocks parser.new ≡ open_blocks parser.old }
{
    parser.refuse_in_detail(Need::Number, Detail::Range(T::range()))
}

/// The integer at the front. One of more than ten digits is fast only if `is_long` says that it may come.
#[inline(always)]
pub fn parse_integer<N: Magnitude, T: Integer<N>, M: ParseMode>(
    parser: &mut Parser<'_, M>,
    is_long: bool,
) -> Result<T, Fault>
    ensures taken { IfOk result (λ v. IsTaken M.mode parser.old (leaf (decimal (T.int v))) parser.new) }
    ensures only { IfOk result (λ _. (v : T) → T.in_range v
        → NextLeaves M.mode parser.old (leaf (decimal (T.int v))) parser.new) }
    ensures none { IfErr result (λ fault. fault ≡ Fault.NotText → (v : T) → T.in_range v
        → IsNotNext M.mode parser.old (leaf (decimal (T.int v)))) }
    ensures stays { IsErrOf result Fault.NotText
        → (rest parser.new ≡ rest parser.old) × (need parser.new ≡ Need.Number) }
    ensures memory { IfErr result (λ fault. fault ≡ Fault.NotText) }
    ensures blocks { IfOk result (λ _. open_blocks parser.new ≡ open_blocks parser.old) }
    ensures shrinks { length (rest parser.new) ≤ length (rest parser.old) }
{
    let (negative, digits) = split_sign::<N, T>(parser.rest());
    match split_magnitude::<N>(digits, is_long) {
        None => {
            T::prove_fits();
            Err(refuse_outside::<N, T, M>(parser))
        }
        Some(front) => match T::from_magnitude(negative, front.0) {
            None => Err(refuse_outside::<N, T, M>(parser)),
            Some(value) => {
                parser.skip_to(front.1);
                Ok(value)
            }
        },
    }
}
