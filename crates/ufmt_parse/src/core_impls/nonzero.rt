#![tactic(auto, using(crate::proofs::NonZeroTexts::natural_texts))]

//! Nonzero numbers, which print as the numbers in them.
ghost use Rattle.std.specs.Prelude.{◌≡◌, ◌≢◌, ◌≤◌, ◌+◌, ⊤, ℕ, List, length, IfOk, IfErr, IsErrOf, MatchOption};
ghost use Rattle.std.specs.Int.NonZero.{non_zero_u8_get, non_zero_u16_get, non_zero_u32_get, non_zero_u64_get, non_zero_u128_get, non_zero_usize_get, non_zero_i8_get, non_zero_i16_get, non_zero_i32_get, non_zero_i64_get, non_zero_i128_get, non_zero_isize_get};
ghost use Rattle.ufmt.specs.Layout.{layout};
ghost use Rattle.ufmt_core.specs.declared.layout.Setting.{Setting};
ghost use Rattle.ufmt_parse.specs.Expecting.{expected_of};
ghost use Rattle.ufmt_parse.specs.Places.{IsPiece};
ghost use Rattle.ufmt_parse.specs.declared.expected.Expected.TheVariants.{Number};
ghost use Rattle.ufmt_parser.specs.Needs.{need};
ghost use Rattle.ufmt_parser.specs.Next.{IsNotNext, NextLeaves};
ghost use Rattle.ufmt_parser.specs.Taking.{IsTaken, open_blocks, rest};
ghost use Rattle.ufmt_parse_leaves.specs.Values.{is_non_zero_u8, is_non_zero_u16, is_non_zero_u32, is_non_zero_u64, is_non_zero_u128, is_non_zero_usize, is_non_zero_i8, is_non_zero_i16, is_non_zero_i32, is_non_zero_i64, is_non_zero_i128, is_non_zero_isize};

use crate::uparse::uParse;
use std::num::{
    NonZeroI8, NonZeroI16, NonZeroI32, NonZeroI64, NonZeroI128, NonZeroIsize, NonZeroU8,
    NonZeroU16, NonZeroU32, NonZeroU64, NonZeroU128, NonZeroUsize,
};
use ufmt::uDebug;
use ufmt_parser::detail::Detail;
use ufmt_parser::mode::ParseMode;
use ufmt_parser::need::Need;
use ufmt_parser::parser::{Fault, Parser};

// A number type without its 0.
trait NonZero<A, N: uParse<A>>: uDebug + Drop {
    ghost in_range: { Self → Type 0 };

    // The number in it.
    ghost get: { Self → N };

    // The nonzero number, if the number isn't 0. Each nonzero number has another text than 0.
    fn from_number(number: N) -> Option<Self>
    where
        Self: Sized,
        ensures { MatchOption result
            ((s : Setting) (v : Self) → in_range v → layout s (Self.document v) ≢ layout s (N.document number))
            (λ v. Self.document v ≡ N.document number) };

    // Shows that it prints as the number in it, and that a text may stop fitting where it begins.
    fn prove_number()
        ensures number { (v : Self) → in_range v
            → N.is_value (get v) × (Self.document v ≡ N.document (get v)) }
        ensures stops { (text : List ℕ) → N.stops text 0 Number };
}

// The nonzero number at the front. At a 0 the parser stays.
#[inline(always)]
fn parse_non_zero<A, N: uParse<A>, T: NonZero<A, N>, M: ParseMode>(
    alloc: A,
    parser: &mut Parser<'_, M>,
) -> Result<T, Fault>
    ensures taken { IfOk result (λ v. IsTaken M.mode parser.old (T.document v) parser.new) }
    ensures only { IfOk result (λ _. (v : T) → T.in_range v
        → NextLeaves M.mode parser.old (T.document v) parser.new) }
    ensures none { IfErr result (λ fault. fault ≡ Fault.NotText → (v : T) → T.in_range v
        → IsNotNext M.mode parser.old (T.document v)) }
    ensures memory { N.holds_no_memory → IfErr result (λ fault. fault ≡ Fault.NotText) }
    ensures stops { (at : ℕ) → IsErrOf result Fault.NotText
        → length (rest parser.new) + at ≡ length (rest parser.old)
        → N.stops (rest parser.old) at (expected_of (need parser.new)) }
    ensures blocks { IfOk result (λ _. open_blocks parser.new ≡ open_blocks parser.old) }
    ensures shrinks { length (rest parser.new) ≤ length (rest parser.old) }
{
    T::prove_number();
    let before = parser.rest();
    let number = tri!(N::parse_from(alloc, parser));
    match T::from_number(number) {
        None => {
            parser.skip_to(before);
            Err(parser.refuse_in_detail(Need::Number, Detail::NonZero))
        }
        Some(value) => Ok(value),
    }
}

impl<A: Copy> NonZero<A, u8> for NonZeroU8 {
    ghost in_range = { is_non_zero_u8 };

    ghost get = { non_zero_u8_get };

    #[inline(always)]
    fn from_number(number: u8) -> Option<NonZeroU8> {
        NonZeroU8::new(number)
    }

    fn prove_number() {}
}

impl<A: Copy> uParse<A> for NonZeroU8 {
    ghost is_value = { is_non_zero_u8 };

    ghost holds_no_memory = { ⊤ };

    ghost stops = { IsPiece Number };

    fn prove_value(&self) {
        let _number = self.get();
    }

    fn parse_from<M: ParseMode>(alloc: A, parser: &mut Parser<'_, M>) -> Result<NonZeroU8, Fault> {
        parse_non_zero::<A, u8, NonZeroU8, M>(alloc, parser)
    }
}

impl<A: Copy> NonZero<A, u16> for NonZeroU16 {
    ghost in_range = { is_non_zero_u16 };

    ghost get = { non_zero_u16_get };

    #[inline(always)]
    fn from_number(number: u16) -> Option<NonZeroU16> {
        NonZeroU16::new(number)
    }

    fn prove_number() {}
}

impl<A: Copy> uParse<A> for NonZeroU16 {
    ghost is_value = { is_non_zero_u16 };

    ghost holds_no_memory = { ⊤ };

    ghost stops = { IsPiece Number };

    fn prove_value(&self) {
        let _number = self.get();
    }

    fn parse_from<M: ParseMode>(alloc: A, parser: &mut Parser<'_, M>) -> Result<NonZeroU16, Fault> {
        parse_non_zero::<A, u16, NonZeroU16, M>(alloc, parser)
    }
}

impl<A: Copy> NonZero<A, u32> for NonZeroU32 {
    ghost in_range = { is_non_zero_u32 };

    ghost get = { non_zero_u32_get };

    #[inline(always)]
    fn from_number(number: u32) -> Option<NonZeroU32> {
        NonZeroU32::new(number)
    }

    fn prove_number() {}
}

impl<A: Copy> uParse<A> for NonZeroU32 {
    ghost is_value = { is_non_zero_u32 };

    ghost holds_no_memory = { ⊤ };

    ghost stops = { IsPiece Number };

    fn prove_value(&self) {
        let _number = self.get();
    }

    fn parse_from<M: ParseMode>(alloc: A, parser: &mut Parser<'_, M>) -> Result<NonZeroU32, Fault> {
        parse_non_zero::<A, u32, NonZeroU32, M>(alloc, parser)
    }
}

impl<A: Copy> NonZero<A, u64> for NonZeroU64 {
    ghost in_range = { is_non_zero_u64 };

    ghost get = { non_zero_u64_get };

    #[inline(always)]
    fn from_number(number: u64) -> Option<NonZeroU64> {
        NonZeroU64::new(number)
    }

    fn prove_number() {}
}

impl<A: Copy> uParse<A> for NonZeroU64 {
    ghost is_value = { is_non_zero_u64 };

    ghost holds_no_memory = { ⊤ };

    ghost stops = { IsPiece Number };

    fn prove_value(&self) {
        let _number = self.get();
    }

    fn parse_from<M: ParseMode>(alloc: A, parser: &mut Parser<'_, M>) -> Result<NonZeroU64, Fault> {
        parse_non_zero::<A, u64, NonZeroU64, M>(alloc, parser)
    }
}

impl<A: Copy> NonZero<A, u128> for NonZeroU128 {
    ghost in_range = { is_non_zero_u128 };

    ghost get = { non_zero_u128_get };

    #[inline(always)]
    fn from_number(number: u128) -> Option<NonZeroU128> {
        NonZeroU128::new(number)
    }

    fn prove_number() {}
}

impl<A: Copy> uParse<A> for NonZeroU128 {
    ghost is_value = { is_non_zero_u128 };

    ghost holds_no_memory = { ⊤ };

    ghost stops = { IsPiece Number };

    fn prove_value(&self) {
        let _number = self.get();
    }

    fn parse_from<M: ParseMode>(
        alloc: A,
        parser: &mut Parser<'_, M>,
    ) -> Result<NonZeroU128, Fault> {
        parse_non_zero::<A, u128, NonZeroU128, M>(alloc, parser)
    }
}

impl<A: Copy> NonZero<A, usize> for NonZeroUsize {
    ghost in_range = { is_non_zero_usize };

    ghost get = { non_zero_usize_get };

    #[inline(always)]
    fn from_number(number: usize) -> Option<NonZeroUsize> {
        NonZeroUsize::new(number)
    }

    fn prove_number() {}
}

impl<A: Copy> uParse<A> for NonZeroUsize {
    ghost is_value = { is_non_zero_usize };

    ghost holds_no_memory = { ⊤ };

    ghost stops = { IsPiece Number };

    fn prove_value(&self) {
        let _number = self.get();
    }

    fn parse_from<M: ParseMode>(
        alloc: A,
        parser: &mut Parser<'_, M>,
    ) -> Result<NonZeroUsize, Fault> {
        parse_non_zero::<A, usize, NonZeroUsize, M>(alloc, parser)
    }
}

impl<A: Copy> NonZero<A, i8> for NonZeroI8 {
    ghost in_range = { is_non_zero_i8 };

    ghost get = { non_zero_i8_get };

    #[inline(always)]
    fn from_number(number: i8) -> Option<NonZeroI8> {
        NonZeroI8::new(number)
    }

    fn prove_number() {}
}

impl<A: Copy> uParse<A> for NonZeroI8 {
    ghost is_value = { is_non_zero_i8 };

    ghost holds_no_memory = { ⊤ };

    ghost stops = { IsPiece Number };

    fn prove_value(&self) {
        let _number = self.get();
    }

    fn parse_from<M: ParseMode>(alloc: A, parser: &mut Parser<'_, M>) -> Result<NonZeroI8, Fault> {
        parse_non_zero::<A, i8, NonZeroI8, M>(alloc, parser)
    }
}

impl<A: Copy> NonZero<A, i16> for NonZeroI16 {
    ghost in_range = { is_non_zero_i16 };

    ghost get = { non_zero_i16_get };

    #[inline(always)]
    fn from_number(number: i16) -> Option<NonZeroI16> {
        NonZeroI16::new(number)
    }

    fn prove_number() {}
}

impl<A: Copy> uParse<A> for NonZeroI16 {
    ghost is_value = { is_non_zero_i16 };

    ghost holds_no_memory = { ⊤ };

    ghost stops = { IsPiece Number };

    fn prove_value(&self) {
        let _number = self.get();
    }

    fn parse_from<M: ParseMode>(alloc: A, parser: &mut Parser<'_, M>) -> Result<NonZeroI16, Fault> {
        parse_non_zero::<A, i16, NonZeroI16, M>(alloc, parser)
    }
}

impl<A: Copy> NonZero<A, i32> for NonZeroI32 {
    ghost in_range = { is_non_zero_i32 };

    ghost get = { non_zero_i32_get };

    #[inline(always)]
    fn from_number(number: i32) -> Option<NonZeroI32> {
        NonZeroI32::new(number)
    }

    fn prove_number() {}
}

impl<A: Copy> uParse<A> for NonZeroI32 {
    ghost is_value = { is_non_zero_i32 };

    ghost holds_no_memory = { ⊤ };

    ghost stops = { IsPiece Number };

    fn prove_value(&self) {
        let _number = self.get();
    }

    fn parse_from<M: ParseMode>(alloc: A, parser: &mut Parser<'_, M>) -> Result<NonZeroI32, Fault> {
        parse_non_zero::<A, i32, NonZeroI32, M>(alloc, parser)
    }
}

impl<A: Copy> NonZero<A, i64> for NonZeroI64 {
    ghost in_range = { is_non_zero_i64 };

    ghost get = { non_zero_i64_get };

    #[inline(always)]
    fn from_number(number: i64) -> Option<NonZeroI64> {
        NonZeroI64::new(number)
    }

    fn prove_number() {}
}

impl<A: Copy> uParse<A> for NonZeroI64 {
    ghost is_value = { is_non_zero_i64 };

    ghost holds_no_memory = { ⊤ };

    ghost stops = { IsPiece Number };

    fn prove_value(&self) {
        let _number = self.get();
    }

    fn parse_from<M: ParseMode>(alloc: A, parser: &mut Parser<'_, M>) -> Result<NonZeroI64, Fault> {
        parse_non_zero::<A, i64, NonZeroI64, M>(alloc, parser)
    }
}

impl<A: Copy> NonZero<A, i128> for NonZeroI128 {
    ghost in_range = { is_non_zero_i128 };

    ghost get = { non_zero_i128_get };

    #[inline(always)]
    fn from_number(number: i128) -> Option<NonZeroI128> {
        NonZeroI128::new(number)
    }

    fn prove_number() {}
}

impl<A: Copy> uParse<A> for NonZeroI128 {
    ghost is_value = { is_non_zero_i128 };

    ghost holds_no_memory = { ⊤ };

    ghost stops = { IsPiece Number };

    fn prove_value(&self) {
        let _number = self.get();
    }

    fn parse_from<M: ParseMode>(
        alloc: A,
        parser: &mut Parser<'_, M>,
    ) -> Result<NonZeroI128, Fault> {
        parse_non_zero::<A, i128, NonZeroI128, M>(alloc, parser)
    }
}

impl<A: Copy> NonZero<A, isize> for NonZeroIsize {
    ghost in_range = { is_non_zero_isize };

    ghost get = { non_zero_isize_get };

    #[inline(always)]
    fn from_number(number: isize) -> Option<NonZeroIsize> {
        NonZeroIsize::new(number)
    }

    fn prove_number() {}
}

impl<A: Copy> uParse<A> for NonZeroIsize {
    ghost is_value = { is_non_zero_isize };

    ghost holds_no_memory = { ⊤ };

    ghost stops = { IsPiece Number };

    fn prove_value(&self) {
        let _number = self.get();
    }

    fn parse_from<M: ParseMode>(
        alloc: A,
        parser: &mut Parser<'_, M>,
    ) -> Result<NonZeroIsize, Fault> {
        parse_non_zero::<A, isize, NonZeroIsize, M>(alloc, parser)
    }
}
