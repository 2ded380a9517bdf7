//! Integers.
ghost use Rattle.std.specs.Prelude.{⊤};
ghost use Rattle.ufmt_parse.specs.Places.{IsPiece};
ghost use Rattle.ufmt_parse.specs.declared.expected.Expected.TheVariants.{Number};
ghost use Rattle.ufmt_parse_leaves.specs.Values.{is_u8, is_u16, is_u32, is_u64, is_u128, is_usize, is_i8, is_i16, is_i32, is_i64, is_i128, is_isize};

use crate::uparse::uParse;
use ufmt_parse_leaves::integers::parse_integer;
use ufmt_parser::mode::ParseMode;
use ufmt_parser::parser::{Fault, Parser};

impl<A: Copy> uParse<A> for u8 {
    ghost is_value = { is_u8 };

    ghost holds_no_memory = { ⊤ };

    ghost stops = { IsPiece Number };

    fn prove_value(&self) {
        let _n = *self;
    }

    #[inline(always)]
    fn parse_from<M: ParseMode>(_alloc: A, parser: &mut Parser<'_, M>) -> Result<u8, Fault> {
        parse_integer::<u64, u8, M>(parser, false)
    }
}

impl<A: Copy> uParse<A> for u16 {
    ghost is_value = { is_u16 };

    ghost holds_no_memory = { ⊤ };

    ghost stops = { IsPiece Number };

    fn prove_value(&self) {
        let _n = *self;
    }

    #[inline(always)]
    fn parse_from<M: ParseMode>(_alloc: A, parser: &mut Parser<'_, M>) -> Result<u16, Fault> {
        parse_integer::<u64, u16, M>(parser, false)
    }
}

impl<A: Copy> uParse<A> for u32 {
    ghost is_value = { is_u32 };

    ghost holds_no_memory = { ⊤ };

    ghost stops = { IsPiece Number };

    fn prove_value(&self) {
        let _n = *self;
    }

    #[inline(always)]
    fn parse_from<M: ParseMode>(_alloc: A, parser: &mut Parser<'_, M>) -> Result<u32, Fault> {
        parse_integer::<u64, u32, M>(parser, false)
    }
}

impl<A: Copy> uParse<A> for u64 {
    ghost is_value = { is_u64 };

    ghost holds_no_memory = { ⊤ };

    ghost stops = { IsPiece Number };

    fn prove_value(&self) {
        let _n = *self;
    }

    #[inline(always)]
    fn parse_from<M: ParseMode>(_alloc: A, parser: &mut Parser<'_, M>) -> Result<u64, Fault> {
        parse_integer::<u64, u64, M>(parser, true)
    }
}

impl<A: Copy> uParse<A> for usize {
    ghost is_value = { is_usize };

    ghost holds_no_memory = { ⊤ };

    ghost stops = { IsPiece Number };

    fn prove_value(&self) {
        let _n = *self;
    }

    #[inline(always)]
    fn parse_from<M: ParseMode>(_alloc: A, parser: &mut Parser<'_, M>) -> Result<usize, Fault> {
        parse_integer::<u64, usize, M>(parser, true)
    }
}

impl<A: Copy> uParse<A> for u128 {
    ghost is_value = { is_u128 };

    ghost holds_no_memory = { ⊤ };

    ghost stops = { IsPiece Number };

    fn prove_value(&self) {
        let _n = *self;
    }

    #[inline(always)]
    fn parse_from<M: ParseMode>(_alloc: A, parser: &mut Parser<'_, M>) -> Result<u128, Fault> {
        parse_integer::<u128, u128, M>(parser, true)
    }
}

impl<A: Copy> uParse<A> for i8 {
    ghost is_value = { is_i8 };

    ghost holds_no_memory = { ⊤ };

    ghost stops = { IsPiece Number };

    fn prove_value(&self) {
        let _n = *self;
    }

    #[inline(always)]
    fn parse_from<M: ParseMode>(_alloc: A, parser: &mut Parser<'_, M>) -> Result<i8, Fault> {
        parse_integer::<u64, i8, M>(parser, false)
    }
}

impl<A: Copy> uParse<A> for i16 {
    ghost is_value = { is_i16 };

    ghost holds_no_memory = { ⊤ };

    ghost stops = { IsPiece Number };

    fn prove_value(&self) {
        let _n = *self;
    }

    #[inline(always)]
    fn parse_from<M: ParseMode>(_alloc: A, parser: &mut Parser<'_, M>) -> Result<i16, Fault> {
        parse_integer::<u64, i16, M>(parser, false)
    }
}

impl<A: Copy> uParse<A> for i32 {
    ghost is_value = { is_i32 };

    ghost holds_no_memory = { ⊤ };

    ghost stops = { IsPiece Number };

    fn prove_value(&self) {
        let _n = *self;
    }

    #[inline(always)]
    fn parse_from<M: ParseMode>(_alloc: A, parser: &mut Parser<'_, M>) -> Result<i32, Fault> {
        parse_integer::<u64, i32, M>(parser, false)
    }
}

impl<A: Copy> uParse<A> for i64 {
    ghost is_value = { is_i64 };

    ghost holds_no_memory = { ⊤ };

    ghost stops = { IsPiece Number };

    fn prove_value(&self) {
        let _n = *self;
    }

    #[inline(always)]
    fn parse_from<M: ParseMode>(_alloc: A, parser: &mut Parser<'_, M>) -> Result<i64, Fault> {
        parse_integer::<u64, i64, M>(parser, true)
    }
}

impl<A: Copy> uParse<A> for isize {
    ghost is_value = { is_isize };

    ghost holds_no_memory = { ⊤ };

    ghost stops = { IsPiece Number };

    fn prove_value(&self) {
        let _n = *self;
    }

    #[inline(always)]
    fn parse_from<M: ParseMode>(_alloc: A, parser: &mut Parser<'_, M>) -> Result<isize, Fault> {
        parse_integer::<u64, isize, M>(parser, true)
    }
}

impl<A: Copy> uParse<A> for i128 {
    ghost is_value = { is_i128 };

    ghost holds_no_memory = { ⊤ };

    ghost stops = { IsPiece Number };

    fn prove_value(&self) {
        let _n = *self;
    }

    #[inline(always)]
    fn parse_from<M: ParseMode>(_alloc: A, parser: &mut Parser<'_, M>) -> Result<i128, Fault> {
        parse_integer::<u128, i128, M>(parser, true)
    }
}
