//! Floats.
ghost use Rattle.std.specs.Prelude.{⊤};
ghost use Rattle.ufmt_parse.specs.Places.{IsPiece};
ghost use Rattle.ufmt_parse.specs.declared.expected.Expected.TheVariants.{Number};
ghost use Rattle.ufmt_parse_leaves.specs.Values.{is_f32, is_f64};

use crate::uparse::uParse;
use ufmt_parse_leaves::floats::{Float, parse_float};
use ufmt_parser::mode::ParseMode;
use ufmt_parser::parser::{Fault, Parser};

impl<A: Copy> uParse<A> for f32 {
    ghost is_value = { is_f32 };

    ghost holds_no_memory = { ⊤ };

    ghost stops = { IsPiece Number };

    fn prove_value(&self) {
        Float::prove_float(*self)
    }

    fn parse_from<M: ParseMode>(_alloc: A, parser: &mut Parser<'_, M>) -> Result<f32, Fault> {
        parse_float::<f32, M>(parser)
    }
}

impl<A: Copy> uParse<A> for f64 {
    ghost is_value = { is_f64 };

    ghost holds_no_memory = { ⊤ };

    ghost stops = { IsPiece Number };

    fn prove_value(&self) {
        Float::prove_float(*self)
    }

    fn parse_from<M: ParseMode>(_alloc: A, parser: &mut Parser<'_, M>) -> Result<f64, Fault> {
        parse_float::<f64, M>(parser)
    }
}
