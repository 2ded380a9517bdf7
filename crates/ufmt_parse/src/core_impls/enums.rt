//! `Ordering`, `Bound` and `ControlFlow`.
ghost use Rattle.std.specs.Prelude.{⊤};
ghost use Rattle.std.specs.declared.ops.Bound.TheVariants.{Included, Excluded, Unbounded};
ghost use Rattle.std.specs.declared.ops.ControlFlow.TheVariants.{Continue, Break};
ghost use Rattle.ufmt_parse.specs.Places.{IsPiece};
ghost use Rattle.ufmt_parse.specs.declared.expected.Expected.TheVariants.{Name};

use crate::parse_variants;
use crate::uparse::uParse;
use std::cmp::Ordering;
use std::ops::{Bound, ControlFlow};
use ufmt_parser::mode::ParseMode;
use ufmt_parser::parser::{Fault, Parser};

impl<A: Copy> uParse<A> for Ordering {
    ghost is_value = { λ _. ⊤ };

    ghost holds_no_memory = { ⊤ };

    ghost stops = { IsPiece Name };

    fn prove_value(&self) {}

    fn parse_from<M: ParseMode>(alloc: A, parser: &mut Parser<'_, M>) -> Result<Ordering, Fault> {
        parse_variants!(
            alloc,
            parser,
            Ordering {
                Less,
                Equal,
                Greater
            }
        )
    }
}

impl<A: Copy, T: uParse<A>> uParse<A> for Bound<T> {
    ghost is_value = { elim [
      | Included x ↦ T.is_value x
      | Excluded x ↦ T.is_value x
      | Unbounded ↦ ⊤
    ] };

    ghost holds_no_memory = { T.holds_no_memory };

    fn prove_value(&self) {
        match self {
            Bound::Included(end) => end.prove_value(),
            Bound::Excluded(end) => end.prove_value(),
            Bound::Unbounded => {}
        }
    }

    fn parse_from<M: ParseMode>(alloc: A, parser: &mut Parser<'_, M>) -> Result<Bound<T>, Fault> {
        parse_variants!(alloc, parser, Bound { Included(end), Excluded(end), Unbounded })
    }
}

impl<A: Copy, B: uParse<A>, C: uParse<A>> uParse<A> for ControlFlow<B, C> {
    ghost is_value = { elim [
      | Continue x ↦ C.is_value x
      | Break x ↦ B.is_value x
    ] };

    ghost holds_no_memory = { B.holds_no_memory × C.holds_no_memory };

    fn prove_value(&self) {
        match self {
            ControlFlow::Continue(value) => value.prove_value(),
            ControlFlow::Break(value) => value.prove_value(),
        }
    }

    fn parse_from<M: ParseMode>(
        alloc: A,
        parser: &mut Parser<'_, M>,
    ) -> Result<ControlFlow<B, C>, Fault> {
        parse_variants!(alloc, parser, ControlFlow { Continue(value), Break(value) })
    }
}
