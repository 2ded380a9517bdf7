//! `Wrapping` and `Saturating`, which print as what they hold, and `Reverse`.
use crate::parse_fields;
use crate::uparse::uParse;
use std::cmp::Reverse;
use std::num::{Saturating, Wrapping};
use ufmt_parser::mode::ParseMode;
use ufmt_parser::parser::{Fault, Parser};

impl<A, T: uParse<A>> uParse<A> for Wrapping<T> {
    ghost is_value = { λ x. T.is_value x.0 };

    ghost holds_no_memory = { T.holds_no_memory };

    ghost stops = { T.stops };

    fn prove_value(&self) {
        self.0.prove_value();
    }

    #[inline(always)]
    fn parse_from<M: ParseMode>(
        alloc: A,
        parser: &mut Parser<'_, M>,
    ) -> Result<Wrapping<T>, Fault> {
        let value = tri!(T::parse_from(alloc, parser));
        Ok(Wrapping(value))
    }
}

impl<A, T: uParse<A>> uParse<A> for Saturating<T> {
    ghost is_value = { λ x. T.is_value x.0 };

    ghost holds_no_memory = { T.holds_no_memory };

    ghost stops = { T.stops };

    fn prove_value(&self) {
        self.0.prove_value();
    }

    #[inline(always)]
    fn parse_from<M: ParseMode>(
        alloc: A,
        parser: &mut Parser<'_, M>,
    ) -> Result<Saturating<T>, Fault> {
        let value = tri!(T::parse_from(alloc, parser));
        Ok(Saturating(value))
    }
}

impl<A: Copy, T: uParse<A>> uParse<A> for Reverse<T> {
    ghost is_value = { λ x. T.is_value x.0 };

    ghost holds_no_memory = { T.holds_no_memory };

    fn prove_value(&self) {
        self.0.prove_value();
    }

    fn parse_from<M: ParseMode>(alloc: A, parser: &mut Parser<'_, M>) -> Result<Reverse<T>, Fault> {
        parse_fields!(alloc, parser, Reverse(value))
    }
}
