//! Options and results.
ghost use Rattle.std.specs.Prelude.{◌<◌, IfSome, Ok, Err, suc};

use crate::uparse::{ByType, uParse};
use ufmt::uDebug;
use ufmt_parser::by_count::tuples::parse_tuple_1;
use ufmt_parser::detail::Detail;
use ufmt_parser::mode::ParseMode;
use ufmt_parser::need::Need;
use ufmt_parser::parser::{Fault, Parser};
use ufmt_parser::parses_by::ParsesBy;

#[tactic(auto, unfolding(ufmt_parser::specs::Next::IsNotNext, ufmt_parser::specs::Next::NextLeaves))]
impl<A: Copy, T: uParse<A>> uParse<A> for Option<T> {
    ghost is_value = { λ o. IfSome o T.is_value };

    ghost holds_no_memory = { T.holds_no_memory };

    fn prove_value(&self) {
        match self {
            None => {}
            Some(value) => value.prove_value(),
        }
    }

    #[inline(always)]
    fn parse_from<M: ParseMode>(alloc: A, parser: &mut Parser<'_, M>) -> Result<Option<T>, Fault> {
        Optional(ByType).parse_by(alloc, parser)
    }
}

/// Parses an `Option` of what its parser parses.
#[derive(Drop)]
pub struct Optional<P>(pub P);

impl<A: Copy, M: ParseMode, T: uDebug + Drop, P: ParsesBy<A, M, T>> ParsesBy<A, M, Option<T>>
    for Optional<P> {
    ghost is_value = { λ o. IfSome o P.is_value };

    ghost holds_no_memory = { P.holds_no_memory };

    ghost ready = { λ optional blocks. blocks < 255 → P.ready optional.0 (suc blocks) };

    #[inline(always)]
    fn parse_by(&self, alloc: A, parser: &mut Parser<'_, M>) -> Result<Option<T>, Fault> {
        if parser.eat("None") {
            return Ok(None);
        }
        if M::keeps_detail() && !parser.is_named("Some") {
            return Err(parser.refuse_in_detail(Need::Name, Detail::Variant("Option")));
        }
        let value = tri!(parse_tuple_1(alloc, parser, "Some", &self.0));
        Ok(Some(value))
    }
}

impl<A: Copy, T: uParse<A>, E: uParse<A>> uParse<A> for Result<T, E> {
    ghost is_value = { elim [ Ok value ↦ T.is_value value | Err error ↦ E.is_value error ] };

    ghost holds_no_memory = { T.holds_no_memory × E.holds_no_memory };

    fn prove_value(&self) {
        match self {
            Ok(value) => value.prove_value(),
            Err(error) => error.prove_value(),
        }
    }

    fn parse_from<M: ParseMode>(
        alloc: A,
        parser: &mut Parser<'_, M>,
    ) -> Result<Result<T, E>, Fault> {
        if parser.is_named("Ok") {
            let value = tri!(parse_tuple_1(alloc, parser, "Ok", &ByType));
            return Ok(Ok(value));
        }
        if M::keeps_detail() && !parser.is_named("Err") {
            return Err(parser.refuse_in_detail(Need::Name, Detail::Variant("Result")));
        }
        let error = tri!(parse_tuple_1(alloc, parser, "Err", &ByType));
        Ok(Err(error))
    }
}
