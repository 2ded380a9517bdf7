//! Truth values and `()`.
ghost use Rattle.std.specs.Prelude.{⊤};
ghost use Rattle.ufmt_parse.specs.Places.{IsPiece};
ghost use Rattle.ufmt_parse.specs.declared.expected.Expected.TheVariants.{Name, Punctuation};

use crate::uparse::uParse;
use ufmt_parser::detail::Detail;
use ufmt_parser::mode::ParseMode;
use ufmt_parser::need::Need;
use ufmt_parser::parser::{Fault, Parser};

#[tactic(auto, unfolding(ufmt_parser::specs::Next::IsNotNext, ufmt_parser::specs::Next::NextLeaves))]
impl<A: Copy> uParse<A> for bool {
    ghost is_value = { λ _. ⊤ };

    ghost holds_no_memory = { ⊤ };

    ghost stops = { IsPiece Name };

    fn prove_value(&self) {}

    #[inline(always)]
    fn parse_from<M: ParseMode>(_alloc: A, parser: &mut Parser<'_, M>) -> Result<bool, Fault> {
        if parser.eat("true") {
            return Ok(true);
        }
        if parser.eat("false") {
            return Ok(false);
        }
        Err(parser.refuse_in_detail(Need::Name, Detail::Truth))
    }
}

#[tactic(auto, unfolding(ufmt_parser::specs::Next::IsNotNext, ufmt_parser::specs::Next::NextLeaves))]
impl<A: Copy> uParse<A> for () {
    ghost is_value = { λ _. ⊤ };

    ghost holds_no_memory = { ⊤ };

    ghost stops = { IsPiece Punctuation };

    fn prove_value(&self) {}

    #[inline(always)]
    fn parse_from<M: ParseMode>(_alloc: A, parser: &mut Parser<'_, M>) -> Result<(), Fault> {
        if parser.eat("()") {
            Ok(())
        } else {
            Err(parser.refuse(Need::Punctuation))
        }
    }
}
