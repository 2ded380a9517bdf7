//! Characters in apostrophes.
ghost use Rattle.std.specs.Char.{IsScalar};
ghost use Rattle.std.specs.Prelude.{⊤};
ghost use Rattle.ufmt_parse.specs.Places.{IsPiece};
ghost use Rattle.ufmt_parse.specs.declared.expected.Expected.TheVariants.{Character};

use crate::uparse::uParse;
use ufmt_parse_leaves::characters::split_quoted_char;
use ufmt_parser::mode::ParseMode;
use ufmt_parser::need::Need;
use ufmt_parser::parser::{Fault, Parser};

/// Takes a character in apostrophes, with the escapes that printing writes and no others.
impl<A: Copy> uParse<A> for char {
    ghost is_value = { IsScalar };

    ghost holds_no_memory = { ⊤ };

    ghost stops = { IsPiece Character };

    fn prove_value(&self) {
        let _character = *self;
    }

    fn parse_from<M: ParseMode>(_alloc: A, parser: &mut Parser<'_, M>) -> Result<char, Fault> {
        match split_quoted_char(parser.rest()) {
            None => Err(parser.refuse(Need::Character)),
            Some(front) => {
                parser.skip_to(front.1);
                Ok(front.0)
            }
        }
    }
}
