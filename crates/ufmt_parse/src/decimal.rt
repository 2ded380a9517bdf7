//! Fixed-point numbers.
ghost use Rattle.std.specs.Prelude.{⊤};
ghost use Rattle.ufmt_parse.specs.Places.{IsPiece};
ghost use Rattle.ufmt_parse.specs.declared.expected.Expected.TheVariants.{Number};
ghost use Rattle.ufmt_parse_leaves.specs.Values.{is_i64, is_u8};

use crate::uparse::uParse;
use ufmt::Decimal;
use ufmt_parse_leaves::fixed_point::split_fixed;
use ufmt_parser::mode::ParseMode;
use ufmt_parser::need::Need;
use ufmt_parser::parser::{Fault, Parser};

/// Takes a number with as many places as digits come after its point: `1.5` and `1.50` are two values.
impl<A: Copy> uParse<A> for Decimal {
    ghost is_value = { λ d. is_i64 d.value × is_u8 d.places };

    ghost holds_no_memory = { ⊤ };

    ghost stops = { IsPiece Number };

    fn prove_value(&self) {
        let _value = self.value;
        let _places = self.places;
    }

    fn parse_from<M: ParseMode>(_alloc: A, parser: &mut Parser<'_, M>) -> Result<Decimal, Fault> {
        match split_fixed(parser.rest()) {
            None => Err(parser.refuse(Need::Number)),
            Some(((value, places), after)) => {
                parser.skip_to(after);
                Ok(Decimal { value, places })
            }
        }
    }
}
