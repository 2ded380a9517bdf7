//! `Vec`, arrays, and what parses a `Vec` by a parser.
ghost use Rattle.std.specs.List.{AllByRecursion};
ghost use Rattle.std.specs.Prelude.{◌≤◌, ◌≡◌, ◌<◌, codes, length, map, All, IfOk, suc};
ghost use Rattle.ufmt.specs.Document.{documents, list_of};
ghost use Rattle.ufmt.specs.Layout.{layout};
ghost use Rattle.ufmt_parse.specs.Places.{IsInside};
ghost use Rattle.ufmt_parser.specs.Taking.{Fits, Takes, open_blocks, rest, setting_in};

use crate::uparse::{ByType, uParse};
use std::alloc::Allocator;
use ufmt::uDebug;
use ufmt_parser::blocks::parse_list;
use ufmt_parser::entries::Value;
use ufmt_parser::mode::ParseMode;
use ufmt_parser::need::Need;
use ufmt_parser::parser::{Fault, Parser};
use ufmt_parser::parses_by::ParsesBy;

impl<A: Allocator + Copy, T: uParse<A>> uParse<A> for Vec<T, A> {
    ghost is_value = { λ values. All T.is_value values.items };

    ghost stops = { IsInside (codes "[") };

    fn prove_value(&self) {
        for value in self.iter() {
            value.prove_value();
        }
    }

    fn parse_from<M: ParseMode>(alloc: A, parser: &mut Parser<'_, M>) -> Result<Vec<T, A>, Fault> {
        parse_list(alloc, parser, &Value(ByType))
    }
}

impl<A: Allocator + Copy, T: uParse<A>, const N: usize> uParse<A> for [T; N] {
    ghost is_value = { λ values. All T.is_value values × (length values ≡ N) };

    fn prove_value(&self) {
        for value in self.iter() {
            value.prove_value();
        }
    }

    fn parse_from<M: ParseMode>(alloc: A, parser: &mut Parser<'_, M>) -> Result<[T; N], Fault> {
        parse_array(alloc, parser)
    }
}

/// Parses a `Vec` of what its parser parses.
#[derive(Drop)]
pub struct Each<P>(pub P);

impl<A: Allocator + Copy, M: ParseMode, T: uDebug + Drop, P: ParsesBy<A, M, T>> ParsesBy<
    A,
    M,
    Vec<T, A>,
> for Each<P> {
    ghost is_value = { λ values. AllByRecursion P.is_value values.items };

    ghost ready = { λ each blocks. blocks < 255 → P.ready each.0 (suc blocks) };

    fn parse_by(&self, alloc: A, parser: &mut Parser<'_, M>) -> Result<Vec<T, A>, Fault> {
        parse_list(alloc, parser, &Value(&self.0))
    }
}

// Takes a list of so many values.
fn parse_array<A: Allocator + Copy, T: uParse<A>, const N: usize, M: ParseMode>(
    alloc: A,
    parser: &mut Parser<'_, M>,
) -> Result<[T; N], Fault>
    ensures takes { Takes (λ values. (All T.is_value values × (length values ≡ N))
        × Fits (open_blocks parser.old) (list_of (documents (map T.document values))))
        (λ values. layout (setting_in M.mode (open_blocks parser.old)) (list_of (documents (map T.document values))))
        (rest parser.old) result (rest parser.new) }
    ensures blocks { IfOk result (λ _. open_blocks parser.new ≡ open_blocks parser.old) }
    ensures shrinks { length (rest parser.new) ≤ length (rest parser.old) }
{
    let start = parser.rest();
    let values = tri!(parse_list(alloc, parser, &Value(ByType)));
    match <[T; N]>::try_from(values) {
        Err(_) => {
            parser.skip_to(start);
            Err(parser.refuse(Need::Count))
        }
        Ok(array) => Ok(array),
    }
}
