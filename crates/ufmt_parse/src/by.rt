//! Parsing by a function, as a type that holds itself needs it.
ghost use Rattle.std.specs.Borrow.{MutBor};
ghost use Rattle.std.specs.List.{AllByRecursion};
ghost use Rattle.std.specs.Prelude.{◌≡◌, Result};
ghost use Rattle.ufmt_parser.specs.declared.parser.Fault.{Fault};
ghost use Rattle.ufmt_parser.specs.declared.parser.Parser.{Parser};
ghost use Rattle.ufmt_parse.specs.Parses.{Parses};
ghost use Rattle.ufmt_parser.specs.Taking.{open_blocks};

use std::alloc::Allocator;
use ufmt::uDebug;
use ufmt_parser::mode::ParseMode;
use ufmt_parser::parser::{Fault, Parser};
use ufmt_parser::parses_by::ParsesBy;

/// For a type that holds itself: `is_value` and `prove_value` of `uParse`, in a trait without `parse_from`.
/// The check takes a recursion through this one.
pub trait ProvesValue {
    /// What holds of each value that a program has.
    ghost is_whole: { Self → Type 0 };

    /// Shows that `is_whole` holds, by `prove` of each field that holds the type.
    fn prove(&self)
        ensures { is_whole self.now };
}

impl<T: ProvesValue, A: Allocator> ProvesValue for Vec<T, A> {
    ghost is_whole = { λ values. AllByRecursion T.is_whole values.items };

    #[tactic(auto, using(crate::proofs::Layers::each_of))]
    fn prove(&self) {
        for value in self.iter() {
            value.prove();
        }
    }
}

/// Parses by a function whose contract is `Parses`, as `By(parse_node)` within `parse_node`.
///
/// A value of a type that holds itself is in more blocks than the value that holds it, and at most 255 blocks
/// are open. So the recursion ends with no depth passed down: its measure is `255 - open_blocks`.
#[derive(Drop)]
pub struct By<F>(pub F);

#[tactic(auto, unfolding(ufmt_parser::specs::Next::IsNotNext, ufmt_parser::specs::Next::NextLeaves))]
impl<
    A,
    M: ParseMode,
    T: uDebug + ProvesValue,
    F: Fn(A, &mut Parser<'_, M>) -> Result<T, Fault>,
> ParsesBy<A, M, T> for By<F> {
    ghost is_value = { T.is_whole };

    ghost ready = { λ by blocks.
        ((alloc : A) (p : MutBor (Parser M)) → open_blocks p.now ≡ blocks → F.pre by.0 alloc p)
        × ((alloc : A) (p q : MutBor (Parser M)) (r : Result T Fault) → open_blocks p.now ≡ blocks
        → F.post by.0 alloc p r q → Parses M.mode T.is_whole T.document p.now r q.now) };

    #[inline(always)]
    fn parse_by(&self, alloc: A, parser: &mut Parser<'_, M>) -> Result<T, Fault> {
        (self.0)(alloc, parser)
    }
}
