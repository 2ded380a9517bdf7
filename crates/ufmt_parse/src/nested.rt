//! Types that hold themselves, parsed by a function that each of them gives.
ghost use Rattle.std.specs.Borrow.{MutBor};
ghost use Rattle.std.specs.Prelude.{◌<◌, ◌≤◌, ◌≡◌, ◌↔◌, ℕ, IfErr, IfOk, Result, length};
ghost use Rattle.std.specs.declared.marker.PhantomData.{PhantomData};
ghost use Rattle.ufmt_parse.specs.Parses.{Parses};
ghost use Rattle.ufmt_parser.specs.Next.{IsNotNext, NextLeaves};
ghost use Rattle.ufmt_parser.specs.Taking.{IsTaken, open_blocks, rest};
ghost use Rattle.ufmt_parser.specs.declared.parser.Fault.{Fault};
ghost use Rattle.ufmt_parser.specs.declared.parser.Parser.{Parser};

use crate::by::ProvesValue;
use std::marker::PhantomData;
use ufmt::uDebug;
use ufmt_parser::mode::ParseMode;
use ufmt_parser::parser::{Fault, Parser};
use ufmt_parser::parses_by::ParsesBy;

/// A type that holds itself. It says how a value is parsed, given a parser for the values in it.
pub trait ParsesNested<A>: uDebug + ProvesValue + Drop {
    /// What holds of a value, if this fact holds of each value in it.
    ghost is_outer: { (Self → Type 0) → Self → Type 0 };

    /// Parses a value from the front. `inner` parses the values in it: the parser of a field is `Each(inner)`, or
    /// `Optional(Boxed(inner))`.
    fn parse_outer<M: ParseMode, P: ParsesBy<A, M, Self>>(
        alloc: A,
        parser: &mut Parser<'_, M>,
        inner: &P,
    ) -> Result<Self, Fault>
    where
        Self: Sized,
        requires ready { (blocks : ℕ) → open_blocks parser.old < blocks → blocks ≤ 255
            → P.ready inner.now blocks }
        ensures values { IfOk result (is_outer P.is_value) }
        ensures taken { IfOk result (λ v. IsTaken M.mode parser.old (Self.document v) parser.new) }
        ensures only { IfOk result (λ _. (v : Self) → is_outer P.is_value v
            → NextLeaves M.mode parser.old (Self.document v) parser.new) }
        ensures none { IfErr result (λ fault. fault ≡ Fault.NotText → (v : Self) → is_outer P.is_value v
            → IsNotNext M.mode parser.old (Self.document v)) }
        ensures blocks { IfOk result (λ _. open_blocks parser.new ≡ open_blocks parser.old) }
        ensures shrinks { length (rest parser.new) ≤ length (rest parser.old) };

    /// `is_whole`, by a value and the values in it.
    ghost unrolls: { (v : Self) → Self.is_whole v ↔ is_outer Self.is_whole v };
}

/// Parses a value of a type that holds itself: the body of its `parse_from`.
pub fn parse_nested<A: Copy, M: ParseMode, T: ParsesNested<A>>(
    alloc: A,
    parser: &mut Parser<'_, M>,
) -> Result<T, Fault>
    ensures { Parses M.mode T.is_whole T.document parser.old result parser.new }
{
    parse_level(alloc, parser, PhantomData)
}

// Passes itself on as the parser of the values in the value. These are in more blocks, so the measure is the number of blocks that
// may still be opened.
fn parse_level<A: Copy, M: ParseMode, T: ParsesNested<A>>(
    alloc: A,
    parser: &mut Parser<'_, M>,
    _kind: PhantomData<T>,
) -> Result<T, Fault>
    ensures { Parses M.mode T.is_whole T.document parser.old result parser.new }
{
    parse_outer_by(alloc, parser, &Level(parse_level, PhantomData))
}

// `parse_outer`, called outside of the recursion: within it the check doesn't cover a call through a bound.
#[inline(always)]
fn parse_outer_by<A: Copy, M: ParseMode, T: ParsesNested<A>, P: ParsesBy<A, M, T>>(
    alloc: A,
    parser: &mut Parser<'_, M>,
    inner: &P,
) -> Result<T, Fault>
    requires ready { (blocks : ℕ) → open_blocks parser.old < blocks → blocks ≤ 255
        → P.ready inner.now blocks }
    ensures { Parses M.mode (T.is_outer P.is_value) T.document parser.old result parser.new }
{
    T::parse_outer(alloc, parser, inner)
}

// Parses by a function, as `By` does. The function's last argument only names the type: the check wants an argument that does.
#[derive(Drop)]
struct Level<F, T>(F, PhantomData<T>);

#[tactic(auto, unfolding(ufmt_parser::specs::Next::IsNotNext, ufmt_parser::specs::Next::NextLeaves))]
impl<
    A,
    M: ParseMode,
    T: uDebug + ProvesValue,
    F: Fn(A, &mut Parser<'_, M>, PhantomData<T>) -> Result<T, Fault>,
> ParsesBy<A, M, T> for Level<F, T> {
    ghost is_value = { T.is_whole };

    ghost ready = { λ by blocks.
        ((alloc : A) (p : MutBor (Parser M)) (kind : PhantomData T) → open_blocks p.now ≡ blocks
        → F.pre by.0 alloc p kind)
        × ((alloc : A) (p q : MutBor (Parser M)) (kind : PhantomData T) (r : Result T Fault)
        → open_blocks p.now ≡ blocks → F.post by.0 alloc p kind r q
        → Parses M.mode T.is_whole T.document p.now r q.now) };

    #[inline(always)]
    fn parse_by(&self, alloc: A, parser: &mut Parser<'_, M>) -> Result<T, Fault> {
        (self.0)(alloc, parser, PhantomData)
    }
}
