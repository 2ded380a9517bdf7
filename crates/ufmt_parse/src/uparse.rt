//! Parsing from the front of a text: what each type does.
ghost use Rattle.std.specs.Prelude.{◌≤◌, ◌+◌, length, ◌≡◌, ℕ, List, IfOk, IfErr, IsErrOf, ⊤};
ghost use Rattle.ufmt_parse.specs.Expecting.{expected_of};
ghost use Rattle.ufmt_parse.specs.declared.expected.Expected.{Expected};
ghost use Rattle.ufmt_parser.specs.Needs.{need};
ghost use Rattle.ufmt_parser.specs.Next.{IsNotNext, NextLeaves};
ghost use Rattle.ufmt_parser.specs.Taking.{IsTaken, open_blocks, rest};

use ufmt::uDebug;
use ufmt_parser::mode::ParseMode;
use ufmt_parser::parser::{Fault, Parser};
use ufmt_parser::parses_by::ParsesBy;

/// A value that can be parsed from what `uDebug` printed. `A` is the type of the allocator: what takes no
/// memory is parsed with any, also with `()`.
pub trait uParse<A>: uDebug + Drop {
    /// What holds of each value that a program has, as that a number is in its type's range.
    ghost is_value: { Self → Type 0 };

    /// Holds of a type whose values hold no memory: it is never refused memory. By default nothing is said.
    ghost holds_no_memory: { Type 0 } = { ⊥ };

    /// What holds of the place where a text stops fitting, so many bytes after its beginning, and of what is
    /// expected there. By default nothing is said.
    ghost stops: { List ℕ → ℕ → Expected → Type 0 } = { λ _ _ _. ⊤ };

    /// Shows that `is_value` holds, by `prove_value` of each field that it mentions.
    fn prove_value(&self)
        ensures { is_value self.now };

    /// Parses a value from the front of the text. Fails with `NotText` only if no value's text is there,
    /// with a text after it that may follow.
    fn parse_from<M: ParseMode>(alloc: A, parser: &mut Parser<'_, M>) -> Result<Self, Fault>
    where
        Self: Sized,
        ensures taken { IfOk result (λ v. IsTaken M.mode parser.old (Self.document v) parser.new) }
        ensures only { IfOk result (λ _. (v : Self) → is_value v
            → NextLeaves M.mode parser.old (Self.document v) parser.new) }
        ensures none { IfErr result (λ fault. fault ≡ Fault.NotText → (v : Self) → is_value v
            → IsNotNext M.mode parser.old (Self.document v)) }
        ensures memory { holds_no_memory → IfErr result (λ fault. fault ≡ Fault.NotText) }
        ensures stops { (at : ℕ) → IsErrOf result Fault.NotText
            → length (rest parser.new) + at ≡ length (rest parser.old)
            → stops (rest parser.old) at (expected_of (need parser.new)) }
        ensures blocks { IfOk result (λ _. open_blocks parser.new ≡ open_blocks parser.old) }
        ensures shrinks { length (rest parser.new) ≤ length (rest parser.old) };
}

/// Parses by `parse_from`.
#[derive(Drop)]
pub struct ByType;

impl<A, M: ParseMode, T: uParse<A>> ParsesBy<A, M, T> for ByType {
    ghost is_value = { T.is_value };

    ghost holds_no_memory = { T.holds_no_memory };

    ghost ready = { λ _ _. ⊤ };

    #[inline(always)]
    fn parse_by(&self, alloc: A, parser: &mut Parser<'_, M>) -> Result<T, Fault> {
        let value = tri!(T::parse_from(alloc, parser));
        value.prove_value();
        Ok(value)
    }
}
