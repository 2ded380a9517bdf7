//! Parsers of the values of a type.
ghost use Rattle.std.specs.Prelude.{◌≤◌, length, ◌≡◌, ℕ, IfOk, IfErr};
ghost use Rattle.ufmt_core.specs.Layout.{layout};
ghost use Rattle.ufmt_parser.specs.Taking.{Fits, Takes, open_blocks, rest, setting_in};

use crate::mode::ParseMode;
use crate::parser::{Fault, Parser};
use ufmt_core::uDebug;

/// A parser of values of a type, from texts in the mode `M`.
pub trait ParsesBy<A, M: ParseMode, T: uDebug> {
    /// What holds of each value that a program has.
    ghost is_value: { T → Type 0 };

    /// Holds if no memory is taken. By default nothing is said.
    ghost holds_no_memory: { Type 0 } = { ⊥ };

    /// Whether it may be called where so many blocks are open.
    ghost ready: { Self → ℕ → Type 0 };

    /// Parses the text of a value from the front, as `parse_from` of `uParse` does.
    fn parse_by(&self, alloc: A, parser: &mut Parser<'_, M>) -> Result<T, Fault>
        requires { ready self.now (open_blocks parser.old) }
        ensures takes { Takes (λ v. is_value v × Fits (open_blocks parser.old) (T.document v))
            (λ v. layout (setting_in M.mode (open_blocks parser.old)) (T.document v))
            (rest parser.old) result (rest parser.new) }
        ensures memory { holds_no_memory → IfErr result (λ fault. fault ≡ Fault.NotText) }
        ensures blocks { IfOk result (λ _. open_blocks parser.new ≡ open_blocks parser.old) }
        ensures shrinks { length (rest parser.new) ≤ length (rest parser.old) };
}

impl<A, M: ParseMode, T: uDebug, P: ParsesBy<A, M, T>> ParsesBy<A, M, T> for &P {
    ghost is_value = { P.is_value };

    ghost holds_no_memory = { P.holds_no_memory };

    ghost ready = { λ by blocks. P.ready by.now blocks };

    #[inline(always)]
    fn parse_by(&self, alloc: A, parser: &mut Parser<'_, M>) -> Result<T, Fault> {
        (**self).parse_by(alloc, parser)
    }
}
