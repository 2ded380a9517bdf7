//! The entries of blocks: values, values with a name, and pairs.
ghost use Rattle.std.specs.Prelude.{◌≤◌, length, ◌≡◌, ◌++◌, ℕ, List, IfOk, IfErr, codes};
ghost use Rattle.ufmt_core.specs.Layout.{layout};
ghost use Rattle.ufmt_core.specs.declared.layout.Setting.{Setting};
ghost use Rattle.ufmt_parser.specs.Taking.{Fits, Takes, open_blocks, rest, setting_in};

use crate::detail::Detail;
use crate::mode::ParseMode;
use crate::need::Need;
use crate::parser::{Fault, Parser};
use crate::parses_by::ParsesBy;
use ufmt_core::layout::COLON;
use ufmt_core::uDebug;

/// A parser of one entry of a block.
pub trait EntryParser<A, M: ParseMode, E> {
    // What holds of each entry that a program has, in so many blocks.
    ghost fit: { ℕ → E → Type 0 };

    // Holds if no memory is taken.
    ghost holds_no_memory: { Type 0 } = { ⊥ };

    // The entry's text.
    ghost text: { Self → Setting → E → List ℕ };

    // Whether it may be called where so many blocks are open.
    ghost ready: { Self → ℕ → Type 0 };

    fn parse_entry(&self, alloc: A, parser: &mut Parser<'_, M>) -> Result<E, Fault>
        requires { ready self.now (open_blocks parser.old) }
        ensures takes { Takes (fit (open_blocks parser.old))
            (text self.now (setting_in M.mode (open_blocks parser.old)))
            (rest parser.old) result (rest parser.new) }
        ensures memory { holds_no_memory → IfErr result (λ fault. fault ≡ Fault.NotText) }
        ensures blocks { IfOk result (λ _. open_blocks parser.new ≡ open_blocks parser.old) }
        ensures shrinks { length (rest parser.new) ≤ length (rest parser.old) };
}

/// A value alone, as in a list or a tuple.
#[derive(Drop)]
pub struct Value<P>(pub P);

/// A value after its name, as in a struct.
#[derive(Drop)]
pub struct Named<P>(pub &'static str, pub P);

/// A key and its value, as in a map.
#[derive(Drop)]
pub struct Pair<K, P>(pub K, pub P);

impl<A, M: ParseMode, T: uDebug, P: ParsesBy<A, M, T>> EntryParser<A, M, T> for Value<P> {
    ghost fit = { λ blocks v. P.is_value v × Fits blocks (T.document v) };

    ghost holds_no_memory = { P.holds_no_memory };

    ghost text = { λ _ s v. layout s (T.document v) };

    ghost ready = { λ value blocks. P.ready value.0 blocks };

    #[inline(always)]
    fn parse_entry(&self, alloc: A, parser: &mut Parser<'_, M>) -> Result<T, Fault> {
        self.0.parse_by(alloc, parser)
    }
}

impl<A: Copy, M: ParseMode, T: uDebug, P: ParsesBy<A, M, T>> EntryParser<A, M, T> for Named<P> {
    ghost fit = { λ blocks v. P.is_value v × Fits blocks (T.document v) };

    ghost holds_no_memory = { P.holds_no_memory };

    ghost text = { λ named s v. named.0.now ++ (codes ": " ++ layout s (T.document v)) };

    ghost ready = { λ named blocks. P.ready named.1 blocks };

    #[inline(always)]
    fn parse_entry(&self, alloc: A, parser: &mut Parser<'_, M>) -> Result<T, Fault> {
        if !parser.eat(self.0) {
            return Err(parser.refuse_in_detail(Need::Name, Detail::Field(self.0)));
        }
        parser.note(Detail::Nothing);
        if !parser.eat(COLON) {
            return Err(Fault::NotText);
        }
        self.1.parse_by(alloc, parser)
    }
}

impl<
    A: Copy,
    M: ParseMode,
    T: uDebug + Drop,
    U: uDebug + Drop,
    K: ParsesBy<A, M, T>,
    P: ParsesBy<A, M, U>,
> EntryParser<A, M, (T, U)> for Pair<K, P> {
    ghost fit = { λ blocks v. (K.is_value v.0 × Fits blocks (T.document v.0))
        × (P.is_value v.1 × Fits blocks (U.document v.1)) };

    ghost holds_no_memory = { K.holds_no_memory × P.holds_no_memory };

    ghost text = { λ _ s v. layout s (T.document v.0) ++ (codes ": " ++ layout s (U.document v.1)) };

    ghost ready = { λ pair blocks. K.ready pair.0 blocks × P.ready pair.1 blocks };

    #[inline(always)]
    fn parse_entry(&self, alloc: A, parser: &mut Parser<'_, M>) -> Result<(T, U), Fault> {
        let key = tri!(self.0.parse_by(alloc, parser));
        if !parser.eat(COLON) {
            return Err(Fault::NotText);
        }
        let value = tri!(self.1.parse_by(alloc, parser));
        Ok((key, value))
    }
}
