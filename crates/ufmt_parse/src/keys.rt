//! Keys of sets and maps.
ghost use Rattle.std.specs.Prelude.{◌≡◌};
ghost use Rattle.std.specs.declared.cmp.Ordering.TheVariants.{Equal};
ghost use Rattle.ufmt.specs.Token.{normal};

use crate::uparse::uParse;
use std::alloc::Allocator;
use std::borrow::{Cow, CowSlice};
use std::boxed::{BoxedSlice, BoxedStr};
use std::cmp::{Ordering, Reverse};
use std::collections::{LinkedList, VecDeque};
use std::num::{Saturating, Wrapping};
use std::rc::{Rc, RcSlice, RcStr};
use std::sync::{Arc, ArcSlice, ArcStr};

/// A key of a set or a map that can be parsed: no other key has its text.
pub trait ParseKey<A>: uParse<A> + Ord {
    /// Shows that two keys with the same text are equal in their order. The body is empty for a leaf, and
    /// calls this of each field for a key with fields.
    fn prove_key()
        ensures { (x y : Self) → Self.is_value x → Self.is_value y
            → normal (Self.document x) ≡ normal (Self.document y) → Self.cmp x y ≡ Equal };
}

impl<A: Copy> ParseKey<A> for bool {
    fn prove_key() {}
}

impl<A: Copy> ParseKey<A> for () {
    fn prove_key() {}
}

impl<A: Copy> ParseKey<A> for u8 {
    #[tactic(auto, using(crate::proofs::NumberKeys::naturals_equal))]
    fn prove_key() {}
}

impl<A: Copy> ParseKey<A> for u16 {
    #[tactic(auto, using(crate::proofs::NumberKeys::naturals_equal))]
    fn prove_key() {}
}

impl<A: Copy> ParseKey<A> for u32 {
    #[tactic(auto, using(crate::proofs::NumberKeys::naturals_equal))]
    fn prove_key() {}
}

impl<A: Copy> ParseKey<A> for u64 {
    #[tactic(auto, using(crate::proofs::NumberKeys::naturals_equal))]
    fn prove_key() {}
}

impl<A: Copy> ParseKey<A> for u128 {
    #[tactic(auto, using(crate::proofs::NumberKeys::naturals_equal))]
    fn prove_key() {}
}

impl<A: Copy> ParseKey<A> for usize {
    #[tactic(auto, using(crate::proofs::NumberKeys::naturals_equal))]
    fn prove_key() {}
}

impl<A: Copy> ParseKey<A> for i8 {
    #[tactic(auto, using(crate::proofs::NumberKeys::integers_equal))]
    fn prove_key() {}
}

impl<A: Copy> ParseKey<A> for i16 {
    #[tactic(auto, using(crate::proofs::NumberKeys::integers_equal))]
    fn prove_key() {}
}

impl<A: Copy> ParseKey<A> for i32 {
    #[tactic(auto, using(crate::proofs::NumberKeys::integers_equal))]
    fn prove_key() {}
}

impl<A: Copy> ParseKey<A> for i64 {
    #[tactic(auto, using(crate::proofs::NumberKeys::integers_equal))]
    fn prove_key() {}
}

impl<A: Copy> ParseKey<A> for i128 {
    #[tactic(auto, using(crate::proofs::NumberKeys::integers_equal))]
    fn prove_key() {}
}

impl<A: Copy> ParseKey<A> for isize {
    #[tactic(auto, using(crate::proofs::NumberKeys::integers_equal))]
    fn prove_key() {}
}

impl<A: Copy> ParseKey<A> for char {
    fn prove_key() {}
}

impl<A: Allocator + Copy> ParseKey<A> for String<A> {
    fn prove_key() {}
}

impl<A: Copy, K: ParseKey<A>> ParseKey<A> for Option<K> {
    fn prove_key() {
        K::prove_key();
    }
}

impl<A: Copy, K: ParseKey<A>, L: ParseKey<A>> ParseKey<A> for Result<K, L> {
    fn prove_key() {
        K::prove_key();
        L::prove_key();
    }
}

impl<A: Allocator + Copy, K: ParseKey<A>> ParseKey<A> for Box<K, A> {
    fn prove_key() {
        K::prove_key();
    }
}

impl<A: Allocator + Copy, K: ParseKey<A>> ParseKey<A> for Vec<K, A> {
    fn prove_key() {
        K::prove_key();
    }
}

impl<A: Allocator + Copy, K: ParseKey<A>, const N: usize> ParseKey<A> for [K; N] {
    fn prove_key() {
        K::prove_key();
    }
}

impl<A: Copy> ParseKey<A> for Ordering {
    fn prove_key() {}
}

impl<A, K: ParseKey<A>> ParseKey<A> for Wrapping<K> {
    fn prove_key() {
        K::prove_key();
    }
}

impl<A, K: ParseKey<A>> ParseKey<A> for Saturating<K> {
    fn prove_key() {
        K::prove_key();
    }
}

impl<A: Copy, K: ParseKey<A>> ParseKey<A> for Reverse<K> {
    fn prove_key() {
        K::prove_key();
    }
}

impl<A: Allocator + Copy, K: ParseKey<A>> ParseKey<A> for Rc<K, A> {
    fn prove_key() {
        K::prove_key();
    }
}

impl<A: Allocator + Copy, K: ParseKey<A>> ParseKey<A> for Arc<K, A> {
    fn prove_key() {
        K::prove_key();
    }
}

impl<'a, A, K: ParseKey<A>> ParseKey<A> for Cow<'a, K> {
    fn prove_key() {
        K::prove_key();
    }
}

impl<A: Allocator + Copy> ParseKey<A> for BoxedStr<A> {
    fn prove_key() {
        <String<A> as ParseKey<A>>::prove_key();
    }
}

impl<A: Allocator + Copy> ParseKey<A> for RcStr<A> {
    fn prove_key() {
        <String<A> as ParseKey<A>>::prove_key();
    }
}

impl<A: Allocator + Copy> ParseKey<A> for ArcStr<A> {
    fn prove_key() {
        <String<A> as ParseKey<A>>::prove_key();
    }
}

impl<A: Allocator + Copy, K: ParseKey<A>> ParseKey<A> for BoxedSlice<K, A> {
    fn prove_key() {
        <Vec<K, A> as ParseKey<A>>::prove_key();
    }
}

impl<A: Allocator + Copy, K: ParseKey<A>> ParseKey<A> for RcSlice<K, A> {
    fn prove_key() {
        <Vec<K, A> as ParseKey<A>>::prove_key();
    }
}

impl<A: Allocator + Copy, K: ParseKey<A>> ParseKey<A> for ArcSlice<K, A> {
    fn prove_key() {
        <Vec<K, A> as ParseKey<A>>::prove_key();
    }
}

impl<'a, A: Allocator + Copy, K: ParseKey<A>> ParseKey<A> for CowSlice<'a, K, A> {
    fn prove_key() {
        K::prove_key();
    }
}

impl<A: Allocator + Copy, K: ParseKey<A>> ParseKey<A> for VecDeque<K, A> {
    fn prove_key() {
        K::prove_key();
    }
}

impl<A: Allocator + Copy, K: ParseKey<A>> ParseKey<A> for LinkedList<K, A> {
    fn prove_key() {
        K::prove_key();
    }
}
