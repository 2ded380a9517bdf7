//! `Rc`, `Arc` and `Cow`, which print as the value in them.
ghost use Rattle.std.specs.Arc.{arc_value};
ghost use Rattle.std.specs.Cow.{cow_value};

use crate::uparse::uParse;
use std::alloc::Allocator;
use std::borrow::Cow;
use std::rc::Rc;
use std::sync::Arc;
use ufmt_parser::mode::ParseMode;
use ufmt_parser::parser::{Fault, Parser};

/// Takes the text of the value. It is the only `Rc` of it.
impl<A: Allocator + Copy, T: uParse<A>> uParse<A> for Rc<T, A> {
    ghost is_value = { λ r. T.is_value r.value };

    ghost stops = { T.stops };

    fn prove_value(&self) {
        (**self).prove_value();
    }

    fn parse_from<M: ParseMode>(alloc: A, parser: &mut Parser<'_, M>) -> Result<Rc<T, A>, Fault> {
        let value = tri!(T::parse_from(alloc, parser));
        match Rc::new(alloc, value) {
            Err(_) => Err(Fault::OutOfMemory),
            Ok(shared) => Ok(shared),
        }
    }
}

/// Takes the text of the value. It is the only `Arc` of it.
impl<A: Allocator + Copy, T: uParse<A>> uParse<A> for Arc<T, A> {
    ghost is_value = { λ a. T.is_value (arc_value a) };

    ghost stops = { T.stops };

    fn prove_value(&self) {
        (**self).prove_value();
    }

    fn parse_from<M: ParseMode>(alloc: A, parser: &mut Parser<'_, M>) -> Result<Arc<T, A>, Fault> {
        let value = tri!(T::parse_from(alloc, parser));
        match Arc::new(alloc, value) {
            Err(_) => Err(Fault::OutOfMemory),
            Ok(shared) => Ok(shared),
        }
    }
}

/// Takes the text of the value, which is owned.
impl<'a, A, T: uParse<A>> uParse<A> for Cow<'a, T> {
    ghost is_value = { λ c. T.is_value (cow_value c) };

    ghost holds_no_memory = { T.holds_no_memory };

    ghost stops = { T.stops };

    fn prove_value(&self) {
        (**self).prove_value();
    }

    fn parse_from<M: ParseMode>(alloc: A, parser: &mut Parser<'_, M>) -> Result<Cow<'a, T>, Fault> {
        let value = tri!(T::parse_from(alloc, parser));
        Ok(Cow::Owned(value))
    }
}
