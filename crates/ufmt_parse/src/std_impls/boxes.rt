//! Boxes.
use crate::uparse::uParse;
use std::alloc::Allocator;
use ufmt::uDebug;
use ufmt_parser::mode::ParseMode;
use ufmt_parser::parser::{Fault, Parser};
use ufmt_parser::parses_by::ParsesBy;

/// Takes the text of what the box holds.
impl<A: Allocator + Copy, T: uParse<A>> uParse<A> for Box<T, A> {
    ghost is_value = { λ b. T.is_value b.value };

    ghost stops = { T.stops };

    fn prove_value(&self) {
        (**self).prove_value();
    }

    fn parse_from<M: ParseMode>(alloc: A, parser: &mut Parser<'_, M>) -> Result<Box<T, A>, Fault> {
        let value = tri!(T::parse_from(alloc, parser));
        match Box::new(alloc, value) {
            Err(_) => Err(Fault::OutOfMemory),
            Ok(boxed) => Ok(boxed),
        }
    }
}

/// Parses a `Box` of what its parser parses.
#[derive(Drop)]
pub struct Boxed<P>(pub P);

impl<A: Allocator + Copy, M: ParseMode, T: uDebug + Drop, P: ParsesBy<A, M, T>> ParsesBy<
    A,
    M,
    Box<T, A>,
> for Boxed<P> {
    ghost is_value = { λ b. P.is_value b.value };

    ghost ready = { λ boxed blocks. P.ready boxed.0 blocks };

    fn parse_by(&self, alloc: A, parser: &mut Parser<'_, M>) -> Result<Box<T, A>, Fault> {
        let value = tri!(self.0.parse_by(alloc, parser));
        match Box::new(alloc, value) {
            Err(_) => Err(Fault::OutOfMemory),
            Ok(boxed) => Ok(boxed),
        }
    }
}
