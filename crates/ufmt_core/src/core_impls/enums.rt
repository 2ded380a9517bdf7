//! `uDebug` of `Option`, `Result`, `Ordering`, `Bound` and `ControlFlow`.
ghost use Rattle.std.specs.Prelude.{[], ◌∷◌};
ghost use Rattle.std.specs.declared.cmp.Ordering.TheVariants.{Less, Equal, Greater};
ghost use Rattle.std.specs.declared.ops.ControlFlow.TheVariants.{Continue, Break};
ghost use Rattle.std.specs.declared.ops.Bound.TheVariants.{Included, Excluded, Unbounded};
ghost use Rattle.ufmt_core.specs.ValueDocuments.{named, named_tuple, option_document, result_document};

use crate::formatter::Formatter;
use crate::uDebug;
use crate::write::uWrite;
use std::cmp::Ordering;
use std::ops::{Bound, ControlFlow};

/// Prints `None`, or a tuple `Some` with one field.
impl<T: uDebug> uDebug for Option<T> {
    ghost document = { option_document T.document };

    fn fmt<W: uWrite>(&self, f: &mut Formatter<W>) -> Result<(), W::Error> {
        match self {
            None => f.write_str("None"),
            Some(value) => f.tuple_1("Some", value),
        }
    }
}

/// Prints a tuple `Ok` or `Err` with one field.
impl<T: uDebug, E: uDebug> uDebug for Result<T, E> {
    ghost document = { result_document T.document E.document };

    fn fmt<W: uWrite>(&self, f: &mut Formatter<W>) -> Result<(), W::Error> {
        match self {
            Ok(value) => f.tuple_1("Ok", value),
            Err(error) => f.tuple_1("Err", error),
        }
    }
}

/// Prints `Less`, `Equal` or `Greater`.
impl uDebug for Ordering {
    ghost document = { elim [
      | Less ↦ named "Less"
      | Equal ↦ named "Equal"
      | Greater ↦ named "Greater"
    ] };

    fn fmt<W: uWrite>(&self, f: &mut Formatter<W>) -> Result<(), W::Error> {
        f.write_str(match self {
            Ordering::Less => "Less",
            Ordering::Equal => "Equal",
            Ordering::Greater => "Greater",
        })
    }
}

/// Prints a tuple `Included` or `Excluded` with one field, or `Unbounded`.
impl<T: uDebug> uDebug for Bound<T> {
    ghost document = { elim [
      | Included x ↦ named_tuple "Included" (T.document x ∷ [])
      | Excluded x ↦ named_tuple "Excluded" (T.document x ∷ [])
      | Unbounded ↦ named "Unbounded"
    ] };

    fn fmt<W: uWrite>(&self, f: &mut Formatter<W>) -> Result<(), W::Error> {
        match self {
            Bound::Included(end) => f.tuple_1("Included", end),
            Bound::Excluded(end) => f.tuple_1("Excluded", end),
            Bound::Unbounded => f.write_str("Unbounded"),
        }
    }
}

/// Prints a tuple `Continue` or `Break` with one field.
impl<B: uDebug, C: uDebug> uDebug for ControlFlow<B, C> {
    ghost document = { elim [
      | Continue x ↦ named_tuple "Continue" (C.document x ∷ [])
      | Break x ↦ named_tuple "Break" (B.document x ∷ [])
    ] };

    fn fmt<W: uWrite>(&self, f: &mut Formatter<W>) -> Result<(), W::Error> {
        match self {
            ControlFlow::Continue(value) => f.tuple_1("Continue", value),
            ControlFlow::Break(value) => f.tuple_1("Break", value),
        }
    }
}
