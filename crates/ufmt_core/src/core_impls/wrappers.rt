//! `uDebug` of `Wrapping`, `Saturating` and `Reverse`.
ghost use Rattle.std.specs.Prelude.{[], ◌∷◌};
ghost use Rattle.ufmt_core.specs.ValueDocuments.{named_tuple};

use crate::formatter::Formatter;
use crate::uDebug;
use crate::write::uWrite;
use std::cmp::Reverse;
use std::num::{Saturating, Wrapping};

/// Prints the number.
impl<T: uDebug> uDebug for Wrapping<T> {
    ghost document = { λ x. T.document x.0 };

    fn fmt<W: uWrite>(&self, f: &mut Formatter<W>) -> Result<(), W::Error> {
        self.0.fmt(f)
    }
}

/// Prints the number.
impl<T: uDebug> uDebug for Saturating<T> {
    ghost document = { λ x. T.document x.0 };

    fn fmt<W: uWrite>(&self, f: &mut Formatter<W>) -> Result<(), W::Error> {
        self.0.fmt(f)
    }
}

/// Prints a tuple `Reverse` with one field.
impl<T: uDebug> uDebug for Reverse<T> {
    ghost document = { λ x. named_tuple "Reverse" (T.document x.0 ∷ []) };

    fn fmt<W: uWrite>(&self, f: &mut Formatter<W>) -> Result<(), W::Error> {
        f.tuple_1("Reverse", &self.0)
    }
}
