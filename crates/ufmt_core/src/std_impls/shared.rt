//! `uDebug` of `Rc`, `Weak`, `Arc` and `Cow`.
ghost use Rattle.std.specs.Arc.{arc_value};
ghost use Rattle.std.specs.Cow.{cow_value};
ghost use Rattle.ufmt_core.specs.ValueDocuments.{named};

use crate::formatter::Formatter;
use crate::uDebug;
use crate::write::uWrite;
use std::alloc::Allocator;
use std::borrow::Cow;
use std::rc::{Rc, Weak};
use std::sync::Arc;

/// Prints the shared value.
impl<T: uDebug, A: Allocator> uDebug for Rc<T, A> {
    ghost document = { λ r. T.document r.value };

    fn fmt<W: uWrite>(&self, f: &mut Formatter<W>) -> Result<(), W::Error> {
        (**self).fmt(f)
    }
}

/// Prints `(Weak)`, whether or not the value is still there.
impl<T, A: Allocator> uDebug for Weak<T, A> {
    ghost document = { λ _. named "(Weak)" };

    fn fmt<W: uWrite>(&self, f: &mut Formatter<W>) -> Result<(), W::Error> {
        f.write_str("(Weak)")
    }
}

/// Prints the shared value.
impl<T: uDebug, A: Allocator> uDebug for Arc<T, A> {
    ghost document = { λ a. T.document (arc_value a) };

    fn fmt<W: uWrite>(&self, f: &mut Formatter<W>) -> Result<(), W::Error> {
        (**self).fmt(f)
    }
}

/// Prints the value, borrowed or owned.
impl<T: uDebug> uDebug for Cow<'_, T> {
    ghost document = { λ c. T.document (cow_value c) };

    fn fmt<W: uWrite>(&self, f: &mut Formatter<W>) -> Result<(), W::Error> {
        (**self).fmt(f)
    }
}
