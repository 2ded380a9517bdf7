//! `uDisplay` of `String`, `Box`, `Rc`, `Arc` and `Cow`.
ghost use Rattle.std.specs.Arc.{arc_value};
ghost use Rattle.std.specs.Cow.{cow_value};
ghost use Rattle.std.specs.Prelude.{string_bytes};
ghost use Rattle.ufmt_core.specs.Document.{leaf};

mod texts;

use crate::display::uDisplay;
use std::alloc::Allocator;
use std::borrow::Cow;
use std::rc::Rc;
use std::sync::Arc;
use ufmt_core::{Formatter, uWrite};

/// Prints the text.
impl<A: Allocator> uDisplay for String<A> {
    ghost display = { λ s. leaf (string_bytes s) };

    fn fmt<W: uWrite>(&self, f: &mut Formatter<W>) -> Result<(), W::Error> {
        f.write_str(self.as_str())
    }
}

/// Prints the value in the box.
impl<T: uDisplay, A: Allocator> uDisplay for Box<T, A> {
    ghost display = { λ x. T.display x.value };

    fn fmt<W: uWrite>(&self, f: &mut Formatter<W>) -> Result<(), W::Error> {
        (**self).fmt(f)
    }
}

/// Prints the shared value.
impl<T: uDisplay, A: Allocator> uDisplay for Rc<T, A> {
    ghost display = { λ r. T.display r.value };

    fn fmt<W: uWrite>(&self, f: &mut Formatter<W>) -> Result<(), W::Error> {
        (**self).fmt(f)
    }
}

/// Prints the shared value.
impl<T: uDisplay, A: Allocator> uDisplay for Arc<T, A> {
    ghost display = { λ a. T.display (arc_value a) };

    fn fmt<W: uWrite>(&self, f: &mut Formatter<W>) -> Result<(), W::Error> {
        (**self).fmt(f)
    }
}

/// Prints the value, borrowed or owned.
impl<T: uDisplay> uDisplay for Cow<'_, T> {
    ghost display = { λ c. T.display (cow_value c) };

    fn fmt<W: uWrite>(&self, f: &mut Formatter<W>) -> Result<(), W::Error> {
        (**self).fmt(f)
    }
}
