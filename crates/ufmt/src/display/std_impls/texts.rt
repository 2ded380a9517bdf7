//! `uDisplay` of the texts that a `Box`, an `Rc`, an `Arc` or a `Cow` holds.
ghost use Rattle.std.specs.Arc.{arc_str_bytes};
ghost use Rattle.std.specs.Box.{boxed_str_bytes};
ghost use Rattle.std.specs.Cow.{cow_str_bytes};
ghost use Rattle.std.specs.Rc.{rc_str_bytes};
ghost use Rattle.ufmt_core.specs.Document.{leaf};

use crate::display::uDisplay;
use std::alloc::Allocator;
use std::borrow::CowStr;
use std::boxed::BoxedStr;
use std::rc::RcStr;
use std::sync::ArcStr;
use ufmt_core::{Formatter, uWrite};

/// Prints the text.
impl<A: Allocator> uDisplay for BoxedStr<A> {
    ghost display = { λ s. leaf (boxed_str_bytes s) };

    fn fmt<W: uWrite>(&self, f: &mut Formatter<W>) -> Result<(), W::Error> {
        f.write_str(self.as_str())
    }
}

/// Prints the text.
impl<A: Allocator> uDisplay for RcStr<A> {
    ghost display = { λ s. leaf (rc_str_bytes s) };

    fn fmt<W: uWrite>(&self, f: &mut Formatter<W>) -> Result<(), W::Error> {
        f.write_str(self.as_str())
    }
}

/// Prints the text.
impl<A: Allocator> uDisplay for ArcStr<A> {
    ghost display = { λ s. leaf (arc_str_bytes s) };

    fn fmt<W: uWrite>(&self, f: &mut Formatter<W>) -> Result<(), W::Error> {
        f.write_str(self.as_str())
    }
}

/// Prints the text.
impl<A: Allocator> uDisplay for CowStr<'_, A> {
    ghost display = { λ s. leaf (cow_str_bytes s) };

    fn fmt<W: uWrite>(&self, f: &mut Formatter<W>) -> Result<(), W::Error> {
        f.write_str(self.as_str())
    }
}
