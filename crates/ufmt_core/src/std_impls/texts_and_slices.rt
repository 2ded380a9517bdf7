//! `uDebug` of the texts and slices that a `Box`, an `Rc`, an `Arc` or a `Cow` holds.
ghost use Rattle.std.specs.Arc.{arc_slice_items, arc_str_bytes};
ghost use Rattle.std.specs.Box.{boxed_slice_items, boxed_str_bytes};
ghost use Rattle.std.specs.Cow.{cow_slice_items, cow_str_bytes};
ghost use Rattle.std.specs.Prelude.{map};
ghost use Rattle.std.specs.Rc.{rc_slice_items, rc_str_bytes};
ghost use Rattle.std.specs.Str.{chars};
ghost use Rattle.ufmt_core.specs.Document.{documents, leaf, list_of};
ghost use Rattle.ufmt_core.specs.Quoted.{quoted_text};

use crate::formatter::Formatter;
use crate::quoted::write_quoted_text;
use crate::uDebug;
use crate::write::uWrite;
use std::alloc::Allocator;
use std::borrow::{CowSlice, CowStr};
use std::boxed::{BoxedSlice, BoxedStr};
use std::rc::{RcSlice, RcStr};
use std::sync::{ArcSlice, ArcStr};

/// Prints the text as `&str` does.
impl<A: Allocator> uDebug for BoxedStr<A> {
    ghost document = { λ s. leaf (quoted_text (chars (boxed_str_bytes s))) };

    fn fmt<W: uWrite>(&self, f: &mut Formatter<W>) -> Result<(), W::Error> {
        write_quoted_text(f, self.as_str())
    }
}

/// Prints the text as `&str` does.
impl<A: Allocator> uDebug for RcStr<A> {
    ghost document = { λ s. leaf (quoted_text (chars (rc_str_bytes s))) };

    fn fmt<W: uWrite>(&self, f: &mut Formatter<W>) -> Result<(), W::Error> {
        write_quoted_text(f, self.as_str())
    }
}

/// Prints the text as `&str` does.
impl<A: Allocator> uDebug for ArcStr<A> {
    ghost document = { λ s. leaf (quoted_text (chars (arc_str_bytes s))) };

    fn fmt<W: uWrite>(&self, f: &mut Formatter<W>) -> Result<(), W::Error> {
        write_quoted_text(f, self.as_str())
    }
}

/// Prints the text as `&str` does.
impl<A: Allocator> uDebug for CowStr<'_, A> {
    ghost document = { λ s. leaf (quoted_text (chars (cow_str_bytes s))) };

    fn fmt<W: uWrite>(&self, f: &mut Formatter<W>) -> Result<(), W::Error> {
        write_quoted_text(f, self.as_str())
    }
}

/// Prints the items as a list.
impl<T: uDebug, A: Allocator> uDebug for BoxedSlice<T, A> {
    ghost document = { λ s. list_of (documents (map T.document (boxed_slice_items s))) };

    fn fmt<W: uWrite>(&self, f: &mut Formatter<W>) -> Result<(), W::Error> {
        f.list_of(self.as_slice())
    }
}

/// Prints the items as a list.
impl<T: uDebug, A: Allocator> uDebug for RcSlice<T, A> {
    ghost document = { λ s. list_of (documents (map T.document (rc_slice_items s))) };

    fn fmt<W: uWrite>(&self, f: &mut Formatter<W>) -> Result<(), W::Error> {
        f.list_of(self.as_slice())
    }
}

/// Prints the items as a list.
impl<T: uDebug, A: Allocator> uDebug for ArcSlice<T, A> {
    ghost document = { λ s. list_of (documents (map T.document (arc_slice_items s))) };

    fn fmt<W: uWrite>(&self, f: &mut Formatter<W>) -> Result<(), W::Error> {
        f.list_of(self.as_slice())
    }
}

/// Prints the items as a list.
impl<T: uDebug, A: Allocator> uDebug for CowSlice<'_, T, A> {
    ghost document = { λ s. list_of (documents (map T.document (cow_slice_items s))) };

    fn fmt<W: uWrite>(&self, f: &mut Formatter<W>) -> Result<(), W::Error> {
        f.list_of(self.as_slice())
    }
}
