//! `uDebug` of `Vec`, `VecDeque`, `LinkedList` and `BinaryHeap`, which print as lists.
ghost use Rattle.std.specs.BinaryHeap.{heap_items};
ghost use Rattle.std.specs.Prelude.{map};
ghost use Rattle.ufmt_core.specs.Document.{documents, list_of};
ghost use Rattle.ufmt_core.specs.ValueDocuments.{vec_document};

use crate::formatter::Formatter;
use crate::list::fmt_list;
use crate::uDebug;
use crate::write::uWrite;
use std::alloc::Allocator;
use std::collections::{BinaryHeap, LinkedList, VecDeque};

/// Prints the items as a list.
impl<T: uDebug, A: Allocator> uDebug for Vec<T, A> {
    ghost document = { vec_document T.document };

    fn fmt<W: uWrite>(&self, f: &mut Formatter<W>) -> Result<(), W::Error> {
        f.list_of(self)
    }
}

/// Prints the items as a list, from front to back.
impl<T: uDebug, A: Allocator> uDebug for VecDeque<T, A> {
    ghost document = { λ q. list_of (documents (map T.document q.items)) };

    fn fmt<W: uWrite>(&self, f: &mut Formatter<W>) -> Result<(), W::Error> {
        fmt_list(self.iter(), f)
    }
}

/// Prints the items as a list, from front to back.
impl<T: uDebug, A: Allocator> uDebug for LinkedList<T, A> {
    ghost document = { λ items. list_of (documents (map T.document items)) };

    fn fmt<W: uWrite>(&self, f: &mut Formatter<W>) -> Result<(), W::Error> {
        fmt_list(self, f)
    }
}

/// Prints the items as a list, in the order of iteration: the greatest is the first, the others are not sorted.
impl<T: uDebug + Ord, A: Allocator> uDebug for BinaryHeap<T, A> {
    ghost document = { λ h. list_of (documents (map T.document (heap_items h))) };

    fn fmt<W: uWrite>(&self, f: &mut Formatter<W>) -> Result<(), W::Error> {
        f.list_of(self.as_slice())
    }
}
