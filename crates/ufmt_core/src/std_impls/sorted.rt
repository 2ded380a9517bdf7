//! `uDebug` of `BTreeSet` and `BTreeMap`, which print in the order of their keys.
ghost use Rattle.ufmt_core.specs.ValueDocuments.{sorted_map_document, sorted_set_document};

use crate::formatter::Formatter;
use crate::map::fmt_map;
use crate::set::fmt_set;
use crate::uDebug;
use crate::write::uWrite;
use std::alloc::Allocator;
use std::collections::{BTreeMap, BTreeSet};

/// Prints the items as a set, in order.
impl<T: uDebug + Ord, A: Allocator> uDebug for BTreeSet<T, A> {
    ghost document = { sorted_set_document T.document };

    fn fmt<W: uWrite>(&self, f: &mut Formatter<W>) -> Result<(), W::Error> {
        fmt_set(self.iter(), f)
    }
}

/// Prints the entries as a map, in the order of their keys.
impl<K: uDebug + Ord, V: uDebug, A: Allocator> uDebug for BTreeMap<K, V, A> {
    ghost document = { sorted_map_document K.document V.document };

    fn fmt<W: uWrite>(&self, f: &mut Formatter<W>) -> Result<(), W::Error> {
        fmt_map(self.iter(), f)
    }
}
