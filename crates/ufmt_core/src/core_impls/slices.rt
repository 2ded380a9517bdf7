//! `uDebug` of slices and arrays.
ghost use Rattle.std.specs.Prelude.{map};
ghost use Rattle.ufmt_core.specs.Document.{documents, list_of};

use crate::formatter::Formatter;
use crate::uDebug;
use crate::write::uWrite;

/// Prints the items as a list.
impl<T: uDebug> uDebug for &[T] {
    ghost document = { λ items. list_of (documents (map T.document items.now)) };

    fn fmt<W: uWrite>(&self, f: &mut Formatter<W>) -> Result<(), W::Error> {
        f.list_of(self)
    }
}

/// Prints the items as a list.
impl<T: uDebug> uDebug for &mut [T] {
    ghost document = { λ items. list_of (documents (map T.document items.now)) };

    fn fmt<W: uWrite>(&self, f: &mut Formatter<W>) -> Result<(), W::Error> {
        let items: &[T] = self;
        items.fmt(f)
    }
}

/// Prints the items as a list. `N` may be any length.
impl<T: uDebug, const N: usize> uDebug for [T; N] {
    ghost document = { λ items. list_of (documents (map T.document items)) };

    fn fmt<W: uWrite>(&self, f: &mut Formatter<W>) -> Result<(), W::Error> {
        let items: &[T] = self;
        items.fmt(f)
    }
}
