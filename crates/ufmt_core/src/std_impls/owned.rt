//! `uDebug` of `Box` and `String`.
ghost use Rattle.ufmt_core.specs.ValueDocuments.{box_document, string};

use crate::formatter::Formatter;
use crate::quoted::write_quoted_text;
use crate::uDebug;
use crate::write::uWrite;
use std::alloc::Allocator;

/// Prints the value in the box.
impl<T: uDebug, A: Allocator> uDebug for Box<T, A> {
    ghost document = { box_document T.document };

    fn fmt<W: uWrite>(&self, f: &mut Formatter<W>) -> Result<(), W::Error> {
        (**self).fmt(f)
    }
}

/// Prints the text as `&str` does.
impl<A: Allocator> uDebug for String<A> {
    ghost document = { string };

    fn fmt<W: uWrite>(&self, f: &mut Formatter<W>) -> Result<(), W::Error> {
        write_quoted_text(f, self.as_str())
    }
}
