//! `uDisplay` of references, `bool`, `char`, `&str`, the guards of a `RefCell`, `Wrapping` and `Saturating`.
ghost use Rattle.std.specs.Prelude.{encode_utf8};
ghost use Rattle.std.specs.RefCell.{ref_mut_value, ref_value};
ghost use Rattle.ufmt_core.specs.Document.{leaf};

use crate::display::uDisplay;
use std::cell::{Ref, RefMut};
use std::num::{Saturating, Wrapping};
use ufmt_core::{Formatter, uDebug, uWrite};

/// Prints what the reference refers to.
impl<T: uDisplay> uDisplay for &T {
    ghost display = { λ x. T.display x.now };

    fn fmt<W: uWrite>(&self, f: &mut Formatter<W>) -> Result<(), W::Error> {
        (**self).fmt(f)
    }
}

/// Prints what the reference refers to.
impl<T: uDisplay> uDisplay for &mut T {
    ghost display = { λ x. T.display x.now };

    fn fmt<W: uWrite>(&self, f: &mut Formatter<W>) -> Result<(), W::Error> {
        (**self).fmt(f)
    }
}

impl uDisplay for bool {
    ghost display = { ⟦<bool as uDebug>⟧.document };

    fn fmt<W: uWrite>(&self, f: &mut Formatter<W>) -> Result<(), W::Error> {
        uDebug::fmt(self, f)
    }
}

/// Prints the character's UTF-8 bytes.
impl uDisplay for char {
    ghost display = { λ c. leaf (encode_utf8 c) };

    fn fmt<W: uWrite>(&self, f: &mut Formatter<W>) -> Result<(), W::Error> {
        f.write_char(*self)
    }
}

/// Prints the text.
impl uDisplay for &str {
    ghost display = { λ s. leaf s.now };

    fn fmt<W: uWrite>(&self, f: &mut Formatter<W>) -> Result<(), W::Error> {
        f.write_str(self)
    }
}

/// Prints the borrowed value.
impl<T: uDisplay> uDisplay for Ref<'_, T> {
    ghost display = { λ r. T.display (ref_value r) };

    fn fmt<W: uWrite>(&self, f: &mut Formatter<W>) -> Result<(), W::Error> {
        (**self).fmt(f)
    }
}

/// Prints the borrowed value.
impl<T: uDisplay> uDisplay for RefMut<'_, T> {
    ghost display = { λ r. T.display (ref_mut_value r) };

    fn fmt<W: uWrite>(&self, f: &mut Formatter<W>) -> Result<(), W::Error> {
        (**self).fmt(f)
    }
}

/// Prints the number.
impl<T: uDisplay> uDisplay for Wrapping<T> {
    ghost display = { λ x. T.display x.0 };

    fn fmt<W: uWrite>(&self, f: &mut Formatter<W>) -> Result<(), W::Error> {
        self.0.fmt(f)
    }
}

/// Prints the number.
impl<T: uDisplay> uDisplay for Saturating<T> {
    ghost display = { λ x. T.display x.0 };

    fn fmt<W: uWrite>(&self, f: &mut Formatter<W>) -> Result<(), W::Error> {
        self.0.fmt(f)
    }
}
