//! References, `Wrapping` and `Saturating` in each notation.
use crate::number::InNotation;
use crate::number::notation::NotationOf;
use std::num::{Saturating, Wrapping};
use ufmt_core::{Formatter, uWrite};

/// Prints what the reference refers to.
impl<T, N: NotationOf<T>> InNotation<N> for &T {
    ghost text = { λ x. N.text x.now };

    fn write_in<W: uWrite>(&self, f: &mut Formatter<W>, notation: N) -> Result<(), W::Error> {
        notation.write(*self, f)
    }

    fn pads_in(&self) -> bool {
        N::pads_of(*self)
    }
}

/// Prints what the reference refers to.
impl<T, N: NotationOf<T>> InNotation<N> for &mut T {
    ghost text = { λ x. N.text x.now };

    fn write_in<W: uWrite>(&self, f: &mut Formatter<W>, notation: N) -> Result<(), W::Error> {
        notation.write(*self, f)
    }

    fn pads_in(&self) -> bool {
        N::pads_of(*self)
    }
}

/// Prints the number.
impl<T, N: NotationOf<T>> InNotation<N> for Wrapping<T> {
    ghost text = { λ x. N.text x.0 };

    fn write_in<W: uWrite>(&self, f: &mut Formatter<W>, notation: N) -> Result<(), W::Error> {
        notation.write(&self.0, f)
    }

    fn pads_in(&self) -> bool {
        N::pads_of(&self.0)
    }
}

/// Prints the number.
impl<T, N: NotationOf<T>> InNotation<N> for Saturating<T> {
    ghost text = { λ x. N.text x.0 };

    fn write_in<W: uWrite>(&self, f: &mut Formatter<W>, notation: N) -> Result<(), W::Error> {
        notation.write(&self.0, f)
    }

    fn pads_in(&self) -> bool {
        N::pads_of(&self.0)
    }
}
