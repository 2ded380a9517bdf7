//! `uDebug` of `&T` and `&mut T`.
use crate::formatter::Formatter;
use crate::uDebug;
use crate::write::uWrite;

/// Prints what the reference refers to.
impl<T: uDebug> uDebug for &T {
    ghost document = { λ x. T.document x.now };

    #[inline(always)]
    fn fmt<W: uWrite>(&self, f: &mut Formatter<W>) -> Result<(), W::Error> {
        (**self).fmt(f)
    }
}

/// Prints what the reference refers to.
impl<T: uDebug> uDebug for &mut T {
    ghost document = { λ x. T.document x.now };

    #[inline(always)]
    fn fmt<W: uWrite>(&self, f: &mut Formatter<W>) -> Result<(), W::Error> {
        (**self).fmt(f)
    }
}
