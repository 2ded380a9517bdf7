//! `uDisplay` of floats.
ghost use Rattle.std.specs.Prelude.{◌≡◌, false};
ghost use lib.Ieee.{binary32, binary64};
ghost use Rattle.ufmt_core.specs.Document.{leaf};
ghost use Rattle.ufmt_core.specs.FloatText.{float_text};

use crate::display::uDisplay;
use ufmt_core::internal::text_from;
use ufmt_core::{Formatter, uWrite};
use ufmt_float::DisplayText;

/// Prints the shortest decimal that reads as the float, as Rust does: without an exponent. Takes no
/// memory.
impl uDisplay for f32 {
    ghost display = { λ x. leaf (float_text binary32 false x) };

    fn fmt<W: uWrite>(&self, f: &mut Formatter<W>) -> Result<(), W::Error> {
        f.write_str(text_from(text_of_f32(*self).as_bytes(), 0))
    }
}

/// Prints the shortest decimal that reads as the float, as Rust does: without an exponent. Takes no
/// memory.
impl uDisplay for f64 {
    ghost display = { λ x. leaf (float_text binary64 false x) };

    fn fmt<W: uWrite>(&self, f: &mut Formatter<W>) -> Result<(), W::Error> {
        f.write_str(text_from(text_of_f64(*self).as_bytes(), 0))
    }
}

// The two functions take a float by value: a contract knows of such a one that it has the format.

#[inline(always)]
fn text_of_f32(x: f32) -> DisplayText
    ensures { result ≡ float_text binary32 false x }
{
    DisplayText::of(x)
}

#[inline(always)]
fn text_of_f64(x: f64) -> DisplayText
    ensures { result ≡ float_text binary64 false x }
{
    DisplayText::of(x)
}
