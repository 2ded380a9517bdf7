//! `uDebug` of floats.
ghost use Rattle.std.specs.Prelude.{◌≡◌, true};
ghost use lib.Ieee.{binary32, binary64};
ghost use Rattle.ufmt_core.specs.FloatText.{float_text};
ghost use Rattle.ufmt_core.specs.ValueDocuments.{float32, float64};

use crate::ascii::text_from;
use crate::formatter::Formatter;
use crate::uDebug;
use crate::write::uWrite;
use ufmt_float::DebugText;

/// Prints the shortest decimal that reads as the float, as Rust does. Takes no memory.
impl uDebug for f32 {
    ghost document = { float32 };

    fn fmt<W: uWrite>(&self, f: &mut Formatter<W>) -> Result<(), W::Error> {
        f.write_str(text_from(text_of_f32(*self).as_bytes(), 0))
    }
}

/// Prints the shortest decimal that reads as the float, as Rust does. Takes no memory.
impl uDebug for f64 {
    ghost document = { float64 };

    fn fmt<W: uWrite>(&self, f: &mut Formatter<W>) -> Result<(), W::Error> {
        f.write_str(text_from(text_of_f64(*self).as_bytes(), 0))
    }
}

// The two functions take a float by value, because a contract knows the format of no other.

#[inline(always)]
fn text_of_f32(x: f32) -> DebugText
    ensures { result ≡ float_text binary32 true x }
{
    DebugText::of(x)
}

#[inline(always)]
fn text_of_f64(x: f64) -> DebugText
    ensures { result ≡ float_text binary64 true x }
{
    DebugText::of(x)
}
