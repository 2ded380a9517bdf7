//! `Decimal`: fixed-point numbers, printed without floats.
ghost use Rattle.std.specs.Prelude.{◌≡◌, ◌/◌, ◌%◌, ◌^◌, is_ok, nat_abs};
ghost use Rattle.std.specs.Int.{is_negative};
ghost use Rattle.ufmt_core.specs.Decimal.{sign_of};
ghost use Rattle.ufmt_core.specs.Document.{leaf};
ghost use Rattle.ufmt_core.specs.Formatter.{Prints};
ghost use Rattle.ufmt.specs.FixedPoint.{fixed};
ghost use Rattle.ufmt_fixed.specs.Text.{fixed_digits};
ghost use Rattle.ufmt.specs.Zeros.{zero_filled};

use crate::display::uDisplay;
use crate::zeros::{uDisplayZeros, write_u64};
use ufmt_core::{Formatter, uDebug, uWrite};

/// A fixed-point number, `value` over ten to the power of `places`. `Decimal { value: -125, places: 1 }`
/// prints `-12.5`.
#[derive(Clone, Copy, Debug, PartialEq, Eq)]
pub struct Decimal {
    pub value: i64,
    /// How many digits come after the point. Without any there is no point.
    pub places: u8,
}

/// Prints a digit before the point, or more, and `places` digits after it. Zeros fill what the value
/// has not, however many places there are.
impl uDisplay for Decimal {
    ghost display = { λ d. leaf (fixed d.places d.value) };

    fn fmt<W: uWrite>(&self, f: &mut Formatter<W>) -> Result<(), W::Error> {
        self.write(f, 0)
    }
}

/// Prints the number as `uDisplay` does.
impl uDebug for Decimal {
    ghost document = { λ d. leaf (fixed d.places d.value) };

    fn fmt<W: uWrite>(&self, f: &mut Formatter<W>) -> Result<(), W::Error> {
        self.write(f, 0)
    }
}

/// Counts the point and the digits after it towards the width.
impl uDisplayZeros for Decimal {
    ghost zeros_text = { λ d width. zero_filled width (sign_of d.value)
        (fixed_digits d.places (nat_abs d.value)) };

    fn fmt_zeros<W: uWrite>(&self, f: &mut Formatter<W>, width: usize) -> Result<(), W::Error> {
        self.write(f, width)
    }

    #[tactic(auto, using(crate::proofs::PaddedWidths::pads_fixed))]
    fn pads_zeros(&self) -> bool {
        true
    }
}

impl Decimal {
    // Writes the number, with zeros after its sign up to the width.
    fn write<W: uWrite>(&self, f: &mut Formatter<W>, width: usize) -> Result<(), W::Error>
        ensures { Prints W.seen f.old
            (zero_filled width (sign_of self.now.value)
            (fixed_digits self.now.places (nat_abs self.now.value)))
            (is_ok result) f.new }
    {
        let is_negative = self.is_negative();
        let (whole, part) = self.split();
        let places = usize::from(self.places);
        if places == 0 {
            return write_u64(is_negative, whole, f, width);
        }
        let whole_width = width.saturating_sub(places + 1);
        write_u64(is_negative, whole, f, whole_width)?;
        f.write_str(".")?;
        write_u64(false, part, f, places)
    }

    fn is_negative(&self) -> bool
        ensures { result ≡ is_negative self.now.value }
    {
        self.value < 0
    }

    // The number before the point, and the number that the digits after it are.
    #[tactic(auto, using(crate::proofs::FixedPoint::power_positive))]
    fn split(&self) -> (u64, u64)
        ensures whole { result.0 ≡ nat_abs self.now.value / 10 ^ self.now.places }
        ensures part { result.1 ≡ nat_abs self.now.value % 10 ^ self.now.places }
    {
        let magnitude = self.value.unsigned_abs();
        match 10u64.checked_pow(u32::from(self.places)) {
            Some(scale) => (magnitude / scale, magnitude % scale),
            None => (0, magnitude),
        }
    }
}
