//! `uDisplayZeros`: decimal texts with zeros between the sign and the digits.
ghost use Rattle.std.specs.Prelude.{◌≡◌, ℕ, List, IsTrue, is_ok, pos};
ghost use Rattle.ufmt_core.specs.Decimal.{decimal};
ghost use Rattle.ufmt_core.specs.Formatter.{Prints};
ghost use Rattle.ufmt.specs.Column.{PadsToWidth};
ghost use Rattle.ufmt.specs.Zeros.{minus_if, zero_filled};

use crate::hex::HexOptions;
use crate::number::InNotation;
use crate::number::notation::ZerosTo;
use ufmt_core::internal::{text_of_u64, text_of_u128};
use ufmt_core::{Formatter, uWrite};

/// A number that prints itself with zeros before its digits, as Rust's `{:05}` would.
pub trait uDisplayZeros {
    /// The number's text with zeros up to a width.
    ghost zeros_text: { Self → ℕ → List ℕ };

    /// Writes the number's text. If it has fewer bytes than `width`, zeros come after the sign. On `Err`
    /// a prefix of that was written. Mode, depth and the writer's identity are as before.
    fn fmt_zeros<W>(&self, f: &mut Formatter<W>, width: usize) -> Result<(), W::Error>
    where
        W: uWrite,
        ensures { Prints W.seen f.old (zeros_text self.now width) (is_ok result) f.new };

    /// Returns whether padding makes the number's text exactly `width` characters long, where it is shorter: then a column
    /// counts it without padding. `false` says nothing.
    fn pads_zeros(&self) -> bool
        ensures { IsTrue result → PadsToWidth (zeros_text self.now) }
    {
        false
    }
}

/// For integers, nonzero integers, and a reference to, `Wrapping` of or `Saturating` of a type that has the trait.
impl<T: InNotation<ZerosTo>> uDisplayZeros for T {
    ghost zeros_text = { λ x width. T.text x (record { width = width }) };

    #[inline(always)]
    fn fmt_zeros<W: uWrite>(&self, f: &mut Formatter<W>, width: usize) -> Result<(), W::Error> {
        self.write_in(f, ZerosTo { width })
    }

    fn pads_zeros(&self) -> bool {
        self.pads_in()
    }
}

/// Writes a sign if asked, zeros, and the digits of `n`.
pub(crate) fn write_u64<W: uWrite>(
    is_negative: bool,
    n: u64,
    f: &mut Formatter<W>,
    width: usize,
) -> Result<(), W::Error>
    ensures { Prints W.seen f.old
        (zero_filled width (minus_if is_negative) (decimal (pos n))) (is_ok result) f.new }
{
    write_zeros(is_negative, text_of_u64(n, &mut [0; 20]), f, width)
}

/// Writes a sign if asked, zeros, and the digits of `n`.
pub(crate) fn write_u128<W: uWrite>(
    is_negative: bool,
    n: u128,
    f: &mut Formatter<W>,
    width: usize,
) -> Result<(), W::Error>
    ensures { Prints W.seen f.old
        (zero_filled width (minus_if is_negative) (decimal (pos n))) (is_ok result) f.new }
{
    write_zeros(is_negative, text_of_u128(n, &mut [0; 39]), f, width)
}

fn write_zeros<W: uWrite>(
    is_negative: bool,
    digits: &str,
    f: &mut Formatter<W>,
    width: usize,
) -> Result<(), W::Error>
    ensures { Prints W.seen f.old
        (zero_filled width (minus_if is_negative) digits.now) (is_ok result) f.new }
{
    let zeros = HexOptions {
        upper_case: false,
        pad_char: b'0',
        pad_length: width,
        ox_prefix: false,
    };
    zeros.write_after(sign_text(is_negative), f, digits)
}

fn sign_text(is_negative: bool) -> &'static str
    ensures { result.now ≡ minus_if is_negative }
{
    if is_negative { "-" } else { "" }
}
