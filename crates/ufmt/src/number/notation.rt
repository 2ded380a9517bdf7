#![tactic(auto, using(crate::proofs::PaddedWidths::pads_in_hexadecimal, crate::proofs::PaddedWidths::pads_in_radix, crate::proofs::PaddedWidths::pads_with_zeros))]

//! Notations, and what an integer is in each.
ghost use Rattle.std.specs.Prelude.{◌≡◌, ◌<◌, ◌^◌, ⊤, List, length, max, ℕ, ℤ, nat_abs, IsTrue, is_ok};
ghost use Rattle.std.specs.Fmt.{char_count};
ghost use Rattle.std.specs.Int.{is_negative};
ghost use Rattle.ufmt_core.specs.Formatter.{Prints};
ghost use Rattle.ufmt.specs.Column.{PadsToWidth};
ghost use Rattle.ufmt.specs.Hex.{padded_hexadecimal};
ghost use Rattle.ufmt.specs.Radix.{PadsToLength, padded_in};
ghost use Rattle.ufmt.specs.Zeros.{zero_padded};
ghost use Rattle.ufmt.specs.declared.radix.Radix.{Radix};

use crate::hex::{HexOptions, uDisplayHex};
use crate::radix::digits::{Digits, digits_text, radix_digits};
use crate::radix::{Radix, uDisplayRadix};
use crate::zeros::uDisplayZeros;
use ufmt_core::{Formatter, uWrite};

/// A way to write numbers.
pub trait Notation: Copy {
    /// Whether its pad byte is ASCII.
    ghost is_ascii: { Self → Type 0 };

    /// The text of an integer with these bits.
    ghost integer_text: { ℤ → ℕ → Self → List ℕ };

    /// Texts that padding makes exactly as long as the notation asks.
    ghost pads: { (Self → List ℕ) → Type 0 };

    /// Writes an integer with this sign, this magnitude and these bits. Its digits are made in the buffer for binary ones, or in the
    /// one for hexadecimal ones, so that none is larger than it must be.
    fn write_integer<D: Digits, W: uWrite>(
        self,
        is_minus: bool,
        magnitude: D,
        bits: D,
        binary: &mut [u8],
        hexadecimal: &mut [u8],
        f: &mut Formatter<W>,
    ) -> Result<(), W::Error>
        requires some_binary { 0 < length binary.old }
        requires some_hexadecimal { 0 < length hexadecimal.old }
        requires binary { D.value bits < 2 ^ length binary.old }
        requires hexadecimal { D.value bits < 16 ^ length hexadecimal.old }
        requires ascii_pad { is_ascii self }
        ensures { (z : ℤ) → is_negative z ≡ is_minus → nat_abs z ≡ D.value magnitude
            → Prints W.seen f.old (integer_text z (D.value bits) self) (is_ok result) f.new };

    /// Returns the notation without padding, and the length to which it pads.
    fn split_padding(self) -> (Self, usize)
        ensures ascii { is_ascii self → is_ascii result.0 }
        ensures length { (text : Self → List ℕ) → pads text → is_ascii self
            → char_count (text self) ≡ max result.1 (char_count (text result.0)) };

    /// Shows that the texts of integers are so.
    fn prove_pads()
        ensures { (z : ℤ) (n : ℕ) → pads (integer_text z n) };
}

/// Hexadecimal digits.
impl Notation for HexOptions {
    ghost is_ascii = { λ options. options.pad_char < 128 };

    ghost integer_text = { λ z n options. padded_hexadecimal options n };

    ghost pads = { PadsToLength };

    #[inline(always)]
    fn write_integer<D: Digits, W: uWrite>(
        self,
        _is_minus: bool,
        _magnitude: D,
        bits: D,
        _binary: &mut [u8],
        hexadecimal: &mut [u8],
        f: &mut Formatter<W>,
    ) -> Result<(), W::Error> {
        let text = digits_text::<D, 16>(bits, self.upper_case, hexadecimal);
        self.with_stuff(f, text)
    }

    fn split_padding(self) -> (Self, usize) {
        (self.unpadded(), self.pad_length)
    }

    fn prove_pads() {}
}

/// The digits of a radix.
#[derive(Clone, Copy)]
pub struct RadixDigits {
    pub(crate) radix: Radix,
    pub(crate) options: HexOptions,
}

impl Notation for RadixDigits {
    ghost is_ascii = { λ digits. digits.options.pad_char < 128 };

    ghost integer_text = { λ z n digits. padded_in digits.radix digits.options n };

    ghost pads = { λ text. (radix : Radix) → PadsToLength (λ options. text (record { radix = radix; options = options })) };

    #[inline(always)]
    fn write_integer<D: Digits, W: uWrite>(
        self,
        _is_minus: bool,
        _magnitude: D,
        bits: D,
        binary: &mut [u8],
        _hexadecimal: &mut [u8],
        f: &mut Formatter<W>,
    ) -> Result<(), W::Error> {
        let text = radix_digits(bits, self.radix, self.options.upper_case, binary);
        let prefix = self.options.prefix_in(self.radix);
        self.options.write_after(prefix, f, text)
    }

    fn split_padding(self) -> (Self, usize) {
        let options = self.options.unpadded();
        (RadixDigits { options, ..self }, self.options.pad_length)
    }

    fn prove_pads() {}
}

/// Decimal digits, with zeros after the sign up to a width in bytes.
#[derive(Clone, Copy)]
pub struct ZerosTo {
    pub(crate) width: usize,
}

impl Notation for ZerosTo {
    ghost is_ascii = { λ _. ⊤ };

    ghost integer_text = { λ z n zeros. zero_padded zeros.width z };

    ghost pads = { λ text. PadsToWidth (λ width. text (record { width = width })) };

    #[inline(always)]
    fn write_integer<D: Digits, W: uWrite>(
        self,
        is_minus: bool,
        magnitude: D,
        _bits: D,
        _binary: &mut [u8],
        _hexadecimal: &mut [u8],
        f: &mut Formatter<W>,
    ) -> Result<(), W::Error> {
        magnitude.write_zeros(is_minus, f, self.width)
    }

    fn split_padding(self) -> (Self, usize) {
        (ZerosTo { width: 0 }, self.width)
    }

    fn prove_pads() {}
}

/// A notation in which the values of a type are written.
pub trait NotationOf<T>: Notation {
    /// A value's text.
    ghost text: { T → Self → List ℕ };

    /// Writes the value's text. On `Err` a prefix of it was written.
    fn write<W: uWrite>(self, value: &T, f: &mut Formatter<W>) -> Result<(), W::Error>
        requires { Self.is_ascii self }
        ensures { Prints W.seen f.old (text value.now self) (is_ok result) f.new };

    /// Whether padding makes each text of the value exactly as long as the notation asks.
    fn pads_of(value: &T) -> bool
        ensures { IsTrue result → Self.pads (text value.now) };
}

impl<T: uDisplayHex> NotationOf<T> for HexOptions {
    ghost text = { λ x options. T.hex_text x options };

    #[inline(always)]
    fn write<W: uWrite>(self, value: &T, f: &mut Formatter<W>) -> Result<(), W::Error> {
        value.fmt_hex(f, self)
    }

    fn pads_of(value: &T) -> bool {
        value.pads_hex()
    }
}

impl<T: uDisplayRadix> NotationOf<T> for RadixDigits {
    ghost text = { λ x digits. T.radix_text x digits.radix digits.options };

    #[inline(always)]
    fn write<W: uWrite>(self, value: &T, f: &mut Formatter<W>) -> Result<(), W::Error> {
        value.fmt_radix(f, self.radix, self.options)
    }

    fn pads_of(value: &T) -> bool {
        value.pads_radix()
    }
}

impl<T: uDisplayZeros> NotationOf<T> for ZerosTo {
    ghost text = { λ x zeros. T.zeros_text x zeros.width };

    #[inline(always)]
    fn write<W: uWrite>(self, value: &T, f: &mut Formatter<W>) -> Result<(), W::Error> {
        value.fmt_zeros(f, self.width)
    }

    fn pads_of(value: &T) -> bool {
        value.pads_zeros()
    }
}
