//! Marks: how a value is written into a line.
ghost use Rattle.std.specs.Prelude.{◌≡◌, [], ◌∷◌, ◌<◌, ◌-◌, List, is_ok};
ghost use Rattle.std.specs.Fmt.{char_count};
ghost use Rattle.ufmt_core.specs.Formatter.{Prints, setting_of};
ghost use Rattle.ufmt.specs.Pieces.{Piece, hex, pieces_text, pretty, shown, text};

use super::Line;
use crate::column::{CharacterCounter, missing_after};
use crate::display::uDisplay;
use crate::fixed::uDisplayFixed;
use crate::hex::{HexOptions, uDisplayHex};
use crate::number::notation::{NotationOf, RadixDigits, ZerosTo};
use crate::print::fmt_pretty;
use crate::radix::{Radix, uDisplayRadix};
use crate::zeros::uDisplayZeros;
use ufmt_core::{Formatter, uDebug, uWrite};

/// A way to write a value into a line.
pub trait Mark<T> {
    /// The value's pieces.
    ghost pieces: { Self → T → List Piece };

    /// Writes the value's pieces, as `Line::print` does.
    fn print_value<W: uWrite>(&self, value: &T, f: &mut Formatter<W>) -> Result<(), W::Error>
        ensures { Prints W.seen f.old
            (pieces_text (setting_of f.old) (pieces self.now value.now)) (is_ok result) f.new };

    /// Returns how many characters the value's pieces have less than this width, where this formatter
    /// would write them. By default it prints them to count them, up to the width.
    fn missing_characters<W: uWrite>(&self, value: &T, f: &Formatter<W>, width: usize) -> usize
        ensures { result ≡ width -
            char_count (pieces_text (setting_of f.now) (pieces self.now value.now)) }
    {
        let mut counting = f.with_writer(CharacterCounter::new(width));
        let printed = self.print_value(value, &mut counting);
        missing_after(printed, counting)
    }
}

/// Writes a value by `uDebug`, in the formatter's mode.
#[derive(Clone, Copy, Drop)]
pub struct Debug;

impl<T: uDebug> Mark<T> for Debug {
    ghost pieces = { λ _ x. shown (T.document x) ∷ [] };

    // Out of line: all lines have one copy of it for each type.
    #[inline(never)]
    fn print_value<W: uWrite>(&self, value: &T, f: &mut Formatter<W>) -> Result<(), W::Error> {
        value.fmt(f)
    }
}

/// Writes a value by `uDisplay`.
#[derive(Clone, Copy, Drop)]
pub struct Display;

impl<T: uDisplay> Mark<T> for Display {
    ghost pieces = { λ _ x. shown (T.display x) ∷ [] };

    #[inline(always)]
    fn print_value<W: uWrite>(&self, value: &T, f: &mut Formatter<W>) -> Result<(), W::Error> {
        value.fmt(f)
    }
}

/// By `uDebug` in pretty mode, at the formatter's depth.
#[derive(Clone, Copy, Drop)]
pub struct Pretty;

impl<T: uDebug> Mark<T> for Pretty {
    ghost pieces = { λ _ x. pretty (T.document x) ∷ [] };

    #[inline(always)]
    fn print_value<W: uWrite>(&self, value: &T, f: &mut Formatter<W>) -> Result<(), W::Error> {
        fmt_pretty(value, f)
    }
}

/// Writes a number in hexadecimal digits, with these options. The pad byte is ASCII.
#[derive(Clone, Copy, Drop)]
pub struct Hex {
    pub options: HexOptions,
    ghost ascii: { options.pad_char < 128 },
}

impl<T: uDisplayHex> Mark<T> for Hex {
    ghost pieces = { λ h x. hex (T.hex_text x h.options) ∷ [] };

    #[inline(always)]
    fn print_value<W: uWrite>(&self, value: &T, f: &mut Formatter<W>) -> Result<(), W::Error> {
        value.fmt_hex(f, self.options)
    }

    fn missing_characters<W: uWrite>(&self, value: &T, f: &Formatter<W>, width: usize) -> usize {
        missing_padded(self.options, value, f, width)
    }
}

/// Writes a number in the digits of a radix, with these options. The pad byte is ASCII.
#[derive(Clone, Copy, Drop)]
pub struct InRadix {
    pub radix: Radix,
    pub options: HexOptions,
    ghost ascii: { options.pad_char < 128 },
}

impl<T: uDisplayRadix> Mark<T> for InRadix {
    ghost pieces = { λ m x. text (T.radix_text x m.radix m.options) ∷ [] };

    #[inline(always)]
    fn print_value<W: uWrite>(&self, value: &T, f: &mut Formatter<W>) -> Result<(), W::Error> {
        value.fmt_radix(f, self.radix, self.options)
    }

    fn missing_characters<W: uWrite>(&self, value: &T, f: &Formatter<W>, width: usize) -> usize {
        let digits = RadixDigits {
            radix: self.radix,
            options: self.options,
        };
        missing_padded(digits, value, f, width)
    }
}

/// Writes a number in decimal digits, with zeros after the sign up to this width in bytes.
#[derive(Clone, Copy, Drop)]
pub struct Zeros {
    pub width: usize,
}

impl<T: uDisplayZeros> Mark<T> for Zeros {
    ghost pieces = { λ m x. text (T.zeros_text x m.width) ∷ [] };

    #[inline(always)]
    fn print_value<W: uWrite>(&self, value: &T, f: &mut Formatter<W>) -> Result<(), W::Error> {
        value.fmt_zeros(f, self.width)
    }

    fn missing_characters<W: uWrite>(&self, value: &T, f: &Formatter<W>, width: usize) -> usize {
        missing_padded(ZerosTo { width: self.width }, value, f, width)
    }
}

/// Writes a float with this number of decimals.
#[derive(Clone, Copy, Drop)]
pub struct Decimals {
    pub count: usize,
}

impl<T: uDisplayFixed> Mark<T> for Decimals {
    ghost pieces = { λ m x. text (T.fixed_text x m.count) ∷ [] };

    #[inline(always)]
    fn print_value<W: uWrite>(&self, value: &T, f: &mut Formatter<W>) -> Result<(), W::Error> {
        value.fmt_fixed(f, self.count)
    }

    fn missing_characters<W: uWrite>(&self, value: &T, _f: &Formatter<W>, width: usize) -> usize {
        value.missing_fixed(self.count, width)
    }
}

/// A value with its mark.
#[derive(Clone, Copy, Drop)]
pub struct Marked<'a, T, M> {
    pub value: &'a T,
    pub mark: M,
}

impl<T, M: Mark<T>> Line for Marked<'_, T, M> {
    ghost pieces = { λ p. M.pieces p.mark p.value.now };

    #[inline(always)]
    fn print<W: uWrite>(&self, f: &mut Formatter<W>) -> Result<(), W::Error> {
        self.mark.print_value(self.value, f)
    }
}

// How many characters a value in this notation is short of the width. Where padding makes its text as long as asked, the text is
// counted without it, since a padding of 2^63 would take 2^63 steps.
fn missing_padded<T, N: NotationOf<T>, W: uWrite>(
    notation: N,
    value: &T,
    f: &Formatter<W>,
    width: usize,
) -> usize
    requires { N.is_ascii notation }
    ensures { result ≡ width - char_count (N.text value.now notation) }
{
    let mut counting = f.with_writer(CharacterCounter::new(width));
    if N::pads_of(value) {
        let (unpadded, length) = notation.split_padding();
        let printed = unpadded.write(value, &mut counting);
        let missing = missing_after(printed, counting);
        return missing.min(width.saturating_sub(length));
    }
    let printed = notation.write(value, &mut counting);
    missing_after(printed, counting)
}
