//! `uDisplayRadix`: texts of integers in binary, octal and hexadecimal digits.
ghost use Rattle.std.specs.Prelude.{◌≡◌, ◌<◌, ℕ, List, IsTrue, is_ok};
ghost use Rattle.ufmt_core.specs.Formatter.{Prints};
ghost use Rattle.ufmt.specs.declared.hex.HexOptions.{HexOptions};
ghost use Rattle.ufmt.specs.declared.radix.Radix.{Radix};
ghost use Rattle.ufmt.specs.Radix.{PadsToLength, radix_prefix};

pub(crate) mod digits;

use crate::hex::HexOptions;
use crate::number::InNotation;
use crate::number::notation::RadixDigits;
use ufmt_core::{Formatter, uWrite};

/// The base of a text's digits.
#[derive(Clone, Copy)]
pub enum Radix {
    /// Base 2, with the prefix `0b`.
    Binary,
    /// Base 8, with the prefix `0o`.
    Octal,
    /// Base 16, with the prefix `0x` or `0X`.
    Hexadecimal,
}

impl Radix {
    // Its letter is in upper case only in hexadecimal.
    pub(crate) fn prefix(self, upper_case: bool) -> &'static str
        ensures { result.now ≡ radix_prefix self upper_case }
    {
        match self {
            Radix::Binary => "0b",
            Radix::Octal => "0o",
            Radix::Hexadecimal if upper_case => "0X",
            Radix::Hexadecimal => "0x",
        }
    }
}

/// A value that prints itself in the digits of a radix, as Rust's `{:b}`, `{:o}`, `{:x}` and `{:X}` would.
pub trait uDisplayRadix {
    /// The value's text in a radix with these options.
    ghost radix_text: { Self → Radix → HexOptions → List ℕ };

    /// Writes the value's text in this radix with these options. On `Err` a prefix of it was written.
    /// Mode, depth and the writer's identity are as before.
    fn fmt_radix<W>(
        &self,
        f: &mut Formatter<W>,
        radix: Radix,
        options: HexOptions,
    ) -> Result<(), W::Error>
    where
        W: uWrite,
        requires { options.pad_char < 128 }
        ensures { Prints W.seen f.old (radix_text self.now radix options) (is_ok result) f.new };

    /// Returns whether padding makes each text of the value exactly `pad_length` characters long, where it is shorter: then a column
    /// counts it without padding. `false` says nothing.
    fn pads_radix(&self) -> bool
        ensures { IsTrue result → (radix : Radix) → PadsToLength (radix_text self.now radix) }
    {
        false
    }
}

/// For integers, nonzero integers, and a reference to, `Wrapping` of or `Saturating` of a type that has the trait.
impl<T: InNotation<RadixDigits>> uDisplayRadix for T {
    ghost radix_text = { λ x radix options. T.text x (record { radix = radix; options = options }) };

    #[inline(always)]
    fn fmt_radix<W: uWrite>(
        &self,
        f: &mut Formatter<W>,
        radix: Radix,
        options: HexOptions,
    ) -> Result<(), W::Error> {
        self.write_in(f, RadixDigits { radix, options })
    }

    fn pads_radix(&self) -> bool {
        self.pads_in()
    }
}
