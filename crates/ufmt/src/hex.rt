//! `uDisplayHex`: hexadecimal texts, and the padding of texts in every radix. The numbers that print so are below `radix`.
ghost use Rattle.std.specs.Prelude.{◌≡◌, ◌<◌, ◌-◌, ◌+◌, ◌↔◌, if◌then◌else◌, ℕ, List, IsTrue, replicate, is_ok};
ghost use Rattle.ufmt_core.specs.Formatter.{Prints};
ghost use Rattle.ufmt.specs.declared.hex.HexOptions.{HexOptions};
ghost use Rattle.ufmt.specs.Hex.{padded};
ghost use Rattle.ufmt.specs.Radix.{PadsToLength, padded_after, pads_first, prefix_in};

use crate::number::InNotation;
use crate::radix::Radix;
use ufmt_core::{Formatter, uWrite};

/// A value that prints itself as Rust's `{:x}` and `{:X}` would.
pub trait uDisplayHex {
    /// The value's text with these options.
    ghost hex_text: { Self → HexOptions → List ℕ };

    /// Writes the value's text with these options. On `Err` a prefix of it was written. Mode,
    /// depth and the writer's identity are as before.
    fn fmt_hex<W>(&self, f: &mut Formatter<W>, options: HexOptions) -> Result<(), W::Error>
    where
        W: uWrite,
        requires { options.pad_char < 128 }
        ensures { Prints W.seen f.old (hex_text self.now options) (is_ok result) f.new };

    /// Returns whether padding makes each text of the value exactly `pad_length` characters long, where it is shorter: then a column
    /// counts it without padding. `false` says nothing.
    fn pads_hex(&self) -> bool
        ensures { IsTrue result → PadsToLength (hex_text self.now) }
    {
        false
    }
}

/// For integers, nonzero integers, and a reference to, `Wrapping` of or `Saturating` of a type that has the trait.
impl<T: InNotation<HexOptions>> uDisplayHex for T {
    ghost hex_text = { λ x options. T.text x options };

    #[inline(always)]
    fn fmt_hex<W: uWrite>(
        &self,
        f: &mut Formatter<W>,
        options: HexOptions,
    ) -> Result<(), W::Error> {
        self.write_in(f, options)
    }

    fn pads_hex(&self) -> bool {
        self.pads_in()
    }
}

/// The letters, the prefix and the padding of a text in hexadecimal, binary or octal digits.
#[derive(Clone, Copy)]
pub struct HexOptions {
    /// Whether letters are in upper case, that of the prefix `0X` too. `0b` and `0o` have one case.
    pub upper_case: bool,
    /// The byte to pad with. Spaces come before the prefix, other bytes after it.
    pub pad_char: u8,
    /// The number of bytes to pad to, with the prefix.
    pub pad_length: usize,
    /// Whether the text has a prefix: `0x` or `0X`, `0b` or `0o`.
    pub ox_prefix: bool,
}

impl HexOptions {
    /// Returns whether the pad byte is ASCII. `with_stuff` and `fmt_hex` require it.
    pub fn has_ascii_pad(&self) -> bool
        ensures { IsTrue result ↔ (self.now.pad_char < 128) }
    {
        self.pad_char < 128
    }

    // The same options without padding.
    pub(crate) fn unpadded(self) -> HexOptions
        ensures { result ≡ record self { pad_length = 0 } }
    {
        HexOptions {
            pad_length: 0,
            ..self
        }
    }

    /// Writes `payload` with its prefix and padding. On `Err` a prefix of that was written.
    // In line, as what it calls is: options are mostly constants, and little is left of the tests of them.
    #[inline(always)]
    pub fn with_stuff<W: uWrite>(&self, f: &mut Formatter<W>, payload: &str) -> Result<(), W::Error>
        requires { self.now.pad_char < 128 }
        ensures { Prints W.seen f.old (padded self.now payload.now) (is_ok result) f.new }
    {
        self.write_after(self.prefix_in(Radix::Hexadecimal), f, payload)
    }

    /// Returns the prefix in this radix, which is empty if the text has none.
    pub(crate) fn prefix_in(&self, radix: Radix) -> &'static str
        ensures { result.now ≡ prefix_in radix self.now }
    {
        if !self.ox_prefix {
            return "";
        }
        radix.prefix(self.upper_case)
    }

    /// Writes `payload` after this prefix, with the padding. On `Err` a prefix of that was written.
    #[inline(always)]
    pub(crate) fn write_after<W: uWrite>(
        &self,
        prefix: &str,
        f: &mut Formatter<W>,
        payload: &str,
    ) -> Result<(), W::Error>
        requires { self.now.pad_char < 128 }
        ensures { Prints W.seen f.old (padded_after prefix.now self.now payload.now) (is_ok result)
            f.new }
    {
        let (before, after) = self.split_missing(self.missing(prefix.len(), payload.len()));
        self.write_padding(f, before)?;
        write_prefix(f, prefix)?;
        self.write_padding(f, after)?;
        f.write_str(payload)
    }

    // How many of the pad bytes come before the prefix, and how many after it.
    fn split_missing(&self, missing: usize) -> (usize, usize)
        ensures before { result.0 ≡ (if pads_first self.now then missing else 0) }
        ensures after { result.1 ≡ (if pads_first self.now then 0 else missing) }
    {
        if self.pads_first() {
            (missing, 0)
        } else {
            (0, missing)
        }
    }

    // How many pad bytes a prefix and a payload of these lengths need.
    fn missing(&self, prefix_length: usize, payload_length: usize) -> usize
        ensures { result ≡ self.now.pad_length - (prefix_length + payload_length) }
    {
        self.pad_length
            .saturating_sub(prefix_length)
            .saturating_sub(payload_length)
    }

    fn pads_first(&self) -> bool
        ensures { result ≡ pads_first self.now }
    {
        self.pad_char == b' '
    }

    // One piece for each pad byte. The remainder tells LLVM that it is ASCII.
    #[inline(always)]
    fn write_padding<W: uWrite>(&self, f: &mut Formatter<W>, count: usize) -> Result<(), W::Error>
        requires { self.now.pad_char < 128 }
        ensures { Prints W.seen f.old (replicate count self.now.pad_char) (is_ok result) f.new }
    {
        let pad = char::from(self.pad_char % 128);
        for _pad in 0..count {
            f.write_char(pad)?;
        }
        Ok(())
    }
}

// An empty prefix is no piece.
#[inline(always)]
fn write_prefix<W: uWrite>(f: &mut Formatter<W>, prefix: &str) -> Result<(), W::Error>
    ensures { Prints W.seen f.old prefix.now (is_ok result) f.new }
{
    if prefix.is_empty() {
        return Ok(());
    }
    f.write_str(prefix)
}
