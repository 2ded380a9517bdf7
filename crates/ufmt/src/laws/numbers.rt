//! Laws of numbers in the digits of a base.
ghost use Rattle.std.specs.Prelude.{◌≡◌, ◌<◌, ◌≤◌, [], ◌∷◌, ℕ, ℤ, List, is_ok, map, nat_abs};
ghost use Rattle.std.specs.Borrow.{Bor, MutBor};
ghost use Rattle.std.specs.Int.{w8, w16, w32, w64, w128};
ghost use Rattle.std.specs.Int.NonZero.{non_zero_u8_get, non_zero_u16_get, non_zero_u32_get, non_zero_u64_get, non_zero_u128_get, non_zero_usize_get, non_zero_i8_get, non_zero_i16_get, non_zero_i32_get, non_zero_i64_get, non_zero_i128_get, non_zero_isize_get};
ghost use Rattle.ufmt_core.specs.Formatter.{Prints, setting_of};
ghost use Rattle.ufmt_core.specs.Decimal.{sign_of};
ghost use Rattle.ufmt_core.specs.Document.{leaf};
ghost use Rattle.ufmt.specs.declared.decimal.Decimal.{Decimal};
ghost use Rattle.ufmt.specs.declared.hex.HexOptions.{HexOptions};
ghost use Rattle.ufmt.specs.FixedPoint.{EachFixedIsDenoted, FixedTextDetermines, OneFixedIsDenoted, fixed};
ghost use Rattle.ufmt_fixed.specs.Text.{fixed_digits};
ghost use Rattle.ufmt.specs.declared.radix.Radix.TheVariants.{Binary, Octal};
ghost use Rattle.ufmt_grammar.specs.Leaves.{IsLeaf};
ghost use Rattle.ufmt_grammar.specs.declared.class.Class.TheVariants.{Debug};
ghost use Rattle.ufmt.specs.Pieces.{column, each, pieces_text, text};
ghost use Rattle.ufmt.specs.Radix.{EachNumberIsDenoted, IsPadded, OneNumberIsDenoted, OneTextDenotes, PrintsBitsInRadix, PrintsInRadix, padded_after};
ghost use Rattle.ufmt.specs.Zeros.{IsZeroPadded, PrintsSignAndZeros, PrintsZeros, zero_filled, zero_padded};

use crate::column::Column;
use crate::decimal::Decimal;
use crate::display::uDisplay;
use crate::hex::HexOptions;
use crate::pieces::Line;
use crate::radix::uDisplayRadix;
use crate::zeros::uDisplayZeros;
use crate::{pieces, uwrite};
use std::num::{
    NonZeroI8, NonZeroI16, NonZeroI32, NonZeroI64, NonZeroI128, NonZeroIsize, NonZeroU8,
    NonZeroU16, NonZeroU32, NonZeroU64, NonZeroU128, NonZeroUsize, Saturating, Wrapping,
};
use ufmt_core::{Formatter, uDebug, uWrite};

// Promise (printing): Hexadecimal, binary and octal digits denote the number, and the padding is where the
// options put it. Also: `laws::numbers::padding_reaches_length`,
// `laws::numbers::unsigned_prints_in_each_radix`, `laws::numbers::signed_prints_bits_in_each_radix`,
// `laws::numbers::nonzero_prints_one_radix_text`, `laws::numbers::references_print_one_radix_text`,
// `laws::unsigned_prints_hexadecimal`, `laws::signed_prints_as_unsigned`,
// `laws::nonzero_prints_one_hexadecimal_text`, `laws::references_print_one_hexadecimal_text`.
/// In each base each whole number has exactly one text in lower case and one in upper case, and each
/// text denotes one number.
pub fn digits_are_one_text()
    ensures denoted { (base : ℕ) → 2 ≤ base → EachNumberIsDenoted base }
    ensures one_text { (base : ℕ) → 2 ≤ base → OneTextDenotes base }
    ensures one_number { (base : ℕ) → OneNumberIsDenoted base }
{}

/// A padded text is as long as `pad_length`, or as prefix and payload if these are longer. All its other
/// bytes are pad bytes.
pub fn padding_reaches_length()
    ensures { (prefix : List ℕ) (options : HexOptions) (payload : List ℕ) → IsPadded prefix
        options payload (padded_after prefix options payload) }
{}

/// An unsigned number prints its digits in each radix, padded.
pub fn unsigned_prints_in_each_radix()
    ensures of_u8 { PrintsInRadix ⟦<u8 as uDisplayRadix>⟧.radix_text }
    ensures of_u16 { PrintsInRadix ⟦<u16 as uDisplayRadix>⟧.radix_text }
    ensures of_u32 { PrintsInRadix ⟦<u32 as uDisplayRadix>⟧.radix_text }
    ensures of_u64 { PrintsInRadix ⟦<u64 as uDisplayRadix>⟧.radix_text }
    ensures of_u128 { PrintsInRadix ⟦<u128 as uDisplayRadix>⟧.radix_text }
    ensures of_usize { PrintsInRadix ⟦<usize as uDisplayRadix>⟧.radix_text }
{}

/// A signed number prints the digits of the unsigned number with its width and bits.
pub fn signed_prints_bits_in_each_radix()
    ensures of_i8 { PrintsBitsInRadix w8 ⟦<i8 as uDisplayRadix>⟧.radix_text ⟦<u8 as uDisplayRadix>⟧.radix_text }
    ensures of_i16 { PrintsBitsInRadix w16 ⟦<i16 as uDisplayRadix>⟧.radix_text ⟦<u16 as uDisplayRadix>⟧.radix_text }
    ensures of_i32 { PrintsBitsInRadix w32 ⟦<i32 as uDisplayRadix>⟧.radix_text ⟦<u32 as uDisplayRadix>⟧.radix_text }
    ensures of_i64 { PrintsBitsInRadix w64 ⟦<i64 as uDisplayRadix>⟧.radix_text ⟦<u64 as uDisplayRadix>⟧.radix_text }
    ensures of_i128 { PrintsBitsInRadix w128 ⟦<i128 as uDisplayRadix>⟧.radix_text ⟦<u128 as uDisplayRadix>⟧.radix_text }
    ensures of_isize { PrintsBitsInRadix w64 ⟦<isize as uDisplayRadix>⟧.radix_text ⟦<usize as uDisplayRadix>⟧.radix_text }
{}

/// A nonzero number prints the digits of the number in it.
pub fn nonzero_prints_one_radix_text()
    ensures of_u8 { (x : NonZeroU8) → ⟦<NonZeroU8 as uDisplayRadix>⟧.radix_text x ≡ ⟦<u8 as uDisplayRadix>⟧.radix_text (non_zero_u8_get x) }
    ensures of_u16 { (x : NonZeroU16) → ⟦<NonZeroU16 as uDisplayRadix>⟧.radix_text x ≡ ⟦<u16 as uDisplayRadix>⟧.radix_text (non_zero_u16_get x) }
    ensures of_u32 { (x : NonZeroU32) → ⟦<NonZeroU32 as uDisplayRadix>⟧.radix_text x ≡ ⟦<u32 as uDisplayRadix>⟧.radix_text (non_zero_u32_get x) }
    ensures of_u64 { (x : NonZeroU64) → ⟦<NonZeroU64 as uDisplayRadix>⟧.radix_text x ≡ ⟦<u64 as uDisplayRadix>⟧.radix_text (non_zero_u64_get x) }
    ensures of_u128 { (x : NonZeroU128) → ⟦<NonZeroU128 as uDisplayRadix>⟧.radix_text x ≡ ⟦<u128 as uDisplayRadix>⟧.radix_text (non_zero_u128_get x) }
    ensures of_usize { (x : NonZeroUsize) → ⟦<NonZeroUsize as uDisplayRadix>⟧.radix_text x ≡ ⟦<usize as uDisplayRadix>⟧.radix_text (non_zero_usize_get x) }
    ensures of_i8 { (x : NonZeroI8) → ⟦<NonZeroI8 as uDisplayRadix>⟧.radix_text x ≡ ⟦<i8 as uDisplayRadix>⟧.radix_text (non_zero_i8_get x) }
    ensures of_i16 { (x : NonZeroI16) → ⟦<NonZeroI16 as uDisplayRadix>⟧.radix_text x ≡ ⟦<i16 as uDisplayRadix>⟧.radix_text (non_zero_i16_get x) }
    ensures of_i32 { (x : NonZeroI32) → ⟦<NonZeroI32 as uDisplayRadix>⟧.radix_text x ≡ ⟦<i32 as uDisplayRadix>⟧.radix_text (non_zero_i32_get x) }
    ensures of_i64 { (x : NonZeroI64) → ⟦<NonZeroI64 as uDisplayRadix>⟧.radix_text x ≡ ⟦<i64 as uDisplayRadix>⟧.radix_text (non_zero_i64_get x) }
    ensures of_i128 { (x : NonZeroI128) → ⟦<NonZeroI128 as uDisplayRadix>⟧.radix_text x ≡ ⟦<i128 as uDisplayRadix>⟧.radix_text (non_zero_i128_get x) }
    ensures of_isize { (x : NonZeroIsize) → ⟦<NonZeroIsize as uDisplayRadix>⟧.radix_text x ≡ ⟦<isize as uDisplayRadix>⟧.radix_text (non_zero_isize_get x) }
{}

/// A reference prints the digits of the value that it refers to, and so does a number whose operators
/// wrap or saturate.
pub fn references_print_one_radix_text<T: uDisplayRadix>()
    ensures of_ref { (x : Bor T) → ⟦<&'static T as uDisplayRadix>⟧.radix_text x ≡ T.radix_text x.now }
    ensures of_ref_mut { (x : MutBor T) → ⟦<&'static mut T as uDisplayRadix>⟧.radix_text x ≡
        T.radix_text x.now }
    ensures of_wrapping { ⟦<Wrapping<T> as uDisplayRadix>⟧.radix_text ≡ (λ x. T.radix_text x.0) }
    ensures of_saturating { ⟦<Saturating<T> as uDisplayRadix>⟧.radix_text ≡ (λ x. T.radix_text x.0) }
{}

// Promise (printing): `zeros e to width` prints the sign, zeros and the digits of a whole number. It is as
// long as the width, or as long as the number's own text if that is longer. Also:
// `laws::numbers::integers_print_zeros`, `laws::numbers::nonzero_prints_zeros`,
// `laws::numbers::references_print_zeros`.
/// A zero-padded number is its sign, zeros, and its decimal digits. It is as long as the width, or as the
/// number's text if that is longer.
pub fn zeros_reach_width()
    ensures { (width : ℕ) (z : ℤ) → IsZeroPadded width z (zero_padded width z) }
{}

/// Each integer prints its decimal text with zeros after the sign.
pub fn integers_print_zeros()
    ensures of_u8 { PrintsZeros ⟦<u8 as uDisplayZeros>⟧.zeros_text }
    ensures of_u16 { PrintsZeros ⟦<u16 as uDisplayZeros>⟧.zeros_text }
    ensures of_u32 { PrintsZeros ⟦<u32 as uDisplayZeros>⟧.zeros_text }
    ensures of_u64 { PrintsZeros ⟦<u64 as uDisplayZeros>⟧.zeros_text }
    ensures of_u128 { PrintsZeros ⟦<u128 as uDisplayZeros>⟧.zeros_text }
    ensures of_usize { PrintsZeros ⟦<usize as uDisplayZeros>⟧.zeros_text }
    ensures of_i8 { PrintsSignAndZeros ⟦<i8 as uDisplayZeros>⟧.zeros_text }
    ensures of_i16 { PrintsSignAndZeros ⟦<i16 as uDisplayZeros>⟧.zeros_text }
    ensures of_i32 { PrintsSignAndZeros ⟦<i32 as uDisplayZeros>⟧.zeros_text }
    ensures of_i64 { PrintsSignAndZeros ⟦<i64 as uDisplayZeros>⟧.zeros_text }
    ensures of_i128 { PrintsSignAndZeros ⟦<i128 as uDisplayZeros>⟧.zeros_text }
    ensures of_isize { PrintsSignAndZeros ⟦<isize as uDisplayZeros>⟧.zeros_text }
{}

/// A nonzero number prints zeros as the number in it.
pub fn nonzero_prints_zeros()
    ensures of_u8 { (x : NonZeroU8) → ⟦<NonZeroU8 as uDisplayZeros>⟧.zeros_text x ≡ ⟦<u8 as uDisplayZeros>⟧.zeros_text (non_zero_u8_get x) }
    ensures of_u16 { (x : NonZeroU16) → ⟦<NonZeroU16 as uDisplayZeros>⟧.zeros_text x ≡ ⟦<u16 as uDisplayZeros>⟧.zeros_text (non_zero_u16_get x) }
    ensures of_u32 { (x : NonZeroU32) → ⟦<NonZeroU32 as uDisplayZeros>⟧.zeros_text x ≡ ⟦<u32 as uDisplayZeros>⟧.zeros_text (non_zero_u32_get x) }
    ensures of_u64 { (x : NonZeroU64) → ⟦<NonZeroU64 as uDisplayZeros>⟧.zeros_text x ≡ ⟦<u64 as uDisplayZeros>⟧.zeros_text (non_zero_u64_get x) }
    ensures of_u128 { (x : NonZeroU128) → ⟦<NonZeroU128 as uDisplayZeros>⟧.zeros_text x ≡ ⟦<u128 as uDisplayZeros>⟧.zeros_text (non_zero_u128_get x) }
    ensures of_usize { (x : NonZeroUsize) → ⟦<NonZeroUsize as uDisplayZeros>⟧.zeros_text x ≡ ⟦<usize as uDisplayZeros>⟧.zeros_text (non_zero_usize_get x) }
    ensures of_i8 { (x : NonZeroI8) → ⟦<NonZeroI8 as uDisplayZeros>⟧.zeros_text x ≡ ⟦<i8 as uDisplayZeros>⟧.zeros_text (non_zero_i8_get x) }
    ensures of_i16 { (x : NonZeroI16) → ⟦<NonZeroI16 as uDisplayZeros>⟧.zeros_text x ≡ ⟦<i16 as uDisplayZeros>⟧.zeros_text (non_zero_i16_get x) }
    ensures of_i32 { (x : NonZeroI32) → ⟦<NonZeroI32 as uDisplayZeros>⟧.zeros_text x ≡ ⟦<i32 as uDisplayZeros>⟧.zeros_text (non_zero_i32_get x) }
    ensures of_i64 { (x : NonZeroI64) → ⟦<NonZeroI64 as uDisplayZeros>⟧.zeros_text x ≡ ⟦<i64 as uDisplayZeros>⟧.zeros_text (non_zero_i64_get x) }
    ensures of_i128 { (x : NonZeroI128) → ⟦<NonZeroI128 as uDisplayZeros>⟧.zeros_text x ≡ ⟦<i128 as uDisplayZeros>⟧.zeros_text (non_zero_i128_get x) }
    ensures of_isize { (x : NonZeroIsize) → ⟦<NonZeroIsize as uDisplayZeros>⟧.zeros_text x ≡ ⟦<isize as uDisplayZeros>⟧.zeros_text (non_zero_isize_get x) }
{}

/// A reference prints zeros as the value that it refers to, and so does a number whose operators wrap or
/// saturate.
pub fn references_print_zeros<T: uDisplayZeros>()
    ensures of_ref { (x : Bor T) → ⟦<&'static T as uDisplayZeros>⟧.zeros_text x ≡ T.zeros_text x.now }
    ensures of_ref_mut { (x : MutBor T) → ⟦<&'static mut T as uDisplayZeros>⟧.zeros_text x ≡
        T.zeros_text x.now }
    ensures of_wrapping { ⟦<Wrapping<T> as uDisplayZeros>⟧.zeros_text ≡ (λ x. T.zeros_text x.0) }
    ensures of_saturating { ⟦<Saturating<T> as uDisplayZeros>⟧.zeros_text ≡ (λ x. T.zeros_text x.0) }
{}

// Promise (printing): A `Decimal` prints its sign and digits, with a point before its decimal places. Two of
// them with equal texts have equal values and places. `zeros` fills after the sign. The text is a debug leaf.
/// A fixed-point number's text is its sign, digits, and a point with as many digits as it has places. All
/// digits joined denote the value's magnitude. No text denotes two values, or one value with two numbers
/// of places. The text is a debug leaf, so it can be read again. Zeros up to a width are between the sign
/// and the digits.
pub fn decimals_denote_their_values()
    ensures denoted { EachFixedIsDenoted }
    ensures one_number { OneFixedIsDenoted }
    ensures one_decimal { FixedTextDetermines }
    ensures debug_leaf { (places : ℕ) (z : ℤ) → IsLeaf Debug (fixed places z) }
    ensures displayed { ⟦<Decimal as uDisplay>⟧.display ≡ (λ d. leaf (fixed d.places d.value)) }
    ensures debugged { ⟦<Decimal as uDebug>⟧.document ≡ ⟦<Decimal as uDisplay>⟧.display }
    ensures unfilled { (d : Decimal) → ⟦<Decimal as uDisplayZeros>⟧.zeros_text d 0 ≡ fixed d.places d.value }
    ensures filled { (d : Decimal) (width : ℕ) → ⟦<Decimal as uDisplayZeros>⟧.zeros_text d width
        ≡ zero_filled width (sign_of d.value) (fixed_digits d.places (nat_abs d.value)) }
{}

/// Writes `uwrite!(f, bin n with options, oct n with options, zeros z to width)`.
pub fn uwrite_numbers<W: uWrite, N: uDisplayRadix, Z: uDisplayZeros>(
    f: &mut Formatter<W>,
    n: &N,
    options: HexOptions,
    z: &Z,
    width: usize,
) -> Result<(), W::Error>
    requires { options.pad_char < 128 }
    ensures { Prints W.seen f.old
        (pieces_text (setting_of f.old)
        (text (N.radix_text n.now Binary options) ∷ text (N.radix_text n.now Octal options)
        ∷ text (Z.zeros_text z.now width) ∷ []))
        (is_ok result) f.new }
{
    uwrite!(f, bin n with options, oct n with options, zeros z to width)
}

/// Writes `pieces!(bin n with options, oct n with options in within, zeros z to width, each zeros zs to
/// width in within between t)`.
pub fn line_of_numbers<W: uWrite, N: uDisplayRadix, Z: uDisplayZeros>(
    f: &mut Formatter<W>,
    t: &str,
    n: &N,
    options: HexOptions,
    z: &Z,
    zs: &[Z],
    width: usize,
    within: Column,
) -> Result<(), W::Error>
    requires { options.pad_char < 128 }
    ensures { Prints W.seen f.old
        (pieces_text (setting_of f.old)
        (text (N.radix_text n.now Binary options)
        ∷ column within (text (N.radix_text n.now Octal options) ∷ [])
        ∷ text (Z.zeros_text z.now width)
        ∷ each t.now (map (λ x. column within (text (Z.zeros_text x width) ∷ []) ∷ []) zs.now) ∷ []))
        (is_ok result) f.new }
{
    pieces!(
        bin n with options, oct n with options in within, zeros z to width,
        each zeros zs to width in within between t
    )
    .print(f)
}
