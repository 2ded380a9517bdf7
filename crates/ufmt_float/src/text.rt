//! Texts of floats, written from the right.
ghost use Rattle.core.specs.Prelude.{◌≡◌, ℕ, List, ◌+◌, ◌^◌, ◌<◌, ◌≤◌, ◌⊎◌, [], length, drop, true, false, IsTrue, if◌then◌else◌};
ghost use lib.Chars.{codes};
ghost use Rattle.core.specs.Str.{IsAscii};
ghost use Rattle.ufmt_float.specs.Put.{IsPut};
ghost use Rattle.ufmt_float.specs.Shortest.{distance};
ghost use Rattle.ufmt_float.specs.Text.{pointed_text, plain_text, exponent_text, scientific_text, is_plain, decimal_text, IsFloatText};

use crate::digits::{Decimal, decimal_of};
use crate::parts::{Float, Parts, parts_of};
use crate::put::{
    count_digits, put_byte, put_decimal, put_last_digits, put_sign, put_word, put_zeros,
};
use crate::scale::POWER_BIAS;
use core::marker::Model;

// Each function writes before the index `end`, and returns where its text starts.

/// Writes `digits / 10 ^ places` with all its decimals.
fn put_fixed(buffer: &mut [u8], end: usize, digits: u64, places: usize) -> usize
    requires { (length (pointed_text digits places) ≤ end) × (end ≤ length buffer.old) }
    ensures { IsPut (pointed_text digits places) end buffer.old result buffer.new }
{
    let whole = put_last_digits(buffer, end, digits, places);
    let end = put_byte(buffer, end - places, b'.');
    put_decimal(buffer, end, whole)
}

/// Writes a decimal with no exponent.
fn put_plain(buffer: &mut [u8], end: usize, debug: bool, digits: u64, power: u64) -> usize
    requires { (length (plain_text debug digits power) ≤ end) × (end ≤ length buffer.old) }
    ensures { IsPut (plain_text debug digits power) end buffer.old result buffer.new }
{
    if power < POWER_BIAS {
        return put_fixed(buffer, end, digits, (POWER_BIAS - power) as usize);
    }
    let end = put_mark(buffer, end, debug);
    let end = put_zeros(buffer, end, (power - POWER_BIAS) as usize);
    put_decimal(buffer, end, digits)
}

/// Writes `.0` if `debug`, else nothing.
#[inline(always)]
fn put_mark(buffer: &mut [u8], end: usize, debug: bool) -> usize
    requires { (length (if debug then (codes ".0") else []) ≤ end) × (end ≤ length buffer.old) }
    ensures { IsPut (if debug then (codes ".0") else []) end buffer.old result buffer.new }
{
    if !debug {
        return end;
    }
    let end = put_byte(buffer, end, b'0');
    put_byte(buffer, end, b'.')
}

/// Returns the exponent `power - 400` without its sign.
#[inline(always)]
fn exponent_size(power: u64) -> u64
    ensures { result ≡ distance power 400 }
{
    if power < POWER_BIAS {
        POWER_BIAS - power
    } else {
        power - POWER_BIAS
    }
}

/// Writes the exponent `power - 400`, after an `e`.
fn put_exponent(buffer: &mut [u8], end: usize, power: u64) -> usize
    requires small { power < 1000 }
    requires room { (5 ≤ end) × (end ≤ length buffer.old) }
    ensures { IsPut (exponent_text power) end buffer.old result buffer.new }
{
    let end = put_decimal(buffer, end, exponent_size(power));
    let end = put_sign(buffer, end, power < POWER_BIAS);
    put_byte(buffer, end, b'e')
}

/// Writes a decimal with one digit before the point, and an exponent.
// Not inlined: else its registers would be saved for each plain text too.
#[inline(never)]
fn put_scientific(buffer: &mut [u8], end: usize, digits: u64, power: u64) -> usize
    requires sizes { (digits < 10 ^ 17) × (power < 900) }
    requires room { (31 ≤ end) × (end ≤ length buffer.old) }
    ensures text { IsPut (scientific_text digits power) end buffer.old result buffer.new }
    ensures short { end ≤ result + 31 }
{
    let places = count_digits(digits) - 1;
    let end = put_exponent(buffer, end, power + places as u64);
    if places == 0 {
        put_decimal(buffer, end, digits)
    } else {
        put_fixed(buffer, end, digits, places)
    }
}

// Debug prints no exponent from 0.0001 on.
const FIRST_PLAIN: u64 = POWER_BIAS - 4;

// From 10 ^ 16 on it prints one.
const FIRST_LARGE: u64 = POWER_BIAS + 16;

// The least number of thirteen digits: twelve come after the first.
const THIRTEEN_DIGITS: u64 = 1_000_000_000_000;

/// Whether the first digit is at most four places after the point, and the last one after it, as far as a few comparisons
/// tell. It may say no of digits that are.
#[inline(always)]
fn ends_near_point(digits: u64, power: u64) -> bool
    ensures { IsTrue result → (power < 400) × ((396 ≤ power) ⊎ ((384 ≤ power) × (10 ^ 12 ≤ digits))) }
{
    power < POWER_BIAS
        && (FIRST_PLAIN <= power || (FIRST_PLAIN - 12 <= power && THIRTEEN_DIGITS <= digits))
}

/// Whether Debug prints a decimal with no exponent.
#[inline(always)]
fn is_plain(digits: u64, power: u64) -> bool
    requires { (digits < 10 ^ 17) × (power < 1000) }
    ensures { result ≡ is_plain digits power }
{
    if ends_near_point(digits, power) {
        return true;
    }
    let first = power + (count_digits(digits) - 1) as u64;
    FIRST_PLAIN <= first && first < FIRST_LARGE
}

/// Writes a decimal as Debug prints it.
fn put_debug(buffer: &mut [u8], end: usize, decimal: Decimal) -> usize
    requires sizes { (decimal.digits < 10 ^ 17) × (decimal.power < 711) }
    requires room { (31 ≤ end) × (end ≤ length buffer.old) }
    ensures text { IsPut (decimal_text true decimal.digits decimal.power) end buffer.old result buffer.new }
    ensures short { end ≤ result + 31 }
{
    if is_plain(decimal.digits, decimal.power) {
        put_plain(buffer, end, true, decimal.digits, decimal.power)
    } else {
        put_scientific(buffer, end, decimal.digits, decimal.power)
    }
}

/// Writes a decimal as Display prints it.
fn put_display(buffer: &mut [u8], end: usize, decimal: Decimal) -> usize
    requires sizes { (decimal.digits < 10 ^ 17) × (76 ≤ decimal.power) × (decimal.power < 711) }
    requires room { (343 ≤ end) × (end ≤ length buffer.old) }
    ensures text { IsPut (decimal_text false decimal.digits decimal.power) end buffer.old result buffer.new }
    ensures short { end ≤ result + 343 }
{
    put_plain(buffer, end, false, decimal.digits, decimal.power)
}

/// Writes a decimal as Debug or Display prints it.
fn put_number(buffer: &mut [u8], end: usize, debug: bool, decimal: Decimal) -> usize
    requires sizes { (decimal.digits < 10 ^ 17) × (76 ≤ decimal.power) × (decimal.power < 711) }
    requires room { ((if debug then 31 else 343) ≤ end) × (end ≤ length buffer.old) }
    ensures text { IsPut (decimal_text debug decimal.digits decimal.power) end buffer.old result buffer.new }
    ensures short { end ≤ result + (if debug then 31 else 343) }
{
    if debug {
        put_debug(buffer, end, decimal)
    } else {
        put_display(buffer, end, decimal)
    }
}

/// Writes a float at the end of the buffer, as Debug or Display prints it.
#[inline(always)]
fn put_float<F: Float>(buffer: &mut [u8], debug: bool, x: F) -> usize
    requires { (if debug then 32 else 344) ≤ length buffer.old }
    ensures text { IsFloatText F.format debug (F.value x) (drop result buffer.new) }
    ensures ascii { IsAscii (drop result buffer.new) }
    ensures within { result ≤ length buffer.old }
    ensures same { length buffer.new ≡ length buffer.old }
{
    let end = buffer.len();
    match parts_of(x) {
        Parts::NotANumber => put_word(buffer, end, *b"NaN"),
        Parts::Infinite { negative } => {
            let end = put_word(buffer, end, *b"inf");
            put_sign(buffer, end, negative)
        }
        Parts::Zero { negative } => {
            let end = put_number(
                buffer,
                end,
                debug,
                Decimal {
                    digits: 0,
                    power: POWER_BIAS,
                },
            );
            put_sign(buffer, end, negative)
        }
        Parts::Finite {
            negative,
            significand,
            exponent,
        } => {
            let end = put_number(buffer, end, debug, decimal_of::<F>(significand, exponent));
            put_sign(buffer, end, negative)
        }
    }
}

/// The text of a float, at the end of so many bytes.
#[derive(Drop)]
pub struct Text<const N: usize> {
    bytes: [u8; N],
    start: usize,
}

impl<const N: usize> Model for Text<N> {
    ghost Value = { List ℕ };

    ghost view = { λ t. drop t.start t.bytes };

    ghost invariant = { λ t. (t.start ≤ N) × IsAscii (drop t.start t.bytes) };
}

impl<const N: usize> Text<N> {
    /// Returns the bytes of the text.
    #[inline(always)]
    pub fn as_bytes(&self) -> &[u8]
        ensures text { result.now ≡ self.now }
        ensures ascii { IsAscii result.now }
    {
        // The checker takes a part of a slice here, and not one of an array whose length is a parameter.
        let bytes = &self.bytes[..];
        &bytes[self.start..]
    }
}

/// The text of a float as Debug prints it, `{:?}`.
// The longest has a sign, 17 digits, a point and `e-308`, 24 bytes.
pub type DebugText = Text<32>;

impl DebugText {
    // Promise (floats): The text of a float has the digits of its shortest decimal. It has an exponent only by
    // Debug, below 0.0001 and from 10^16 on. Also: `DisplayText::of`,
    // `ufmt_core::laws::of_floats::documents_of_floats`, `ufmt::laws::floats::floats_display_their_texts`.
    /// Returns the text of `x`.
    #[inline]
    pub fn of<F: Float>(x: F) -> DebugText
        ensures { IsFloatText F.format true (F.value x) result }
    {
        let mut bytes = [0; 32];
        let start = put_float(&mut bytes, true, x);
        Text { bytes, start }
    }
}

/// The text of a float as Display prints it, `{}`.
// The longest has a sign, `0.` and 324 decimals, 327 bytes.
pub type DisplayText = Text<344>;

impl DisplayText {
    /// Returns the text of `x`.
    #[inline]
    pub fn of<F: Float>(x: F) -> DisplayText
        ensures { IsFloatText F.format false (F.value x) result }
    {
        let mut bytes = [0; 344];
        let start = put_float(&mut bytes, false, x);
        Text { bytes, start }
    }
}
