//! Decimal texts of unsigned numbers.
ghost use Rattle.std.specs.Prelude.{◌≡◌, ◌+◌, ◌++◌, ◌/◌, ◌%◌, ◌^◌, ◌<◌, ◌≤◌, ℕ, pos, length, drop, IsAscii};
ghost use Rattle.ufmt_core.specs.Document.{leaf};
ghost use Rattle.ufmt_core.specs.Decimal.{decimal, EachNumberIsDenoted, OneTextDenotes, OneNumberIsDenoted};
ghost use Rattle.ufmt_float.specs.Text.{last_digits};

use crate::ascii::text_from;
use crate::formatter::Formatter;
use crate::uDebug;
use crate::write::uWrite;
use ufmt_float::internal::digit_pair;

// Promise (printing): The decimal digits of a whole number denote it and have no leading zeros, and no two
// numbers share them.
/// Each whole number has exactly one decimal text, and each decimal text denotes exactly one number.
pub fn decimal_is_one_text()
    ensures denoted { EachNumberIsDenoted }
    ensures one_text { OneTextDenotes }
    ensures one_number { OneNumberIsDenoted }
{}

// A turn takes the remainder by 100, and writes it as a row of `DIGIT_PAIRS`, from the right:
//
//     18446744073709551615 = 18 44 67 44 07 37 09 55 16 15
//
// What is left below 100 is the first digit or two. A longer number is first cut into parts, each of which has
// turns of its own: of eight digits, since a division of 32 bits is faster, and above 64 bits of sixteen.

/// An unsigned number of some width.
pub(crate) trait Magnitude: Copy {
    ghost value: { Self → ℕ };

    /// Writes the decimal text at the end of `buffer`, without its first digit or two. Returns the number that
    /// these denote, and the index after them.
    fn write_turns(self, buffer: &mut [u8]) -> (u32, usize)
        requires { length (decimal (pos (value self))) ≤ length buffer.old }
        ensures first { result.0 < 100 }
        ensures within { result.1 ≤ length buffer.old }
        ensures written { decimal (pos result.0) ++ drop result.1 buffer.new ≡ decimal (pos (value self)) };
}

impl Magnitude for u32 {
    ghost value = { λ n. n };

    #[inline(always)]
    fn write_turns(self, buffer: &mut [u8]) -> (u32, usize) {
        let mut start = buffer.len();
        let mut left = self;
        while left >= 100 {
            start -= 2;
            left = write_turn(left, buffer, start);
        }
        (left, start)
    }
}

impl Magnitude for u64 {
    ghost value = { λ n. n };

    #[inline(always)]
    fn write_turns(self, buffer: &mut [u8]) -> (u32, usize) {
        let mut start = buffer.len();
        let mut left = self;
        while left >= EIGHT_DIGITS {
            let rest = left / EIGHT_DIGITS;
            start -= 8;
            write_eight((left - EIGHT_DIGITS * rest) as u32, buffer, start);
            left = rest;
        }
        (left as u32).write_turns(&mut buffer[..start])
    }
}

impl Magnitude for u128 {
    ghost value = { λ n. n };

    fn write_turns(self, buffer: &mut [u8]) -> (u32, usize) {
        let mut start = buffer.len();
        let mut left = self;
        while left > u64::MAX as u128 {
            start -= 16;
            write_sixteen((left % SIXTEEN_DIGITS) as u64, buffer, start);
            left /= SIXTEEN_DIGITS;
        }
        (left as u64).write_turns(&mut buffer[..start])
    }
}

// The least number with more than eight digits.
const EIGHT_DIGITS: u64 = 100_000_000;

const SIXTEEN_DIGITS: u128 = 10_000_000_000_000_000;

// Writes sixteen digits, with zeros before a shorter number.
#[inline]
fn write_sixteen(n: u64, buffer: &mut [u8], start: usize)
    requires sixteen_digits { n < 10 ^ 16 }
    requires room { start + 16 ≤ length buffer.old }
    ensures { drop start buffer.new ≡ last_digits 16 n ++ drop (start + 16) buffer.old }
{
    write_eight((n % EIGHT_DIGITS) as u32, buffer, start + 8);
    write_eight((n / EIGHT_DIGITS) as u32, buffer, start);
}

// Writes eight digits, with zeros before a shorter number.
#[inline]
fn write_eight(n: u32, buffer: &mut [u8], start: usize)
    requires eight_digits { n < 10 ^ 8 }
    requires room { start + 8 ≤ length buffer.old }
    ensures { drop start buffer.new ≡ last_digits 8 n ++ drop (start + 8) buffer.old }
{
    let left = write_turn(n, buffer, start + 6);
    let left = write_turn(left, buffer, start + 4);
    let left = write_turn(left, buffer, start + 2);
    write_pair(left, buffer, start);
}

// Writes the last two digits of `n`, and returns the number that the digits before them denote.
#[inline(always)]
fn write_turn(n: u32, buffer: &mut [u8], start: usize) -> u32
    requires room { start + 2 ≤ length buffer.old }
    ensures left { result ≡ n / 100 }
    ensures written { drop start buffer.new ≡ last_digits 2 (n % 100) ++ drop (start + 2) buffer.old }
{
    let left = n / 100;
    write_pair(n - 100 * left, buffer, start);
    left
}

// Writes two digits, a zero first before a number of one.
#[inline(always)]
pub(crate) fn write_pair(pair: u32, buffer: &mut [u8], start: usize)
    requires two_digits { pair < 100 }
    requires room { start + 2 ≤ length buffer.old }
    ensures { drop start buffer.new ≡ last_digits 2 pair ++ drop (start + 2) buffer.old }
{
    let (tens, ones) = digit_pair(pair as u8);
    buffer[start] = tens;
    buffer[start + 1] = ones;
}

/// Returns the decimal text of `n`, made at the end of `buffer`.
#[inline(always)]
fn decimal_text<M: Magnitude, const N: usize>(n: M, buffer: &mut [u8; N]) -> &str
    requires few { (0 < N) × (N < 64) }
    requires room { M.value n < 10 ^ N }
    ensures { result.now ≡ decimal (pos (M.value n)) }
{
    let (first, end) = n.write_turns(buffer);
    let start = write_first(first, buffer, end);
    end_of(buffer, start)
}

// Writes a number of one digit or two before `end`, and returns the index of the first. A single
// digit is written over the zero that stands for its tens: a jump would cost more.
#[inline(always)]
fn write_first(n: u32, buffer: &mut [u8], end: usize) -> usize
    requires two_digits { n < 100 }
    requires room { length (decimal (pos n)) ≤ end }
    requires within { end ≤ length buffer.old }
    ensures start { result + length (decimal (pos n)) ≡ end }
    ensures written { drop result buffer.new ≡ decimal (pos n) ++ drop end buffer.old }
{
    let start = first_index(n, end);
    let (tens, ones) = digit_pair(n as u8);
    buffer[start] = tens;
    buffer[end - 1] = ones;
    start
}

// The index of the first digit of a number of one digit or two before `end`.
#[tactic(auto, using(crate::proofs::LastDigits::length_one, crate::proofs::LastDigits::length_two))]
#[inline(always)]
fn first_index(n: u32, end: usize) -> usize
    requires two_digits { n < 100 }
    requires room { length (decimal (pos n)) ≤ end }
    ensures start { result + length (decimal (pos n)) ≡ end }
    ensures before { result < end }
{
    if n < 10 { end - 1 } else { end - 2 }
}

/// `text_from` of a buffer that is shorter than 64 bytes.
// LLVM doesn't see that the text is no longer than the buffer, and would keep the code that copies longer texts. The
// remainder by a power of two tells it.
#[inline(always)]
pub(crate) fn end_of<const N: usize>(buffer: &[u8; N], start: usize) -> &str
    requires few { N < 64 }
    requires within { start < N }
    requires ascii { IsAscii (drop start buffer.now) }
    ensures { result.now ≡ drop start buffer.now }
{
    let size = N.next_power_of_two();
    let count = (N - 1 - start) % size + 1;
    text_from(buffer, N - count)
}

/// Returns the decimal text of `n`, made in `buffer`.
#[inline(always)]
pub fn text_of_u64(n: u64, buffer: &mut [u8; 20]) -> &str
    ensures { result.now ≡ decimal (pos n) }
{
    decimal_text(n, buffer)
}

/// Returns the decimal text of `n`, made in `buffer`.
pub fn text_of_u128(n: u128, buffer: &mut [u8; 39]) -> &str
    ensures { result.now ≡ decimal (pos n) }
{
    decimal_text(n, buffer)
}

impl uDebug for u8 {
    ghost document = { λ n. leaf (decimal (pos n)) };

    #[inline(always)]
    fn fmt<W: uWrite>(&self, f: &mut Formatter<W>) -> Result<(), W::Error> {
        f.write_str(decimal_text(u32::from(*self), &mut [0; 3]))
    }
}

impl uDebug for u16 {
    ghost document = { λ n. leaf (decimal (pos n)) };

    #[inline(always)]
    fn fmt<W: uWrite>(&self, f: &mut Formatter<W>) -> Result<(), W::Error> {
        f.write_str(decimal_text(u32::from(*self), &mut [0; 5]))
    }
}

impl uDebug for u32 {
    ghost document = { λ n. leaf (decimal (pos n)) };

    #[inline(always)]
    fn fmt<W: uWrite>(&self, f: &mut Formatter<W>) -> Result<(), W::Error> {
        f.write_str(decimal_text(*self, &mut [0; 10]))
    }
}

impl uDebug for u64 {
    ghost document = { λ n. leaf (decimal (pos n)) };

    #[inline(always)]
    fn fmt<W: uWrite>(&self, f: &mut Formatter<W>) -> Result<(), W::Error> {
        f.write_str(text_of_u64(*self, &mut [0; 20]))
    }
}

impl uDebug for u128 {
    ghost document = { λ n. leaf (decimal (pos n)) };

    fn fmt<W: uWrite>(&self, f: &mut Formatter<W>) -> Result<(), W::Error> {
        f.write_str(text_of_u128(*self, &mut [0; 39]))
    }
}

impl uDebug for usize {
    ghost document = { λ n. leaf (decimal (pos n)) };

    #[inline(always)]
    fn fmt<W: uWrite>(&self, f: &mut Formatter<W>) -> Result<(), W::Error> {
        f.write_str(text_of_u64(*self as u64, &mut [0; 20]))
    }
}
