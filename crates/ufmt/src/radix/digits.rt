//! Digits of unsigned numbers, in a base up to sixteen.
ghost use Rattle.std.specs.Prelude.{◌≡◌, ◌↔◌, ◌/◌, ◌%◌, ◌^◌, ◌<◌, ◌≤◌, ℕ, length, drop, IsAscii, IsTrue, false, pos, is_ok};
ghost use Rattle.ufmt_core.specs.Decimal.{decimal};
ghost use Rattle.ufmt_core.specs.Formatter.{Prints};
ghost use Rattle.ufmt.specs.Radix.{base_of, digit_byte, digits_in};
ghost use Rattle.ufmt.specs.Zeros.{minus_if, zero_filled};

use crate::radix::Radix;
use crate::zeros::{write_u64, write_u128};
use ufmt_core::internal::text_from;
use ufmt_core::{Formatter, uWrite};

/// An unsigned number of some width.
pub trait Digits: Copy {
    ghost value: { Self → ℕ };

    fn is_zero(self) -> bool
        ensures { IsTrue result ↔ (value self ≡ 0) };

    /// Returns the number without its last digit in this base, and that digit.
    fn split_last_digit(self, base: u8) -> (Self, u8)
        requires { 0 < base }
        ensures rest { value result.0 ≡ value self / base }
        ensures digit { result.1 ≡ value self % base };

    /// Writes the number in decimal digits, with a sign if asked, and zeros after it up to the width.
    fn write_zeros<W: uWrite>(
        self,
        is_negative: bool,
        f: &mut Formatter<W>,
        width: usize,
    ) -> Result<(), W::Error>
        ensures { Prints W.seen f.old
            (zero_filled width (minus_if is_negative) (decimal (pos (value self)))) (is_ok result)
            f.new };
}

impl Digits for u64 {
    ghost value = { λ n. n };

    fn is_zero(self) -> bool {
        self == 0
    }

    #[inline(always)]
    fn split_last_digit(self, base: u8) -> (u64, u8) {
        let base = u64::from(base);
        (self / base, (self % base) as u8)
    }

    #[inline(always)]
    fn write_zeros<W: uWrite>(
        self,
        is_negative: bool,
        f: &mut Formatter<W>,
        width: usize,
    ) -> Result<(), W::Error> {
        write_u64(is_negative, self, f, width)
    }
}

impl Digits for u128 {
    ghost value = { λ n. n };

    fn is_zero(self) -> bool {
        self == 0
    }

    #[inline(always)]
    fn split_last_digit(self, base: u8) -> (u128, u8) {
        let base = u128::from(base);
        (self / base, (self % base) as u8)
    }

    #[inline(always)]
    fn write_zeros<W: uWrite>(
        self,
        is_negative: bool,
        f: &mut Formatter<W>,
        width: usize,
    ) -> Result<(), W::Error> {
        write_u128(is_negative, self, f, width)
    }
}

/// Returns the digits of `n` in this base, made at the end of `buffer`.
#[inline(always)]
pub(crate) fn digits_text<N: Digits, const BASE: u8>(
    n: N,
    upper_case: bool,
    buffer: &mut [u8],
) -> &str
    requires two { 2 ≤ BASE }
    requires sixteen { BASE ≤ 16 }
    requires not_empty { 0 < length buffer.old }
    requires room { N.value n < BASE ^ length buffer.old }
    ensures { result.now ≡ digits_in BASE upper_case (N.value n) }
{
    let start = write_digits::<N, BASE>(n, upper_case, buffer);
    end_of(buffer, start)
}

// `text_from` of a buffer whose size is a constant of the caller. LLVM doesn't see that the text is no longer than the
// buffer, and would keep the code that copies longer texts. The remainder by a power of two tells it.
#[inline(always)]
fn end_of(buffer: &[u8], start: usize) -> &str
    requires within { start < length buffer.now }
    requires ascii { IsAscii (drop start buffer.now) }
    ensures { result.now ≡ drop start buffer.now }
{
    let size = buffer.len().next_power_of_two();
    let count = (buffer.len() - 1 - start) % size + 1;
    text_from(buffer, buffer.len() - count)
}

/// Returns the digits of `n`, made at the end of `buffer`.
#[inline(always)]
pub(crate) fn radix_digits<N: Digits>(
    n: N,
    radix: Radix,
    upper_case: bool,
    buffer: &mut [u8],
) -> &str
    requires not_empty { 0 < length buffer.old }
    requires room { N.value n < 2 ^ length buffer.old }
    ensures { result.now ≡ digits_in (base_of radix) upper_case (N.value n) }
{
    match radix {
        Radix::Binary => digits_text::<N, 2>(n, upper_case, buffer),
        Radix::Octal => digits_text::<N, 8>(n, upper_case, buffer),
        Radix::Hexadecimal => digits_text::<N, 16>(n, upper_case, buffer),
    }
}

// Writes the digits of `n` at the end of `buffer`, and returns the index of the first. The base is a
// constant of the type, so that no digit costs a division.
fn write_digits<N: Digits, const BASE: u8>(n: N, upper_case: bool, buffer: &mut [u8]) -> usize
    requires two { 2 ≤ BASE }
    requires sixteen { BASE ≤ 16 }
    requires room { length (digits_in BASE upper_case (N.value n)) ≤ length buffer.old }
    ensures within { result ≤ length buffer.new }
    ensures written { drop result buffer.new ≡ digits_in BASE upper_case (N.value n) }
{
    let mut start = buffer.len();
    let mut left = n;
    loop {
        let (rest, digit) = left.split_last_digit(BASE);
        start -= 1;
        buffer[start] = digit_byte(digit, upper_case);
        if rest.is_zero() {
            return start;
        }
        left = rest;
    }
}

static LOWER_CASE: [u8; 16] = *b"0123456789abcdef";

static UPPER_CASE: [u8; 16] = *b"0123456789ABCDEF";

#[inline]
pub(crate) fn digit_byte(digit: u8, upper_case: bool) -> u8
    requires { digit < 16 }
    ensures { result ≡ digit_byte upper_case digit }
{
    if upper_case {
        return UPPER_CASE[digit as usize];
    }
    LOWER_CASE[digit as usize]
}

// The two digits of each byte.
static BYTE_PAIRS: [u8; 512] = *b"\
    000102030405060708090a0b0c0d0e0f\
    101112131415161718191a1b1c1d1e1f\
    202122232425262728292a2b2c2d2e2f\
    303132333435363738393a3b3c3d3e3f\
    404142434445464748494a4b4c4d4e4f\
    505152535455565758595a5b5c5d5e5f\
    606162636465666768696a6b6c6d6e6f\
    707172737475767778797a7b7c7d7e7f\
    808182838485868788898a8b8c8d8e8f\
    909192939495969798999a9b9c9d9e9f\
    a0a1a2a3a4a5a6a7a8a9aaabacadaeaf\
    b0b1b2b3b4b5b6b7b8b9babbbcbdbebf\
    c0c1c2c3c4c5c6c7c8c9cacbcccdcecf\
    d0d1d2d3d4d5d6d7d8d9dadbdcdddedf\
    e0e1e2e3e4e5e6e7e8e9eaebecedeeef\
    f0f1f2f3f4f5f6f7f8f9fafbfcfdfeff";

const _: () = prove!(BYTE_PAIRS.len() == 2 * 256);

/// Returns the two hexadecimal digits of a byte, in lower case.
#[inline(always)]
pub(crate) fn byte_pair(byte: u8) -> (u8, u8)
    ensures high { result.0 ≡ digit_byte false (byte / 16) }
    ensures low { result.1 ≡ digit_byte false (byte % 16) }
{
    let at = 2 * byte as usize;
    (BYTE_PAIRS[at], BYTE_PAIRS[at + 1])
}
