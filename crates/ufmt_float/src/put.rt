//! Digits and short texts, written from the right.
ghost use Rattle.core.specs.Prelude.{◌≡◌, ◌+◌, ◌-◌, ◌*◌, ◌/◌, ◌%◌, ◌^◌, ◌<◌, ◌≤◌, [], ◌∷◌, length, replicate};
ghost use Rattle.core.specs.Fmt.{decimal, sign_text};
ghost use Rattle.ufmt_float.specs.Put.{IsPut};
ghost use Rattle.ufmt_float.specs.Text.{last_digits};

use crate::powers::{TEN_TO_4, TEN_TO_8, TEN_TO_16};

// Each function writes before the index `end`, and returns where its text starts.

/// Writes one byte.
#[inline(always)]
pub fn put_byte(buffer: &mut [u8], end: usize, byte: u8) -> usize
    requires { (0 < end) × (end ≤ length buffer.old) }
    ensures { IsPut (byte ∷ []) end buffer.old result buffer.new }
{
    buffer[end - 1] = byte;
    end - 1
}

/// Writes so many zeros.
pub(crate) fn put_zeros(buffer: &mut [u8], end: usize, count: usize) -> usize
    requires { (count ≤ end) × (end ≤ length buffer.old) }
    ensures { IsPut (replicate count 48) end buffer.old result buffer.new }
{
    for i in 0..count {
        buffer[end - 1 - i] = b'0';
    }
    end - count
}

// The two digits of each number below 100, the tens first.
static DIGIT_PAIRS: [u8; 200] = *b"\
    00010203040506070809101112131415161718192021222324252627282930313233343536373839\
    40414243444546474849505152535455565758596061626364656667686970717273747576777879\
    8081828384858687888990919293949596979899";

const _: () = prove!(DIGIT_PAIRS.len() == 2 * 100);

/// Returns the two digits of `i`, the tens first. `i` must be below 100.
#[inline(always)]
pub fn digit_pair(i: u8) -> (u8, u8)
    requires { i < 100 }
    ensures tens { result.0 ≡ 48 + i / 10 }
    ensures ones { result.1 ≡ 48 + i % 10 }
{
    let at = 2 * i as usize;
    (DIGIT_PAIRS[at], DIGIT_PAIRS[at + 1])
}

/// Writes the last `count` digits, two at a time, and returns the number that the digits before them denote.
#[inline(always)]
pub fn put_last_digits(buffer: &mut [u8], end: usize, n: u64, count: usize) -> u64
    requires { (count ≤ end) × (end ≤ length buffer.old) }
    ensures left { result ≡ n / 10 ^ count }
    ensures written { IsPut (last_digits count n) end buffer.old (end - count) buffer.new }
{
    let left = put_pairs(buffer, end, n, count / 2);
    if count % 2 == 0 {
        return left;
    }
    buffer[end - count] = b'0' + (left % 10) as u8;
    left / 10
}

/// Writes the last two digits of a number, the two before them, and so on.
#[inline(always)]
fn put_pairs(buffer: &mut [u8], end: usize, n: u64, pairs: usize) -> u64
    requires { (2 * pairs ≤ end) × (end ≤ length buffer.old) }
    ensures left { result ≡ n / 10 ^ (2 * pairs) }
    ensures written { IsPut (last_digits (2 * pairs) n) end buffer.old (end - 2 * pairs) buffer.new }
{
    let mut left = n;
    for i in 0..pairs {
        let (tens, ones) = digit_pair((left % 100) as u8);
        let start = end - 2 * i;
        buffer[start - 1] = ones;
        buffer[start - 2] = tens;
        left /= 100;
    }
    left
}

/// Returns how many digits a number has.
#[inline(always)]
pub(crate) fn count_digits(n: u64) -> usize
    ensures count { result ≡ length (decimal n) }
    ensures bounds { (1 ≤ result) × (result ≤ 20) }
{
    let (left, count) = cut(n, 1, TEN_TO_16, 16);
    let (left, count) = cut(left, count, TEN_TO_8, 8);
    let (left, count) = cut(left, count, TEN_TO_4, 4);
    let (left, count) = cut(left, count, 100, 2);
    let (_, count) = cut(left, count, 10, 1);
    count
}

/// Removes the last `places` digits from a number that has more, and adds them to the count.
#[inline(always)]
fn cut(n: u64, count: usize, unit: u64, places: usize) -> (u64, usize)
    requires small { (count < 100) × (places < 20) }
    requires unit { (0 < unit) × (unit ≡ 10 ^ places) }
    ensures same { length (decimal result.0) + result.1 ≡ length (decimal n) + count }
    ensures less { n < unit * unit → result.0 < unit }
    ensures counted { (count ≤ result.1) × (result.1 ≤ count + places) }
{
    if n < unit {
        (n, count)
    } else {
        (n / unit, count + places)
    }
}

/// Writes a whole number.
pub(crate) fn put_decimal(buffer: &mut [u8], end: usize, n: u64) -> usize
    requires { (length (decimal n) ≤ end) × (end ≤ length buffer.old) }
    ensures { IsPut (decimal n) end buffer.old result buffer.new }
{
    if n < 10 {
        return put_byte(buffer, end, b'0' + n as u8);
    }
    let count = count_digits(n);
    put_last_digits(buffer, end, n, count);
    end - count
}

/// Writes a minus if `negative`, else nothing.
#[inline(always)]
pub fn put_sign(buffer: &mut [u8], end: usize, negative: bool) -> usize
    requires { (length (sign_text negative) ≤ end) × (end ≤ length buffer.old) }
    ensures { IsPut (sign_text negative) end buffer.old result buffer.new }
{
    if negative {
        put_byte(buffer, end, b'-')
    } else {
        end
    }
}

/// Writes three bytes.
#[inline(always)]
pub fn put_word(buffer: &mut [u8], end: usize, word: [u8; 3]) -> usize
    requires { (3 ≤ end) × (end ≤ length buffer.old) }
    ensures { IsPut word end buffer.old result buffer.new }
{
    let [first, second, third] = word;
    let end = put_byte(buffer, end, third);
    let end = put_byte(buffer, end, second);
    put_byte(buffer, end, first)
}
