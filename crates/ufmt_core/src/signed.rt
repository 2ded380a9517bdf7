//! Decimal texts of signed numbers.
ghost use Rattle.std.specs.Prelude.{◌≡◌, ◌+◌, ◌-◌, ◌^◌, ◌<◌, ◌≤◌, ◌++◌, ℤ, pos, nat_abs, length, drop};
ghost use Rattle.std.specs.Int.{is_negative};
ghost use Rattle.ufmt_core.specs.Document.{leaf};
ghost use Rattle.ufmt_core.specs.Decimal.{decimal};

use crate::formatter::Formatter;
use crate::uDebug;
use crate::unsigned::{Magnitude, end_of, write_pair};
use crate::write::uWrite;

/// A signed number of some width.
pub(crate) trait Signed: Copy {
    /// The unsigned numbers of this width. They have the magnitude of the least number too.
    type Unsigned: Magnitude;

    ghost value: { Self → ℤ };

    fn is_negative(self) -> bool
        ensures { result ≡ is_negative (value self) };

    fn magnitude(self) -> Self::Unsigned
        ensures { Self.Unsigned.value result ≡ nat_abs (value self) };
}

impl Signed for i32 {
    type Unsigned = u32;

    ghost value = { λ z. z };

    fn is_negative(self) -> bool {
        self < 0
    }

    fn magnitude(self) -> u32 {
        self.unsigned_abs()
    }
}

impl Signed for i64 {
    type Unsigned = u64;

    ghost value = { λ z. z };

    fn is_negative(self) -> bool {
        self < 0
    }

    fn magnitude(self) -> u64 {
        self.unsigned_abs()
    }
}

impl Signed for i128 {
    type Unsigned = u128;

    ghost value = { λ z. z };

    fn is_negative(self) -> bool {
        self < 0
    }

    fn magnitude(self) -> u128 {
        self.unsigned_abs()
    }
}

/// Returns the decimal text of `z`, made at the end of `buffer`.
#[inline(always)]
fn decimal_text<S: Signed, const N: usize>(z: S, buffer: &mut [u8; N]) -> &str
    requires few { (1 < N) × (N < 64) }
    requires room { nat_abs (S.value z) < 10 ^ (N - 1) }
    ensures { result.now ≡ decimal (S.value z) }
{
    let start = write_decimal(z, buffer);
    end_of(buffer, start)
}

// Writes the decimal text of `z` at the end of `buffer`, and returns the index of its first byte. There must be
// room for a sign, which is written before each number, and left out of the text of one that isn't negative: a jump
// would cost more.
#[inline(always)]
fn write_decimal<S: Signed>(z: S, buffer: &mut [u8]) -> usize
    requires { length (decimal (pos (nat_abs (S.value z)))) < length buffer.old }
    ensures start { result + length (decimal (S.value z)) ≡ length buffer.old }
    ensures written { drop result buffer.new ≡ decimal (S.value z) }
{
    let (first, end) = z.magnitude().write_turns(buffer);
    let digits = write_first_after_sign(first, buffer, end);
    buffer[digits - 1] = b'-';
    digits - usize::from(z.is_negative())
}

// Writes a number of one digit or two before `end`, and returns the index of the first. There is room
// for the sign before it, where the zero before a single digit is written first.
#[inline(always)]
fn write_first_after_sign(n: u32, buffer: &mut [u8], end: usize) -> usize
    requires two_digits { n < 100 }
    requires room { 2 ≤ end }
    requires within { end ≤ length buffer.old }
    ensures start { result + length (decimal (pos n)) ≡ end }
    ensures written { drop result buffer.new ≡ decimal (pos n) ++ drop end buffer.old }
{
    write_pair(n, buffer, end - 2);
    end - 2 + usize::from(n < 10)
}

impl uDebug for i8 {
    ghost document = { λ z. leaf (decimal z) };

    #[inline(always)]
    fn fmt<W: uWrite>(&self, f: &mut Formatter<W>) -> Result<(), W::Error> {
        f.write_str(decimal_text(i32::from(*self), &mut [0; 4]))
    }
}

impl uDebug for i16 {
    ghost document = { λ z. leaf (decimal z) };

    #[inline(always)]
    fn fmt<W: uWrite>(&self, f: &mut Formatter<W>) -> Result<(), W::Error> {
        f.write_str(decimal_text(i32::from(*self), &mut [0; 6]))
    }
}

impl uDebug for i32 {
    ghost document = { λ z. leaf (decimal z) };

    #[inline(always)]
    fn fmt<W: uWrite>(&self, f: &mut Formatter<W>) -> Result<(), W::Error> {
        f.write_str(decimal_text(*self, &mut [0; 11]))
    }
}

impl uDebug for i64 {
    ghost document = { λ z. leaf (decimal z) };

    #[inline(always)]
    fn fmt<W: uWrite>(&self, f: &mut Formatter<W>) -> Result<(), W::Error> {
        f.write_str(decimal_text(*self, &mut [0; 20]))
    }
}

impl uDebug for i128 {
    ghost document = { λ z. leaf (decimal z) };

    fn fmt<W: uWrite>(&self, f: &mut Formatter<W>) -> Result<(), W::Error> {
        f.write_str(decimal_text(*self, &mut [0; 40]))
    }
}

impl uDebug for isize {
    ghost document = { λ z. leaf (decimal z) };

    #[inline(always)]
    fn fmt<W: uWrite>(&self, f: &mut Formatter<W>) -> Result<(), W::Error> {
        f.write_str(decimal_text(*self as i64, &mut [0; 20]))
    }
}
