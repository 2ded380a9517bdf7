//! `uDebug` of nonzero numbers, which print as the numbers in them.
ghost use Rattle.std.specs.Prelude.{pos};
ghost use Rattle.std.specs.Int.NonZero.{non_zero_u8_get, non_zero_u16_get, non_zero_u32_get, non_zero_u64_get, non_zero_u128_get, non_zero_usize_get, non_zero_i8_get, non_zero_i16_get, non_zero_i32_get, non_zero_i64_get, non_zero_i128_get, non_zero_isize_get};
ghost use Rattle.ufmt_core.specs.Document.{leaf};
ghost use Rattle.ufmt_core.specs.Decimal.{decimal};

use crate::formatter::Formatter;
use crate::uDebug;
use crate::write::uWrite;
use std::num::{
    NonZeroI8, NonZeroI16, NonZeroI32, NonZeroI64, NonZeroI128, NonZeroIsize, NonZeroU8,
    NonZeroU16, NonZeroU32, NonZeroU64, NonZeroU128, NonZeroUsize,
};

impl uDebug for NonZeroU8 {
    ghost document = { λ n. leaf (decimal (pos (non_zero_u8_get n))) };

    fn fmt<W: uWrite>(&self, f: &mut Formatter<W>) -> Result<(), W::Error> {
        self.get().fmt(f)
    }
}

impl uDebug for NonZeroU16 {
    ghost document = { λ n. leaf (decimal (pos (non_zero_u16_get n))) };

    fn fmt<W: uWrite>(&self, f: &mut Formatter<W>) -> Result<(), W::Error> {
        self.get().fmt(f)
    }
}

impl uDebug for NonZeroU32 {
    ghost document = { λ n. leaf (decimal (pos (non_zero_u32_get n))) };

    fn fmt<W: uWrite>(&self, f: &mut Formatter<W>) -> Result<(), W::Error> {
        self.get().fmt(f)
    }
}

impl uDebug for NonZeroU64 {
    ghost document = { λ n. leaf (decimal (pos (non_zero_u64_get n))) };

    fn fmt<W: uWrite>(&self, f: &mut Formatter<W>) -> Result<(), W::Error> {
        self.get().fmt(f)
    }
}

impl uDebug for NonZeroU128 {
    ghost document = { λ n. leaf (decimal (pos (non_zero_u128_get n))) };

    fn fmt<W: uWrite>(&self, f: &mut Formatter<W>) -> Result<(), W::Error> {
        self.get().fmt(f)
    }
}

impl uDebug for NonZeroUsize {
    ghost document = { λ n. leaf (decimal (pos (non_zero_usize_get n))) };

    fn fmt<W: uWrite>(&self, f: &mut Formatter<W>) -> Result<(), W::Error> {
        self.get().fmt(f)
    }
}

impl uDebug for NonZeroI8 {
    ghost document = { λ n. leaf (decimal (non_zero_i8_get n)) };

    fn fmt<W: uWrite>(&self, f: &mut Formatter<W>) -> Result<(), W::Error> {
        self.get().fmt(f)
    }
}

impl uDebug for NonZeroI16 {
    ghost document = { λ n. leaf (decimal (non_zero_i16_get n)) };

    fn fmt<W: uWrite>(&self, f: &mut Formatter<W>) -> Result<(), W::Error> {
        self.get().fmt(f)
    }
}

impl uDebug for NonZeroI32 {
    ghost document = { λ n. leaf (decimal (non_zero_i32_get n)) };

    fn fmt<W: uWrite>(&self, f: &mut Formatter<W>) -> Result<(), W::Error> {
        self.get().fmt(f)
    }
}

impl uDebug for NonZeroI64 {
    ghost document = { λ n. leaf (decimal (non_zero_i64_get n)) };

    fn fmt<W: uWrite>(&self, f: &mut Formatter<W>) -> Result<(), W::Error> {
        self.get().fmt(f)
    }
}

impl uDebug for NonZeroI128 {
    ghost document = { λ n. leaf (decimal (non_zero_i128_get n)) };

    fn fmt<W: uWrite>(&self, f: &mut Formatter<W>) -> Result<(), W::Error> {
        self.get().fmt(f)
    }
}

impl uDebug for NonZeroIsize {
    ghost document = { λ n. leaf (decimal (non_zero_isize_get n)) };

    fn fmt<W: uWrite>(&self, f: &mut Formatter<W>) -> Result<(), W::Error> {
        self.get().fmt(f)
    }
}
