//! Nonzero numbers, which print as the numbers in them.
ghost use Rattle.std.specs.Prelude.{pos};
ghost use Rattle.std.specs.Int.{w8, w16, w32, w64, w128, cast_unsigned};
ghost use Rattle.std.specs.Int.NonZero.{non_zero_u8_get, non_zero_u16_get, non_zero_u32_get, non_zero_u64_get, non_zero_u128_get, non_zero_usize_get, non_zero_i8_get, non_zero_i16_get, non_zero_i32_get, non_zero_i64_get, non_zero_i128_get, non_zero_isize_get};

use crate::number::InNotation;
use crate::number::notation::Notation;
use std::num::{
    NonZeroI8, NonZeroI16, NonZeroI32, NonZeroI64, NonZeroI128, NonZeroIsize, NonZeroU8,
    NonZeroU16, NonZeroU32, NonZeroU64, NonZeroU128, NonZeroUsize,
};
use ufmt_core::{Formatter, uWrite};

impl<N: Notation> InNotation<N> for NonZeroU8 {
    ghost text = { λ x. N.integer_text (pos (non_zero_u8_get x)) (non_zero_u8_get x) };

    fn write_in<W: uWrite>(&self, f: &mut Formatter<W>, notation: N) -> Result<(), W::Error> {
        self.get().write_in(f, notation)
    }

    fn pads_in(&self) -> bool {
        N::prove_pads();
        true
    }
}

impl<N: Notation> InNotation<N> for NonZeroU16 {
    ghost text = { λ x. N.integer_text (pos (non_zero_u16_get x)) (non_zero_u16_get x) };

    fn write_in<W: uWrite>(&self, f: &mut Formatter<W>, notation: N) -> Result<(), W::Error> {
        self.get().write_in(f, notation)
    }

    fn pads_in(&self) -> bool {
        N::prove_pads();
        true
    }
}

impl<N: Notation> InNotation<N> for NonZeroU32 {
    ghost text = { λ x. N.integer_text (pos (non_zero_u32_get x)) (non_zero_u32_get x) };

    fn write_in<W: uWrite>(&self, f: &mut Formatter<W>, notation: N) -> Result<(), W::Error> {
        self.get().write_in(f, notation)
    }

    fn pads_in(&self) -> bool {
        N::prove_pads();
        true
    }
}

impl<N: Notation> InNotation<N> for NonZeroU64 {
    ghost text = { λ x. N.integer_text (pos (non_zero_u64_get x)) (non_zero_u64_get x) };

    fn write_in<W: uWrite>(&self, f: &mut Formatter<W>, notation: N) -> Result<(), W::Error> {
        self.get().write_in(f, notation)
    }

    fn pads_in(&self) -> bool {
        N::prove_pads();
        true
    }
}

impl<N: Notation> InNotation<N> for NonZeroU128 {
    ghost text = { λ x. N.integer_text (pos (non_zero_u128_get x)) (non_zero_u128_get x) };

    fn write_in<W: uWrite>(&self, f: &mut Formatter<W>, notation: N) -> Result<(), W::Error> {
        self.get().write_in(f, notation)
    }

    fn pads_in(&self) -> bool {
        N::prove_pads();
        true
    }
}

impl<N: Notation> InNotation<N> for NonZeroUsize {
    ghost text = { λ x. N.integer_text (pos (non_zero_usize_get x)) (non_zero_usize_get x) };

    fn write_in<W: uWrite>(&self, f: &mut Formatter<W>, notation: N) -> Result<(), W::Error> {
        self.get().write_in(f, notation)
    }

    fn pads_in(&self) -> bool {
        N::prove_pads();
        true
    }
}

impl<N: Notation> InNotation<N> for NonZeroI8 {
    ghost text = { λ x. N.integer_text (non_zero_i8_get x) (cast_unsigned w8 (non_zero_i8_get x)) };

    fn write_in<W: uWrite>(&self, f: &mut Formatter<W>, notation: N) -> Result<(), W::Error> {
        self.get().write_in(f, notation)
    }

    fn pads_in(&self) -> bool {
        N::prove_pads();
        true
    }
}

impl<N: Notation> InNotation<N> for NonZeroI16 {
    ghost text = { λ x. N.integer_text (non_zero_i16_get x) (cast_unsigned w16 (non_zero_i16_get x)) };

    fn write_in<W: uWrite>(&self, f: &mut Formatter<W>, notation: N) -> Result<(), W::Error> {
        self.get().write_in(f, notation)
    }

    fn pads_in(&self) -> bool {
        N::prove_pads();
        true
    }
}

impl<N: Notation> InNotation<N> for NonZeroI32 {
    ghost text = { λ x. N.integer_text (non_zero_i32_get x) (cast_unsigned w32 (non_zero_i32_get x)) };

    fn write_in<W: uWrite>(&self, f: &mut Formatter<W>, notation: N) -> Result<(), W::Error> {
        self.get().write_in(f, notation)
    }

    fn pads_in(&self) -> bool {
        N::prove_pads();
        true
    }
}

impl<N: Notation> InNotation<N> for NonZeroI64 {
    ghost text = { λ x. N.integer_text (non_zero_i64_get x) (cast_unsigned w64 (non_zero_i64_get x)) };

    fn write_in<W: uWrite>(&self, f: &mut Formatter<W>, notation: N) -> Result<(), W::Error> {
        self.get().write_in(f, notation)
    }

    fn pads_in(&self) -> bool {
        N::prove_pads();
        true
    }
}

impl<N: Notation> InNotation<N> for NonZeroI128 {
    ghost text = { λ x. N.integer_text (non_zero_i128_get x) (cast_unsigned w128 (non_zero_i128_get x)) };

    fn write_in<W: uWrite>(&self, f: &mut Formatter<W>, notation: N) -> Result<(), W::Error> {
        self.get().write_in(f, notation)
    }

    fn pads_in(&self) -> bool {
        N::prove_pads();
        true
    }
}

impl<N: Notation> InNotation<N> for NonZeroIsize {
    ghost text = { λ x. N.integer_text (non_zero_isize_get x) (cast_unsigned w64 (non_zero_isize_get x)) };

    fn write_in<W: uWrite>(&self, f: &mut Formatter<W>, notation: N) -> Result<(), W::Error> {
        self.get().write_in(f, notation)
    }

    fn pads_in(&self) -> bool {
        N::prove_pads();
        true
    }
}
