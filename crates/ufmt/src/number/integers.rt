//! The integers in each notation. Those of up to 64 bits print by one code, which is in line: where the notation is a constant,
//! most tests of it are gone.
ghost use Rattle.std.specs.Prelude.{pos};
ghost use Rattle.std.specs.Int.{w8, w16, w32, w64, w128, cast_unsigned};

use crate::number::InNotation;
use crate::number::notation::Notation;
use ufmt_core::{Formatter, uWrite};

impl<N: Notation> InNotation<N> for u8 {
    ghost text = { λ n. N.integer_text (pos n) n };

    #[inline(always)]
    fn write_in<W: uWrite>(&self, f: &mut Formatter<W>, notation: N) -> Result<(), W::Error> {
        let n = u64::from(*self);
        notation.write_integer(false, n, n, &mut [0; 8], &mut [0; 2], f)
    }

    fn pads_in(&self) -> bool {
        N::prove_pads();
        true
    }
}

impl<N: Notation> InNotation<N> for u16 {
    ghost text = { λ n. N.integer_text (pos n) n };

    #[inline(always)]
    fn write_in<W: uWrite>(&self, f: &mut Formatter<W>, notation: N) -> Result<(), W::Error> {
        let n = u64::from(*self);
        notation.write_integer(false, n, n, &mut [0; 16], &mut [0; 4], f)
    }

    fn pads_in(&self) -> bool {
        N::prove_pads();
        true
    }
}

impl<N: Notation> InNotation<N> for u32 {
    ghost text = { λ n. N.integer_text (pos n) n };

    #[inline(always)]
    fn write_in<W: uWrite>(&self, f: &mut Formatter<W>, notation: N) -> Result<(), W::Error> {
        let n = u64::from(*self);
        notation.write_integer(false, n, n, &mut [0; 32], &mut [0; 8], f)
    }

    fn pads_in(&self) -> bool {
        N::prove_pads();
        true
    }
}

impl<N: Notation> InNotation<N> for u64 {
    ghost text = { λ n. N.integer_text (pos n) n };

    #[inline(always)]
    fn write_in<W: uWrite>(&self, f: &mut Formatter<W>, notation: N) -> Result<(), W::Error> {
        let n = *self;
        notation.write_integer(false, n, n, &mut [0; 64], &mut [0; 16], f)
    }

    fn pads_in(&self) -> bool {
        N::prove_pads();
        true
    }
}

impl<N: Notation> InNotation<N> for u128 {
    ghost text = { λ n. N.integer_text (pos n) n };

    #[inline(always)]
    fn write_in<W: uWrite>(&self, f: &mut Formatter<W>, notation: N) -> Result<(), W::Error> {
        let n = *self;
        notation.write_integer(false, n, n, &mut [0; 128], &mut [0; 32], f)
    }

    fn pads_in(&self) -> bool {
        N::prove_pads();
        true
    }
}

impl<N: Notation> InNotation<N> for usize {
    ghost text = { λ n. N.integer_text (pos n) n };

    #[inline(always)]
    fn write_in<W: uWrite>(&self, f: &mut Formatter<W>, notation: N) -> Result<(), W::Error> {
        let n = *self as u64;
        notation.write_integer(false, n, n, &mut [0; 64], &mut [0; 16], f)
    }

    fn pads_in(&self) -> bool {
        N::prove_pads();
        true
    }
}

impl<N: Notation> InNotation<N> for i8 {
    ghost text = { λ z. N.integer_text z (cast_unsigned w8 z) };

    #[inline(always)]
    fn write_in<W: uWrite>(&self, f: &mut Formatter<W>, notation: N) -> Result<(), W::Error> {
        let magnitude = u64::from(self.unsigned_abs());
        let bits = u64::from(self.cast_unsigned());
        notation.write_integer(*self < 0, magnitude, bits, &mut [0; 8], &mut [0; 2], f)
    }

    fn pads_in(&self) -> bool {
        N::prove_pads();
        true
    }
}

impl<N: Notation> InNotation<N> for i16 {
    ghost text = { λ z. N.integer_text z (cast_unsigned w16 z) };

    #[inline(always)]
    fn write_in<W: uWrite>(&self, f: &mut Formatter<W>, notation: N) -> Result<(), W::Error> {
        let magnitude = u64::from(self.unsigned_abs());
        let bits = u64::from(self.cast_unsigned());
        notation.write_integer(*self < 0, magnitude, bits, &mut [0; 16], &mut [0; 4], f)
    }

    fn pads_in(&self) -> bool {
        N::prove_pads();
        true
    }
}

impl<N: Notation> InNotation<N> for i32 {
    ghost text = { λ z. N.integer_text z (cast_unsigned w32 z) };

    #[inline(always)]
    fn write_in<W: uWrite>(&self, f: &mut Formatter<W>, notation: N) -> Result<(), W::Error> {
        let magnitude = u64::from(self.unsigned_abs());
        let bits = u64::from(self.cast_unsigned());
        notation.write_integer(*self < 0, magnitude, bits, &mut [0; 32], &mut [0; 8], f)
    }

    fn pads_in(&self) -> bool {
        N::prove_pads();
        true
    }
}

impl<N: Notation> InNotation<N> for i64 {
    ghost text = { λ z. N.integer_text z (cast_unsigned w64 z) };

    #[inline(always)]
    fn write_in<W: uWrite>(&self, f: &mut Formatter<W>, notation: N) -> Result<(), W::Error> {
        let magnitude = self.unsigned_abs();
        let bits = self.cast_unsigned();
        notation.write_integer(*self < 0, magnitude, bits, &mut [0; 64], &mut [0; 16], f)
    }

    fn pads_in(&self) -> bool {
        N::prove_pads();
        true
    }
}

impl<N: Notation> InNotation<N> for i128 {
    ghost text = { λ z. N.integer_text z (cast_unsigned w128 z) };

    #[inline(always)]
    fn write_in<W: uWrite>(&self, f: &mut Formatter<W>, notation: N) -> Result<(), W::Error> {
        let magnitude = self.unsigned_abs();
        let bits = self.cast_unsigned();
        notation.write_integer(*self < 0, magnitude, bits, &mut [0; 128], &mut [0; 32], f)
    }

    fn pads_in(&self) -> bool {
        N::prove_pads();
        true
    }
}

impl<N: Notation> InNotation<N> for isize {
    ghost text = { λ z. N.integer_text z (cast_unsigned w64 z) };

    #[inline(always)]
    fn write_in<W: uWrite>(&self, f: &mut Formatter<W>, notation: N) -> Result<(), W::Error> {
        let magnitude = self.unsigned_abs() as u64;
        let bits = self.cast_unsigned() as u64;
        notation.write_integer(*self < 0, magnitude, bits, &mut [0; 64], &mut [0; 16], f)
    }

    fn pads_in(&self) -> bool {
        N::prove_pads();
        true
    }
}
