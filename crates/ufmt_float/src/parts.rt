//! The two formats of floats, and the parts of a float.
ghost use Rattle.core.specs.Prelude.{◌≡◌, ℕ, ◌+◌, ◌*◌, ◌<◌, ◌≤◌, not, is_nan, from_bits};
ghost use Rattle.core.specs.Float.{NotNan};
ghost use mathlib.Core.Path.{refl};
ghost use lib.Ieee as Ieee;
ghost use lib.Ieee.{Format, binary32, binary64, low, hid, ones, top};
ghost use Rattle.ufmt_float.specs.Parts.{AreParts};

/// `f32` or `f64`.
pub trait Float: Copy {
    /// The least float above 0 is `2 ^ -LOWEST`.
    const LOWEST: u64;

    /// The weight of the least bit of the exponent, and of the leading bit of a significand, which has no bit of its own.
    const HIDDEN: u64;

    /// The bits of the infinity above 0. Those of the finite floats above 0 are less.
    const INFINITY: u64;

    /// The weight of the sign.
    const SIGN: u64;

    ghost LOWEST: { ℕ };

    ghost HIDDEN: { ℕ };

    ghost INFINITY: { ℕ };

    ghost SIGN: { ℕ };

    /// The format of IEEE 754.
    ghost format: { Format };

    /// The number that the float is.
    ghost value: { Self → Ieee.Float };

    /// Whether the float isn't NaN.
    fn is_number(self) -> bool
        ensures { result ≡ not (is_nan (value self)) };

    /// Returns the float's bits.
    fn pattern(self) -> u64
        requires { NotNan (value self) }
        ensures same { from_bits format result ≡ value self }
        ensures bound { result < 2 * top format };

    ghost lowest_is: { LOWEST ≡ low format };

    ghost hidden_is: { HIDDEN ≡ hid format };

    ghost infinity_is: { INFINITY ≡ ones format * hid format };

    ghost sign_is: { SIGN ≡ top format };
}

impl Float for f64 {
    const LOWEST: u64 = 1074;

    const HIDDEN: u64 = 0x0010_0000_0000_0000;

    const INFINITY: u64 = 0x7ff0_0000_0000_0000;

    const SIGN: u64 = 0x8000_0000_0000_0000;

    ghost LOWEST = { 1074 };

    ghost HIDDEN = { 0x0010_0000_0000_0000 };

    ghost INFINITY = { 0x7ff0_0000_0000_0000 };

    ghost SIGN = { 0x8000_0000_0000_0000 };

    ghost format = { binary64 };

    ghost value = { λ x. x };

    ghost lowest_is = { refl };

    ghost hidden_is = { refl };

    ghost infinity_is = { refl };

    ghost sign_is = { refl };

    #[inline(always)]
    fn is_number(self) -> bool {
        !self.is_nan()
    }

    #[inline(always)]
    fn pattern(self) -> u64 {
        self.to_bits()
    }
}

impl Float for f32 {
    const LOWEST: u64 = 149;

    const HIDDEN: u64 = 0x0080_0000;

    const INFINITY: u64 = 0x7f80_0000;

    const SIGN: u64 = 0x8000_0000;

    ghost LOWEST = { 149 };

    ghost HIDDEN = { 0x0080_0000 };

    ghost INFINITY = { 0x7f80_0000 };

    ghost SIGN = { 0x8000_0000 };

    ghost format = { binary32 };

    ghost value = { λ x. x };

    ghost lowest_is = { refl };

    ghost hidden_is = { refl };

    ghost infinity_is = { refl };

    ghost sign_is = { refl };

    #[inline(always)]
    fn is_number(self) -> bool {
        !self.is_nan()
    }

    #[inline(always)]
    fn pattern(self) -> u64 {
        self.to_bits() as u64
    }
}

/// What a float consists of. A finite one is `significand * 2 ^ exponent` times the least float above 0.
#[derive(Clone, Copy)]
pub(crate) enum Parts {
    NotANumber,
    Infinite {
        negative: bool,
    },
    Zero {
        negative: bool,
    },
    Finite {
        negative: bool,
        significand: u64,
        exponent: u64,
    },
}

/// Splits a float into its parts.
#[inline(always)]
pub(crate) fn parts_of<F: Float>(x: F) -> Parts
    ensures { AreParts F.format (F.value x) result }
{
    if !x.is_number() {
        return Parts::NotANumber;
    }
    let pattern = x.pattern();
    let negative = pattern >= F::SIGN;
    let size = pattern % F::SIGN;
    if size >= F::INFINITY {
        Parts::Infinite { negative }
    } else if size >= F::HIDDEN {
        Parts::Finite {
            negative,
            significand: F::HIDDEN + size % F::HIDDEN,
            exponent: size / F::HIDDEN - 1,
        }
    } else if size > 0 {
        Parts::Finite {
            negative,
            significand: size,
            exponent: 0,
        }
    } else {
        Parts::Zero { negative }
    }
}
