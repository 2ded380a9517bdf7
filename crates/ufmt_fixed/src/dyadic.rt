//! A float as its sign, and a whole number times a power of two.
ghost use Rattle.std.specs.Prelude.{◌≡◌, ◌-◌};
ghost use lib.Ieee.{low};
ghost use Rattle.ufmt_fixed.specs.Dyadic.{IsDyadicOf};

use ufmt_float::Float;

/// A float. The size of a finite one is `significand * 2 ^ twos / 2 ^ halves`.
// `Parts` of `ufmt_float` has one exponent, and zeros apart: a text from them takes more instructions.
#[derive(Clone, Copy)]
pub(crate) enum Dyadic {
    NotANumber,
    Infinite {
        negative: bool,
    },
    Finite {
        negative: bool,
        significand: u64,
        twos: u64,
        halves: u64,
    },
}

/// Returns a float as such a number.
#[inline(always)]
pub(crate) fn dyadic_of<F: Float>(x: F) -> Dyadic
    ensures { IsDyadicOf (F.value x) result }
{
    if !x.is_number() {
        return Dyadic::NotANumber;
    }
    let pattern = x.pattern();
    let negative = pattern >= F::SIGN;
    let size = pattern % F::SIGN;
    if size >= F::INFINITY {
        return Dyadic::Infinite { negative };
    }
    if size >= F::HIDDEN {
        return finite::<F>(negative, F::HIDDEN + size % F::HIDDEN, size / F::HIDDEN - 1);
    }
    finite::<F>(negative, size, 0)
}

/// Returns `significand * 2 ^ exponent` times the least float above 0.
#[inline(always)]
fn finite<F: Float>(negative: bool, significand: u64, exponent: u64) -> Dyadic
    ensures { result ≡ Dyadic.Finite negative significand (exponent - low F.format) (low F.format - exponent) }
{
    Dyadic::Finite {
        negative,
        significand,
        twos: exponent.saturating_sub(F::LOWEST),
        halves: F::LOWEST.saturating_sub(exponent),
    }
}
