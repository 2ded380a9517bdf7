//! Decimals of floats from 1e-9 to 1e15, chosen in words.
ghost use Rattle.core.specs.Prelude.{◌≡◌, ℕ, ◌+◌, ◌-◌, ◌*◌, ◌%◌, ◌^◌, ◌<◌, ◌≤◌, ◌⊎◌};
ghost use Rattle.ufmt_float.specs.Interval.{IsScaled, IsChosen};
ghost use Rattle.ufmt_float.specs.Scale.{power_at, unit_top, unit_bottom};
ghost use Rattle.ufmt_float.specs.Shortest.{IsStripped};

use crate::digits::Decimal;
use crate::powers::five_to;
use crate::scale::{EXPONENT_BIAS, POWER_BIAS};

/// A float as `whole + rest / bottom`, where `top / bottom` is its unit. What is left after the division is small, so comparisons
/// with it take words only.
#[derive(Clone, Copy)]
struct Division {
    top: u64,
    bottom: u64,
    whole: u64,
    rest: u64,
}

impl Division {
    /// Divides a float by a power of ten. Its unit is a word over a power of two.
    #[inline(always)]
    fn of_float(m: u64, exponent: u64, power: u64) -> Division
        requires fives { (373 ≤ power) × (power ≤ 400) }
        requires halves { (exponent ≤ 674 + power) × (674 + power ≤ exponent + 58) }
        requires within { (m < 2 ^ 53)
            × (m * unit_top exponent power < 2 ^ 57 * unit_bottom exponent power) }
        ensures top { result.top ≡ unit_top exponent power }
        ensures bottom { result.bottom ≡ unit_bottom exponent power }
        ensures small { result.bottom ≤ 2 ^ 58 }
        ensures parts { result.whole * result.bottom + result.rest ≡ m * result.top }
        ensures rest { result.rest < result.bottom }
        ensures few { result.whole < 2 ^ 57 }
    {
        let halves = EXPONENT_BIAS - POWER_BIAS + power - exponent;
        let top = five_to(POWER_BIAS - power);
        let bottom = 1 << halves;
        let n = m as u128 * top as u128;
        Division {
            top,
            bottom,
            whole: (n >> halves) as u64,
            rest: (n % bottom as u128) as u64,
        }
    }

    /// Returns the multiple of ten in the interval if there is one, without its zero, and else the whole number there that is closest
    /// to the float.
    #[inline(always)]
    fn decimal(self, m: u64, below: u64, power: u64) -> Decimal
        requires scaled { IsScaled m below self.top self.bottom }
        requires parts { self.whole * self.bottom + self.rest ≡ m * self.top }
        requires small { (self.rest < self.bottom) × (self.bottom ≤ 2 ^ 58) × (self.whole < 2 ^ 57) × (power < 1000) }
        ensures { (digits : ℕ) × IsChosen m below self.top self.bottom digits
            × IsStripped digits power result.digits result.power }
    {
        let (tens, ones, odd) = (self.whole / 10, self.whole % 10, m % 2);
        if 4 * (ones * self.bottom + self.rest) + odd <= below * self.top {
            return Decimal {
                digits: tens,
                power: power + 1,
            };
        }
        if 4 * ((10 - ones) * self.bottom) + odd <= 4 * self.rest + 2 * self.top {
            return Decimal {
                digits: tens + 1,
                power: power + 1,
            };
        }
        Decimal {
            digits: self.closest(m, below),
            power,
        }
    }

    /// Returns the whole number in the interval that is closest to the float, if no multiple of ten is there.
    #[inline(always)]
    fn closest(self, m: u64, below: u64) -> u64
        requires scaled { IsScaled m below self.top self.bottom }
        requires parts { self.whole * self.bottom + self.rest ≡ m * self.top }
        requires small { (self.rest < self.bottom) × (self.bottom ≤ 2 ^ 58) × (self.whole < 2 ^ 57) }
        requires low { below * self.top < 4 * (self.whole % 10 * self.bottom + self.rest) + m % 2 }
        requires high { 4 * self.rest + 2 * self.top < 4 * ((10 - self.whole % 10) * self.bottom) + m % 2 }
        ensures { IsChosen m below self.top self.bottom result }
    {
        let odd = m % 2;
        if 2 * self.rest < self.bottom {
            if 4 * self.rest + odd <= below * self.top {
                self.whole
            } else {
                self.whole + 1
            }
        } else {
            if 4 * self.bottom + odd <= 4 * self.rest + 2 * self.top {
                self.whole + 1
            } else {
                self.whole
            }
        }
    }
}

// The exponents that take words only, as proofs/Scales.antt computes of each: the unit over the power of ten is a power of five below
// 2 ^ 64 over a power of two up to 2 ^ 58. The least float of them is about 1e-9, the largest 1e15.
pub(crate) const LEAST_EXPONENT: u64 = 991;

pub(crate) const GREATEST_EXPONENT: u64 = 1073;

/// Returns the digits that are chosen at `power`. A zero at their end is moved to the power.
#[inline(always)]
pub(crate) fn narrow_decimal(m: u64, exponent: u64, below: u64, power: u64) -> Decimal
    requires float { (0 < m) × (m < 2 ^ 53) × (991 ≤ exponent) × (exponent ≤ 1073) }
    requires sides { (below ≡ 2) ⊎ ((below ≡ 1) × (m % 2 ≡ 0) × (m ≤ 2 ^ 52)) }
    requires power { power ≡ power_at exponent below }
    ensures { (digits : ℕ) × IsChosen m below (unit_top exponent power) (unit_bottom exponent power) digits
        × IsStripped digits power result.digits result.power }
{
    Division::of_float(m, exponent, power).decimal(m, below, power)
}
