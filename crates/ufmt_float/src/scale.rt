//! The power of ten at which the digits of a float are chosen, and the float's unit over it.
ghost use Rattle.core.specs.Prelude.{◌≡◌, ◌*◌, ◌^◌, ◌<◌, ◌≤◌};
ghost use Rattle.ufmt_float.specs.Scale.{power_at, unit_top, unit_bottom};

/// A power of ten counts from `10 ^ -400`. That is below the least float, `10 ^ -323.3`, so no power is below 0.
pub(crate) const POWER_BIAS: u64 = 400;

/// A power of two counts from `2 ^ -1074`, the least `f64` above 0, so no exponent is below 0.
pub(crate) const EXPONENT_BIAS: u64 = 1074;

// Logarithms are in units of 1 / 2 ^ 20. For each exponent of a float that is exact enough: proofs/Scales.antt computes them all.
const LOG_BITS: u64 = 20;

// log10(2) is 315,652.83 such units.
const LOG10_2: u64 = 315_653;

// log10(4 / 3) is 131,007.76 such units. An eighth of 1 is a little more.
const LOG10_4_OVER_3: u64 = 131_072;

// What both biases add, 80,419,078: the power is `POWER_BIAS + (exponent - EXPONENT_BIAS) * log10(2)`, rounded down.
const LOG_BIAS: u64 = (POWER_BIAS << LOG_BITS) - EXPONENT_BIAS * LOG10_2;

/// Returns the power at which digits are chosen: that of the length of the interval around the float, which goes down by so many
/// quarters of the unit and up by two. If it goes down by one, it has three quarters of the length.
#[inline(always)]
pub(crate) fn power_of_digits(exponent: u64, below: u64) -> u64
    requires { exponent < 2046 }
    ensures power { result ≡ power_at exponent below }
    ensures range { (76 ≤ result) × (result < 694) }
{
    let less = if below == 1 { LOG10_4_OVER_3 } else { 0 };
    (exponent * LOG10_2 + LOG_BIAS - less) >> LOG_BITS
}

/// The number `5 ^ fives * 2 ^ twos`.
#[derive(Clone, Copy)]
pub(crate) struct Factors {
    pub(crate) fives: u64,
    pub(crate) twos: u64,
}

/// Returns the unit of a float over a power of ten, as a numerator and a denominator.
#[inline(always)]
pub(crate) fn unit_factors(exponent: u64, power: u64) -> (Factors, Factors)
    requires sizes { (exponent < 2046) × (power < 800) }
    ensures top { 5 ^ result.0.fives * 2 ^ result.0.twos ≡ unit_top exponent power }
    ensures bottom { 5 ^ result.1.fives * 2 ^ result.1.twos ≡ unit_bottom exponent power }
    ensures small { (result.0.fives < 2 ^ 32) × (result.0.twos < 2 ^ 32) × (result.1.fives < 2 ^ 32) × (result.1.twos < 2 ^ 32) }
{
    let (binary, decimal) = (exponent + POWER_BIAS, EXPONENT_BIAS + power);
    (
        Factors {
            fives: POWER_BIAS.saturating_sub(power),
            twos: binary.saturating_sub(decimal),
        },
        Factors {
            fives: power.saturating_sub(POWER_BIAS),
            twos: decimal.saturating_sub(binary),
        },
    )
}
