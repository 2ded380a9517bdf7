//! Which digits are printed of a float, at a power of ten.
ghost use Rattle.core.specs.Prelude.{◌≡◌, ◌+◌, ◌-◌, ◌*◌, ◌%◌, ◌^◌, ◌<◌, ◌≤◌, ◌⊎◌, IsTrue, IsFalse};
ghost use Rattle.ufmt_float.specs.Interval.{IsScaled, IsChosen};

use crate::ratio::Ratio;
use core::cmp::Ordering;

// A float is `m` times its unit, and `top / bottom` is the unit over the power of ten. The interval of numbers that round to the
// float goes from `below` quarters of the unit below it to two quarters above it.

/// Whether `digits` are at least the lower end of the interval, which is part of it if `m` is even.
#[inline(always)]
fn is_above_start<R: Ratio>(ratio: &R, m: u64, below: u64, digits: u64) -> bool
    requires valid { R.valid ratio.now }
    requires small { (0 < m) × (m < 2 ^ 53) × (below ≤ 2) × (digits < 2 ^ 60) }
    requires within { 4 * digits * R.bottom ratio.now ≤ 2 ^ 56 * R.top ratio.now }
    ensures yes { IsTrue result → 4 * (m * R.top ratio.now) + m % 2
        ≤ 4 * (digits * R.bottom ratio.now) + below * R.top ratio.now }
    ensures no { IsFalse result → 4 * (digits * R.bottom ratio.now) + below * R.top ratio.now
        < 4 * (m * R.top ratio.now) + m % 2 }
{
    match ratio.compare(4 * m - below, 4 * digits) {
        Ordering::Less => true,
        Ordering::Equal => m % 2 == 0,
        Ordering::Greater => false,
    }
}

/// Whether `digits` are at most the upper end of the interval, which is part of it if `m` is even.
#[inline(always)]
fn is_below_end<R: Ratio>(ratio: &R, m: u64, digits: u64) -> bool
    requires valid { R.valid ratio.now }
    requires small { (m < 2 ^ 53) × (digits < 2 ^ 60) }
    requires within { 4 * digits * R.bottom ratio.now ≤ 2 ^ 56 * R.top ratio.now }
    ensures yes { IsTrue result → 4 * (digits * R.bottom ratio.now) + m % 2
        ≤ 4 * (m * R.top ratio.now) + 2 * R.top ratio.now }
    ensures no { IsFalse result → 4 * (m * R.top ratio.now) + 2 * R.top ratio.now
        < 4 * (digits * R.bottom ratio.now) + m % 2 }
{
    match ratio.compare(4 * m + 2, 4 * digits) {
        Ordering::Greater => true,
        Ordering::Equal => m % 2 == 0,
        Ordering::Less => false,
    }
}

/// Returns the multiple of ten in the interval if there is one, and else the whole number there that is closest to the float.
#[inline(always)]
pub(crate) fn choose<R: Ratio>(ratio: &R, m: u64, below: u64) -> u64
    requires valid { R.valid ratio.now }
    requires scaled { IsScaled m below (R.top ratio.now) (R.bottom ratio.now) }
    ensures { IsChosen m below (R.top ratio.now) (R.bottom ratio.now) result }
{
    let whole = ratio.floor(m);
    let tens = whole - whole % 10;
    if is_above_start(ratio, m, below, tens) {
        return tens;
    }
    if is_below_end(ratio, m, tens + 10) {
        return tens + 10;
    }
    match ratio.compare(2 * m, 2 * whole + 1) {
        Ordering::Less => {
            if is_above_start(ratio, m, below, whole) {
                whole
            } else {
                whole + 1
            }
        }
        _ => {
            if is_below_end(ratio, m, whole + 1) {
                whole + 1
            } else {
                whole
            }
        }
    }
}
