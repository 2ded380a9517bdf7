//! Laws of rounding. Each function does nothing: its contract is the law.
ghost use Rattle.ufmt_fixed.specs.Laws.{NearestIsClosest};

/// A fraction is rounded to the closest whole number, and of two that are as close to the even one.
pub fn nearest_is_closest()
    ensures { NearestIsClosest }
{}
