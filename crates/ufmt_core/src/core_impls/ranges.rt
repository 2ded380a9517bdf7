//! `uDebug` of ranges, whose ends print around dots.
ghost use Rattle.std.specs.Prelude.{◌≡◌, codes, is_ok};
ghost use Rattle.ufmt_core.specs.Formatter.{LaysOut};
ghost use Rattle.ufmt_core.specs.Ranges.{after, before, between, is_spent, range_inclusive_document};
ghost use Rattle.ufmt_core.specs.ValueDocuments.{named};

use crate::formatter::Formatter;
use crate::uDebug;
use crate::write::uWrite;
use std::ops::{Range, RangeFrom, RangeFull, RangeInclusive, RangeTo, RangeToInclusive};

/// Prints `start..end`.
impl<T: uDebug> uDebug for Range<T> {
    ghost document = { λ r. between (T.document r.start) (codes "..") (T.document r.end) };

    fn fmt<W: uWrite>(&self, f: &mut Formatter<W>) -> Result<(), W::Error> {
        fmt_between(&self.start, "..", &self.end, f)
    }
}

/// Prints `start..=end`, and ` (exhausted)` after it if the range gave its last value.
impl<T: uDebug + PartialOrd> uDebug for RangeInclusive<T> {
    ghost document = { range_inclusive_document T.document T.partial_cmp };

    fn fmt<W: uWrite>(&self, f: &mut Formatter<W>) -> Result<(), W::Error> {
        fmt_between(self.start(), "..=", self.end(), f)?;
        if is_spent(self) {
            f.write_str(" (exhausted)")
        } else {
            Ok(())
        }
    }
}

/// Prints `start..`.
impl<T: uDebug> uDebug for RangeFrom<T> {
    ghost document = { λ r. before (T.document r.start) (codes "..") };

    fn fmt<W: uWrite>(&self, f: &mut Formatter<W>) -> Result<(), W::Error> {
        self.start.fmt(f)?;
        f.write_str("..")
    }
}

/// Prints `..end`.
impl<T: uDebug> uDebug for RangeTo<T> {
    ghost document = { λ r. after (codes "..") (T.document r.end) };

    fn fmt<W: uWrite>(&self, f: &mut Formatter<W>) -> Result<(), W::Error> {
        fmt_after("..", &self.end, f)
    }
}

/// Prints `..=end`.
impl<T: uDebug> uDebug for RangeToInclusive<T> {
    ghost document = { λ r. after (codes "..=") (T.document r.end) };

    fn fmt<W: uWrite>(&self, f: &mut Formatter<W>) -> Result<(), W::Error> {
        fmt_after("..=", &self.end, f)
    }
}

/// Prints `..`.
impl uDebug for RangeFull {
    ghost document = { λ _. named ".." };

    fn fmt<W: uWrite>(&self, f: &mut Formatter<W>) -> Result<(), W::Error> {
        f.write_str("..")
    }
}

// Writes two values with this text between them.
fn fmt_between<T: uDebug, W: uWrite>(
    start: &T,
    dots: &str,
    end: &T,
    f: &mut Formatter<W>,
) -> Result<(), W::Error>
    ensures { LaysOut W.seen f.old (between (T.document start.now) dots.now (T.document end.now))
        (is_ok result) f.new }
{
    start.fmt(f)?;
    fmt_after(dots, end, f)
}

// Writes a text and the value after it.
fn fmt_after<T: uDebug, W: uWrite>(
    dots: &str,
    end: &T,
    f: &mut Formatter<W>,
) -> Result<(), W::Error>
    ensures { LaysOut W.seen f.old (after dots.now (T.document end.now)) (is_ok result) f.new }
{
    f.write_str(dots)?;
    end.fmt(f)
}

// An empty range whose ends are in order is empty because it gave its last value.
fn is_spent<T: PartialOrd>(range: &RangeInclusive<T>) -> bool
    ensures { result ≡ is_spent T.partial_cmp range.now }
{
    range.is_empty() && range.start() <= range.end()
}
