//! Two values compared by their texts, and a value with a stored text.
ghost use Rattle.std.specs.Prelude.{◌≡◌, ◌↔◌, IfOk, IfSome, IsNone, IsTrue, string_bytes};
ghost use Rattle.ufmt.specs.Layout.{pretty_text};
ghost use Rattle.example_print.specs.Logger.{measurement_document};
ghost use Rattle.ufmt_snapshot.specs.Difference.{SaysDifference};

#[cfg(test)]
mod tests;

use example_print::Measurement;
use std::alloc::{AllocError, Global};
use ufmt::{pretty_text, uDebug};
use ufmt_snapshot::compare_pretty;

/// Returns whether two values, also of different types, have the same pretty text.
pub fn print_alike<T: uDebug, U: uDebug>(
    alloc: Global,
    value: &T,
    other: &U,
) -> Result<bool, AllocError>
    ensures { IfOk result (λ alike. IsTrue alike
        ↔ (pretty_text (T.document value.now) ≡ pretty_text (U.document other.now))) }
{
    let text = pretty_text(alloc, value)?;
    Ok(text == pretty_text(alloc, other)?)
}

/// Returns a message that says where the measurement's text first differs from the stored one, and has
/// the whole of it, or `None` if they are equal.
pub fn changes(
    alloc: Global,
    measurement: &Measurement,
    stored: &str,
) -> Result<Option<String>, AllocError>
    ensures equal { IfOk result (λ message. IsNone message
        ↔ (pretty_text (measurement_document measurement.now) ≡ stored.now)) }
    ensures message { IfOk result (λ message. IfSome message (λ text.
        SaysDifference (pretty_text (measurement_document measurement.now)) stored.now (string_bytes text))) }
{
    compare_pretty(alloc, measurement, stored)
}
