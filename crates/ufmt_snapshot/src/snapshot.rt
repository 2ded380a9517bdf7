//! A value compared with a stored text.
ghost use Rattle.std.specs.Prelude.{◌≡◌, ◌↔◌, IfOk, IfSome, IsNone, string_bytes};
ghost use Rattle.ufmt.specs.Layout.{pretty_text};
ghost use Rattle.ufmt_snapshot.specs.Difference.{SaysDifference, failure_text};

#[cfg(test)]
mod tests;

use crate::difference::{Difference, first_difference};
use std::alloc::{AllocError, Global};
use ufmt::{pieces, pretty_text, uDebug, write_line};

/// Compares the value's pretty text with a stored one. Returns `None` if they are equal, or else a
/// message: the first line in which they differ, and the whole pretty text. Fails only for want of
/// memory.
pub fn compare_pretty<T: uDebug>(
    alloc: Global,
    value: &T,
    stored: &str,
) -> Result<Option<String>, AllocError>
    ensures equal { IfOk result (λ message.
        IsNone message ↔ (pretty_text (T.document value.now) ≡ stored.now)) }
    ensures message { IfOk result (λ message. IfSome message (λ text.
        SaysDifference (pretty_text (T.document value.now)) stored.now (string_bytes text))) }
{
    let given = pretty_text(alloc, value)?;
    match first_difference(&given, stored) {
        None => Ok(None),
        Some(found) => Ok(Some(failure(alloc, found, &given)?)),
    }
}

// The difference, and the given text.
fn failure(alloc: Global, found: Difference<'_>, given: &str) -> Result<String, AllocError>
    ensures { IfOk result (λ text. string_bytes text ≡ failure_text found.entry given.now) }
{
    let mut text = String::new(alloc);
    let line = (
        found,
        pieces!(text "\nThe given text, to be stored if it is right:\n", text given),
    );
    write_line(&mut text, &line)?;
    Ok(text)
}
