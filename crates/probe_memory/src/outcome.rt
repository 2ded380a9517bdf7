//! What a call returned, compared with what it returns with ample memory.
ghost use Rattle.std.specs.Prelude.{◌≡◌, ◌≢◌, ◌↔◌, string_bytes, IfErr, IfOk, IfSome, IsErr, IsErrOf, IsNone, IsTrue};
ghost use Rattle.ufmt.specs.Layout.{plain_text};

use std::alloc::AllocError;
use ufmt::{debug_into, uDebug};
use ufmt_doc::plain_reader::ReadError;
use ufmt_parse::ParseError;

/// What a call returned.
#[derive(Clone, Copy, PartialEq, Eq, Debug)]
pub enum Outcome {
    /// The same as with ample memory.
    Ample,
    WantOfMemory,
    Other,
}

impl Outcome {
    pub fn message(&self) -> &'static str {
        match self {
            Outcome::Ample => "as with ample memory",
            Outcome::WantOfMemory => "want of memory",
            Outcome::Other => "another outcome",
        }
    }

    /// The outcome of a call that returns nothing.
    pub fn of_memory(outcome: Result<(), AllocError>) -> Outcome
        ensures memory { IsErr outcome ↔ (result ≡ Outcome.WantOfMemory) }
        ensures ample { result ≢ Outcome.Other }
    {
        match outcome {
            Ok(()) => Outcome::Ample,
            Err(_) => Outcome::WantOfMemory,
        }
    }

    /// The outcome of a call that takes no memory, and whether it is right. `before` is an
    /// allocation of the program's own, made just before the call.
    pub fn of_call(before: Result<(), AllocError>, is_right: bool) -> Outcome
        ensures memory { IsErr before ↔ (result ≡ Outcome.WantOfMemory) }
        ensures ample { (result ≡ Outcome.Ample) → IsTrue is_right }
    {
        match before {
            Ok(()) if is_right => Outcome::Ample,
            Ok(()) => Outcome::Other,
            Err(_) => Outcome::WantOfMemory,
        }
    }

    /// The outcome of a call that returns a value's text, which is `ample` with ample memory.
    pub fn of_text(outcome: Result<String, AllocError>, ample: &str) -> Outcome
        ensures memory { IsErr outcome ↔ (result ≡ Outcome.WantOfMemory) }
        ensures ample { (result ≡ Outcome.Ample)
            → IfOk outcome (λ text. string_bytes text ≡ ample.now) }
    {
        match outcome {
            Ok(text) if text.as_str() == ample => Outcome::Ample,
            Ok(_) => Outcome::Other,
            Err(_) => Outcome::WantOfMemory,
        }
    }

    /// The outcome of a conversion. With ample memory it returns `ample`, or fails with `NotText` if
    /// that is `None`.
    pub fn of_conversion(outcome: Result<String, ReadError>, ample: Option<&str>) -> Outcome
        ensures memory { IsErrOf outcome ReadError.OutOfMemory ↔ (result ≡ Outcome.WantOfMemory) }
        ensures text { (result ≡ Outcome.Ample) → IfOk outcome (λ text.
            IfSome ample.entry (λ wanted. string_bytes text ≡ wanted.now)) }
        ensures refusal { (result ≡ Outcome.Ample) → IfErr outcome (λ _. IsNone ample.entry) }
    {
        match outcome {
            Ok(text) if ample == Some(text.as_str()) => Outcome::Ample,
            Ok(_) => Outcome::Other,
            Err(error) => Outcome::of_refusal(error, ample),
        }
    }

    /// The outcome of a reader. With ample memory its document has the plain text `ample`, or it fails
    /// with `NotText` if that is `None`.
    pub fn of_value<T: uDebug + Drop>(outcome: Result<T, ReadError>, ample: Option<&str>) -> Outcome
        ensures memory { IsErrOf outcome ReadError.OutOfMemory ↔ (result ≡ Outcome.WantOfMemory) }
        ensures text { (result ≡ Outcome.Ample) → IfOk outcome (λ value.
            IfSome ample.entry (λ wanted. plain_text (T.document value) ≡ wanted.now)) }
        ensures refusal { (result ≡ Outcome.Ample) → IfErr outcome (λ _. IsNone ample.entry) }
    {
        match outcome {
            Ok(value) if has_plain_text(&value, ample) => Outcome::Ample,
            Ok(_) => Outcome::Other,
            Err(error) => Outcome::of_refusal(error, ample),
        }
    }

    /// The outcome of `parse`. With ample memory its value has the plain text `ample`, or it fails with
    /// `NotText` if that is `None`.
    pub fn of_parse<T: uDebug + Drop>(
        outcome: Result<T, ParseError>,
        ample: Option<&str>,
    ) -> Outcome
        ensures memory { IsErrOf outcome ParseError.OutOfMemory ↔ (result ≡ Outcome.WantOfMemory) }
        ensures text { (result ≡ Outcome.Ample) → IfOk outcome (λ value.
            IfSome ample.entry (λ wanted. plain_text (T.document value) ≡ wanted.now)) }
        ensures refusal { (result ≡ Outcome.Ample) → IfErr outcome (λ _. IsNone ample.entry) }
    {
        match outcome {
            Ok(value) if has_plain_text(&value, ample) => Outcome::Ample,
            Ok(_) => Outcome::Other,
            Err(ParseError::NotText { .. }) if ample.is_none() => Outcome::Ample,
            Err(ParseError::NotText { .. }) => Outcome::Other,
            Err(ParseError::OutOfMemory) => Outcome::WantOfMemory,
        }
    }

    // The outcome of a call that failed, as it should if `ample` is `None`.
    fn of_refusal(error: ReadError, ample: Option<&str>) -> Outcome
        ensures memory { (error ≡ ReadError.OutOfMemory) ↔ (result ≡ Outcome.WantOfMemory) }
        ensures refusal { (result ≡ Outcome.Ample) → IsNone ample.entry }
    {
        match error {
            ReadError::NotText if ample.is_none() => Outcome::Ample,
            ReadError::NotText => Outcome::Other,
            ReadError::OutOfMemory => Outcome::WantOfMemory,
        }
    }
}

/// Returns whether this is the value's plain text. It takes no memory.
pub fn has_plain_text<T: uDebug>(value: &T, text: Option<&str>) -> bool
    ensures { IsTrue result → IfSome text.entry (λ wanted.
        plain_text (T.document value.now) ≡ wanted.now) }
{
    let mut buffer = [0; 1024];
    match (debug_into(&mut buffer, value), text) {
        (Ok(count), Some(text)) => buffer.get(..count) == Some(text.as_bytes()),
        _ => false,
    }
}
