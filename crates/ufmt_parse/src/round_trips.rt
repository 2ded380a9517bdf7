//! Values printed and parsed again.
ghost use Rattle.std.specs.Prelude.{◌≡◌, ◌↔◌, ◌<◌, ℕ, None, length, IfOk, IfSome, IsErrOf};
ghost use Rattle.ufmt.specs.Buffer.{Fronts};
ghost use Rattle.ufmt.specs.Layout.{plain_text};
ghost use Rattle.ufmt.specs.Token.{IsDebugDocument, normal};
ghost use Rattle.ufmt_parse.specs.RoundTrip.{printed};

use crate::error::ParseError;
use crate::expected::Expected;
use crate::uparse::uParse;
use crate::whole_text::parse;
use std::alloc::Global;
use ufmt::{debug_into, plain_text};

/// Prints a value and parses its text. The value comes back, up to its text, and up to its document's
/// normal form if that is a debug document. Then it never fails with `NotText`.
pub fn round_trip<T: uParse<Global>>(alloc: Global, value: &T) -> Result<T, ParseError>
    ensures text { IfOk result (λ parsed.
        plain_text (T.document parsed) ≡ plain_text (T.document value.now)) }
    ensures same { IsDebugDocument (T.document value.now) → IfOk result (λ parsed.
        normal (T.document parsed) ≡ normal (T.document value.now)) }
    ensures debug { IfOk result (λ parsed. IsDebugDocument (T.document parsed)) }
    ensures is_text { IsDebugDocument (T.document value.now) → (at : ℕ) (expected : Expected)
        → IsErrOf result (ParseError.NotText at expected) → ⊥ }
{
    value.prove_value();
    match plain_text(alloc, value) {
        Err(_) => Err(ParseError::OutOfMemory),
        Ok(text) => parse(alloc, text.as_bytes()),
    }
}

// Promise (reading): A round trip in a buffer returns `None` if and only if the text doesn't fit. Clauses:
// `fits`, `front`.
/// Prints a value to the front of a buffer, as `debug_into` does, and parses it from there. The value
/// comes back as from `round_trip`. Returns `None` if its text doesn't fit, and fails only if it does.
/// A type that holds no memory needs no allocator: pass `()`.
pub fn round_trip_in<T: uParse<A>, A: Drop>(
    alloc: A,
    buffer: &mut [u8],
    value: &T,
) -> Result<Option<T>, ParseError>
    ensures text { IfOk result (λ outcome. IfSome outcome (λ parsed.
        plain_text (T.document parsed) ≡ plain_text (T.document value.now))) }
    ensures same { IsDebugDocument (T.document value.now) → IfOk result (λ outcome. IfSome outcome (λ parsed.
        normal (T.document parsed) ≡ normal (T.document value.now))) }
    ensures debug { IfOk result (λ outcome. IfSome outcome (λ parsed. IsDebugDocument (T.document parsed))) }
    ensures fits { IfOk result (λ outcome. (outcome ≡ None)
        ↔ (length buffer.old < length (plain_text (T.document value.now)))) }
    ensures is_text { IsDebugDocument (T.document value.now) → (at : ℕ) (expected : Expected)
        → IsErrOf result (ParseError.NotText at expected) → ⊥ }
    ensures memory { T.holds_no_memory → IsErrOf result ParseError.OutOfMemory → ⊥ }
    ensures front { Fronts buffer.old (plain_text (T.document value.now))
        (printed (plain_text (T.document value.now)) result) buffer.new }
{
    value.prove_value();
    match debug_into(buffer, value) {
        Err(_) => Ok(None),
        Ok(length) => match parse(alloc, &buffer[..length]) {
            Err(error) => Err(error),
            Ok(parsed) => Ok(Some(parsed)),
        },
    }
}
