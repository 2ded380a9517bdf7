//! Values from whole texts.
ghost use Rattle.std.specs.Prelude.{◌≡◌, ◌≢◌, ◌≤◌, ◌++◌, List, ℕ, length, IfOk, IsErrOf};
ghost use Rattle.ufmt.specs.Document.{Document};
ghost use Rattle.ufmt.specs.Layout.{layout, plain_text, pretty_text, setting};
ghost use Rattle.ufmt.specs.Leaves.{MayFollow};
ghost use Rattle.ufmt.specs.Token.{IsDebugDocument, normal};
ghost use Rattle.ufmt_parse.specs.Places.{EndsBefore};
ghost use Rattle.ufmt_grammar.specs.declared.class.Class.TheVariants.{Debug};

use crate::error::ParseError;
use crate::expected::Expected;
use crate::uparse::uParse;
use ufmt_parser::mode::{ParseMode, PlainText, PrettyText};
use ufmt_parser::parser::{Fault, Parser};

// Promise (reading): The place of an error that expects `End` is the end of a value's text. A leaf reports its
// own beginning, also in a `Box` and other wrappers that print as what they hold. A list reports the place
// after `[`, but an array doesn't. Clauses: `within`, `after_value`, `end`, `stops`. Also:
// `whole_text::parse_pretty`, `line_and_column`, `ParseError::in_text`.
// Promise (reading): Parsing undoes printing. A parsed value prints as the text, and has the normal form of
// each debug document with that text. `NotText` means that no value, by `is_value`, has a debug document with
// it. Clauses: `ok`, `form`, `debug`, `not_text`. Also: `whole_text::parse_pretty`, `round_trip`,
// `round_trip_in`, `uParse::parse_from`.
// Promise (reading): Parsing a type that says `holds_no_memory` never fails for want of memory. Clauses:
// `memory`. Also: `whole_text::parse_pretty`, `round_trip_in`.
/// Returns a value that prints as this plain text, and whose document is a debug document. Fails with `NotText`
/// only if no such value prints so: after a whole value's text, `at` is where it ends, and the end is expected.
/// The other error is `OutOfMemory`, which never comes for a type that holds no memory.
pub fn parse<T: uParse<A>, A>(alloc: A, text: &[u8]) -> Result<T, ParseError>
    ensures ok { IfOk result (λ v. plain_text (T.document v) ≡ text.now) }
    ensures form { IfOk result (λ v. (d : Document) → IsDebugDocument d → plain_text d ≡ text.now
        → normal (T.document v) ≡ normal d) }
    ensures debug { IfOk result (λ v. IsDebugDocument (T.document v)) }
    ensures not_text { (at : ℕ) (expected : Expected) → IsErrOf result (ParseError.NotText at expected)
        → (v : T) → T.is_value v → IsDebugDocument (T.document v)
        → plain_text (T.document v) ≢ text.now }
    ensures after_value { (at : ℕ) (expected : Expected) → IsErrOf result (ParseError.NotText at expected)
        → (v : T) (u : List ℕ) → T.is_value v
        → IsDebugDocument (T.document v) → MayFollow Debug u → text.now ≡ plain_text (T.document v) ++ u
        → (at ≡ length (plain_text (T.document v))) × (expected ≡ Expected.End) }
    ensures end { (at : ℕ) → IsErrOf result (ParseError.NotText at Expected.End)
        → EndsBefore (λ v. plain_text (T.document v)) (λ v. IsDebugDocument (T.document v)) text.now at }
    ensures stops { (at : ℕ) (expected : Expected) → IsErrOf result (ParseError.NotText at expected)
        → expected ≢ Expected.End → T.stops text.now at expected }
    ensures memory { T.holds_no_memory → IsErrOf result ParseError.OutOfMemory → ⊥ }
    ensures within { (at : ℕ) (expected : Expected) → IsErrOf result (ParseError.NotText at expected)
        → at ≤ length text.now }
{
    parse_whole::<T, A, PlainText>(alloc, text)
}

/// Returns a value that prints as this pretty text, as `parse` does with a plain one.
pub fn parse_pretty<T: uParse<A>, A>(alloc: A, text: &[u8]) -> Result<T, ParseError>
    ensures ok { IfOk result (λ v. pretty_text (T.document v) ≡ text.now) }
    ensures form { IfOk result (λ v. (d : Document) → IsDebugDocument d → pretty_text d ≡ text.now
        → normal (T.document v) ≡ normal d) }
    ensures debug { IfOk result (λ v. IsDebugDocument (T.document v)) }
    ensures not_text { (at : ℕ) (expected : Expected) → IsErrOf result (ParseError.NotText at expected)
        → (v : T) → T.is_value v → IsDebugDocument (T.document v)
        → pretty_text (T.document v) ≢ text.now }
    ensures after_value { (at : ℕ) (expected : Expected) → IsErrOf result (ParseError.NotText at expected)
        → (v : T) (u : List ℕ) → T.is_value v
        → IsDebugDocument (T.document v) → MayFollow Debug u → text.now ≡ pretty_text (T.document v) ++ u
        → (at ≡ length (pretty_text (T.document v))) × (expected ≡ Expected.End) }
    ensures end { (at : ℕ) → IsErrOf result (ParseError.NotText at Expected.End)
        → EndsBefore (λ v. pretty_text (T.document v)) (λ v. IsDebugDocument (T.document v)) text.now at }
    ensures stops { (at : ℕ) (expected : Expected) → IsErrOf result (ParseError.NotText at expected)
        → expected ≢ Expected.End → T.stops text.now at expected }
    ensures memory { T.holds_no_memory → IsErrOf result ParseError.OutOfMemory → ⊥ }
    ensures within { (at : ℕ) (expected : Expected) → IsErrOf result (ParseError.NotText at expected)
        → at ≤ length text.now }
{
    parse_whole::<T, A, PrettyText>(alloc, text)
}

// The same in either mode.
#[tactic(auto, unfolding(ufmt_parser::specs::Next::IsNotNext, ufmt_parser::specs::Next::NextLeaves))]
fn parse_whole<T: uParse<A>, A, M: ParseMode>(alloc: A, text: &[u8]) -> Result<T, ParseError>
    ensures ok { IfOk result (λ v. layout (setting M.mode 0) (T.document v) ≡ text.now) }
    ensures debug { IfOk result (λ v. IsDebugDocument (T.document v)) }
    ensures not_text { (at : ℕ) (expected : Expected) → IsErrOf result (ParseError.NotText at expected)
        → (v : T) → T.is_value v → IsDebugDocument (T.document v)
        → layout (setting M.mode 0) (T.document v) ≢ text.now }
    ensures after_value { (at : ℕ) (expected : Expected) → IsErrOf result (ParseError.NotText at expected)
        → (v : T) (u : List ℕ) → T.is_value v
        → IsDebugDocument (T.document v) → MayFollow Debug u → text.now ≡ layout (setting M.mode 0) (T.document v) ++ u
        → (at ≡ length (layout (setting M.mode 0) (T.document v))) × (expected ≡ Expected.End) }
    ensures end { (at : ℕ) → IsErrOf result (ParseError.NotText at Expected.End)
        → EndsBefore (λ v. layout (setting M.mode 0) (T.document v)) (λ v. IsDebugDocument (T.document v)) text.now at }
    ensures stops { (at : ℕ) (expected : Expected) → IsErrOf result (ParseError.NotText at expected)
        → expected ≢ Expected.End → T.stops text.now at expected }
    ensures memory { T.holds_no_memory → IsErrOf result ParseError.OutOfMemory → ⊥ }
    ensures within { (at : ℕ) (expected : Expected) → IsErrOf result (ParseError.NotText at expected)
        → at ≤ length text.now }
{
    let mut parser: Parser<'_, M> = Parser::new(text);
    match T::parse_from(alloc, &mut parser) {
        Ok(value) => {
            if parser.len() == 0 {
                return Ok(value);
            }
            Err(ParseError::NotText {
                at: text.len() - parser.len(),
                expected: Expected::End,
            })
        }
        Err(Fault::NotText) => Err(ParseError::NotText {
            at: text.len() - parser.len(),
            expected: Expected::of(parser.need()),
        }),
        Err(Fault::OutOfMemory) => Err(ParseError::OutOfMemory),
    }
}
