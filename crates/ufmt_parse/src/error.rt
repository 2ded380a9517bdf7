//! Why a text isn't parsed, and where.
ghost use Rattle.std.specs.Prelude.{[], ◌∷◌, codes};
ghost use Rattle.ufmt.specs.Document.{documents, joined, leaf};
ghost use Rattle.ufmt.specs.ValueDocuments.{named, named_struct, number};
ghost use Rattle.ufmt_parse.specs.Expecting.{expected_words};
ghost use Rattle.ufmt_parse.specs.declared.error.ParseError.TheVariants.{NotText, OutOfMemory};

use crate::expected::Expected;
use ufmt::{Formatter, Line, fields, pieces, uDebug, uDisplay, uWrite};

/// Why a text isn't parsed.
#[derive(Clone, Copy, PartialEq, Eq, Debug, Drop)]
pub enum ParseError {
    /// No value of the type has a debug document that prints so. So many bytes were taken before what
    /// doesn't fit, and what is expected in its place.
    NotText { at: usize, expected: Expected },
    /// A growth of what the value holds was refused.
    OutOfMemory,
}

/// Prints as `NotText { at: 15, expected: Number }`.
impl uDebug for ParseError {
    ghost document = { elim [
      | NotText at expected ↦ named_struct "NotText"
          (("at", number at) ∷ ("expected", ⟦<Expected as uDebug>⟧.document expected) ∷ [])
      | OutOfMemory ↦ named "OutOfMemory"
    ] };

    fn fmt<W: uWrite>(&self, f: &mut Formatter<W>) -> Result<(), W::Error> {
        match self {
            ParseError::NotText { at, expected } => fields!(f, NotText { at, expected }),
            ParseError::OutOfMemory => fields!(f, OutOfMemory),
        }
    }
}

/// Prints as `expected a number of the type at byte 15`, where the first byte has the number 0. See `in_text`
/// for the line and the column.
impl uDisplay for ParseError {
    ghost display = { elim [
      | NotText at expected ↦ joined (documents (leaf (codes "expected ")
          ∷ leaf (expected_words expected) ∷ leaf (codes " at byte ") ∷ number at ∷ []))
      | OutOfMemory ↦ leaf (codes "out of memory")
    ] };

    fn fmt<W: uWrite>(&self, f: &mut Formatter<W>) -> Result<(), W::Error> {
        match self {
            ParseError::NotText { at, expected } => {
                pieces!(text "expected ", display expected, text " at byte ", display at).print(f)
            }
            ParseError::OutOfMemory => f.write_str("out of memory"),
        }
    }
}
