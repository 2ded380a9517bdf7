//! An error with the line, the column and the name of its place.
ghost use Rattle.std.specs.Prelude.{[], ◌∷◌, codes, option_map};
ghost use Rattle.ufmt.specs.Document.{documents, joined, leaf};
ghost use Rattle.ufmt.specs.ValueDocuments.{named, named_struct, number, option_document, str};
ghost use Rattle.ufmt_parse.specs.Detailing.{place_document};
ghost use Rattle.ufmt_parse.specs.Expecting.{expected_words};
ghost use Rattle.ufmt_parse.specs.NamesBefore.{after_document};
ghost use Rattle.ufmt_parse.specs.Placing.{IsPlaced};
ghost use Rattle.ufmt_parse.specs.declared.placed.PlacedError.TheVariants.{NotText, OutOfMemory};

use crate::error::ParseError;
use crate::expected::Expected;
use crate::found::{ButFound, Found, found_at};
use crate::name::name_before;
use crate::place::line_and_column;
use ufmt::{Formatter, Line, fields, pieces, uDebug, uDisplay, uWrite};

/// A `ParseError` with the line and the column of its place, both from 1, and with what is found there. A column counts
/// characters. If the text before the place ends with a name, a colon and a space, `after` is the name: of a field, or a
/// key.
#[derive(Clone, Copy, PartialEq, Eq, Debug, Drop)]
pub enum PlacedError<'a> {
    NotText {
        line: usize,
        column: usize,
        expected: Expected,
        found: Found<'a>,
        after: Option<&'a str>,
    },
    OutOfMemory,
}

impl ParseError {
    // Promise (reading): `in_text` reports the longest name that is followed by `: ` right before the error,
    // or `None` if there is no such name or it isn't UTF-8. It finds `End` if and only if the text ends there, `LineFeed` if and
    // only if one line feed is all that is left, and a `Word` if and only if the text goes on with bytes of a name or a number that
    // are UTF-8.
    /// Returns the error with its line and its column in the text that was parsed, with what is found there, and with
    /// the name before its place.
    pub fn in_text<'a>(self, text: &'a [u8]) -> PlacedError<'a>
        ensures { IsPlaced text.now self result }
    {
        match self {
            ParseError::NotText { at, expected } => {
                let (line, column) = line_and_column(text, at);
                PlacedError::NotText {
                    line,
                    column,
                    expected,
                    found: found_at(text, at),
                    after: name_before(text, at),
                }
            }
            ParseError::OutOfMemory => PlacedError::OutOfMemory,
        }
    }
}

/// Prints as `NotText { line: 1, column: 16, expected: Number, found: Word("x"), after: Some("level") }`.
impl<'a> uDebug for PlacedError<'a> {
    ghost document = { elim [
      | NotText line column expected found after ↦ named_struct "NotText" (("line", number line) ∷ ("column", number column)
          ∷ ("expected", ⟦<Expected as uDebug>⟧.document expected)
          ∷ ("found", ⟦<Found<'a> as uDebug>⟧.document found) ∷ ("after", option_document str after) ∷ [])
      | OutOfMemory ↦ named "OutOfMemory"
    ] };

    fn fmt<W: uWrite>(&self, f: &mut Formatter<W>) -> Result<(), W::Error> {
        match self {
            PlacedError::NotText {
                line,
                column,
                expected,
                found,
                after,
            } => fields!(
                f,
                NotText {
                    line,
                    column,
                    expected,
                    found,
                    after
                }
            ),
            PlacedError::OutOfMemory => fields!(f, OutOfMemory),
        }
    }
}

/// Prints as ``expected a number of the type, found `x` at line 1 column 16, after `level: ` ``.
impl uDisplay for PlacedError<'_> {
    ghost display = { elim [
      | NotText line column expected found after ↦ joined (documents (leaf (codes "expected ")
          ∷ leaf (expected_words expected) ∷ place_document line column found after ∷ []))
      | OutOfMemory ↦ leaf (codes "out of memory")
    ] };

    fn fmt<W: uWrite>(&self, f: &mut Formatter<W>) -> Result<(), W::Error> {
        match self {
            PlacedError::NotText {
                line,
                column,
                expected,
                found,
                after,
            } => {
                let place = AtPlace {
                    line: *line,
                    column: *column,
                    found: *found,
                    after: *after,
                };
                pieces!(text "expected ", display expected, display place).print(f)
            }
            PlacedError::OutOfMemory => f.write_str("out of memory"),
        }
    }
}

// A place as it reads after what is expected there: ``, found `x` at line 1 column 16, after `level: ` ``.
#[derive(Clone, Copy, Drop)]
pub(crate) struct AtPlace<'a> {
    pub(crate) line: usize,
    pub(crate) column: usize,
    pub(crate) found: Found<'a>,
    pub(crate) after: Option<&'a str>,
}

impl uDisplay for AtPlace<'_> {
    ghost display = { λ place. place_document place.line place.column place.found place.after };

    fn fmt<W: uWrite>(&self, f: &mut Formatter<W>) -> Result<(), W::Error> {
        pieces!(display ButFound(self.found), text " at line ", display self.line, text " column ", display self.column, display After(self.after)).print(
            f,
        )
    }
}

// The name before a place, as it comes after the line and the column.
#[derive(Clone, Copy, Drop)]
struct After<'a>(Option<&'a str>);

impl uDisplay for After<'_> {
    ghost display = { λ after. after_document (option_map (λ name. name.now) after.0) };

    fn fmt<W: uWrite>(&self, f: &mut Formatter<W>) -> Result<(), W::Error> {
        match self.0 {
            None => Ok(()),
            Some(name) => pieces!(text ", after `", text name, text ": `").print(f),
        }
    }
}
