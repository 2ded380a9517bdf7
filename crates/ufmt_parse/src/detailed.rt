//! An error with what is expected in detail.
ghost use Rattle.ufmt_parse.specs.Detailing.{IsDetailOf, detail_document, detailed_document};
ghost use Rattle.ufmt_parse.specs.Placing.{IsPlaced};

use crate::error::ParseError;
use crate::expected::Expected;
use crate::placed::{AtPlace, PlacedError};
use crate::uparse::uParse;
use ufmt::{Formatter, Line, pieces, uDisplay, uWrite};
use ufmt_parser::detail::Detail;
use ufmt_parser::mode::{Detailed, ParseMode, PlainText, PrettyText};
use ufmt_parser::parser::{Fault, Parser};

/// A `PlacedError`, with what is expected in its place in detail: which field, which enum's variant, which range of numbers.
#[derive(Clone, Copy, PartialEq, Eq, Debug, Drop)]
pub struct DetailedError<'a> {
    pub placed: PlacedError<'a>,
    pub detail: Detail<'a>,
}

impl ParseError {
    /// Returns what `in_text` does, and what `parse::<T, A>` expects of the text there in detail. It parses the text once more.
    /// Of another text than the one that was parsed, or if memory is refused now, there is no detail.
    pub fn in_text_of<'a, T: uParse<A>, A: Drop>(
        self,
        alloc: A,
        text: &'a [u8],
    ) -> DetailedError<'a>
        ensures placed { IsPlaced text.now self result.placed }
        ensures detail { IsDetailOf self result.detail }
    {
        DetailedError {
            placed: self.in_text(text),
            detail: self.detail_of::<T, A, PlainText>(alloc, text),
        }
    }

    /// The same, of an error of `parse_pretty::<T, A>`.
    pub fn in_pretty_text_of<'a, T: uParse<A>, A: Drop>(
        self,
        alloc: A,
        text: &'a [u8],
    ) -> DetailedError<'a>
        ensures placed { IsPlaced text.now self result.placed }
        ensures detail { IsDetailOf self result.detail }
    {
        DetailedError {
            placed: self.in_text(text),
            detail: self.detail_of::<T, A, PrettyText>(alloc, text),
        }
    }

    // The detail that a parser keeps which fails in this way.
    fn detail_of<'a, T: uParse<A>, A: Drop, M: ParseMode>(
        self,
        alloc: A,
        text: &'a [u8],
    ) -> Detail<'a>
        ensures { IsDetailOf self result }
    {
        let ParseError::NotText { at, expected } = self else {
            return Detail::Nothing;
        };
        if matches!(expected, Expected::End) {
            return Detail::Nothing;
        }
        let mut parser: Parser<'a, Detailed<M>> = Parser::new(text);
        let parsed: Result<T, Fault> = T::parse_from(alloc, &mut parser);
        let is_same = matches!(parsed, Err(Fault::NotText))
            && text.len() - parser.len() == at
            && Expected::of(parser.need()) == expected;
        if is_same {
            parser.detail()
        } else {
            Detail::Nothing
        }
    }
}

/// Prints as ``expected the field `level`, found `lever` at line 1 column 16``.
impl uDisplay for DetailedError<'_> {
    ghost display = { λ error. detailed_document error.placed error.detail };

    fn fmt<W: uWrite>(&self, f: &mut Formatter<W>) -> Result<(), W::Error> {
        match self.placed {
            PlacedError::NotText {
                line,
                column,
                expected,
                found,
                after,
            } => {
                let wanted = Wanted {
                    expected,
                    detail: self.detail,
                };
                let place = AtPlace {
                    line,
                    column,
                    found,
                    after,
                };
                pieces!(text "expected ", display wanted, display place).print(f)
            }
            PlacedError::OutOfMemory => f.write_str("out of memory"),
        }
    }
}

// What is expected, as it reads after the word `expected`.
#[derive(Clone, Copy, Drop)]
struct Wanted<'a> {
    expected: Expected,
    detail: Detail<'a>,
}

impl uDisplay for Wanted<'_> {
    ghost display = { λ wanted. detail_document wanted.expected wanted.detail };

    fn fmt<W: uWrite>(&self, f: &mut Formatter<W>) -> Result<(), W::Error> {
        match &self.detail {
            Detail::Nothing => self.expected.fmt(f),
            Detail::Name(name) => pieces!(text "`", text *name, text "`").print(f),
            Detail::Variant(name) => pieces!(text "a variant of `", text *name, text "`").print(f),
            Detail::Truth => f.write_str("`true` or `false`"),
            Detail::Field(name) => pieces!(text "the field `", text *name, text "`").print(f),
            Detail::BeforeField(name) => {
                pieces!(text "punctuation before the field `", text *name, text "`").print(f)
            }
            Detail::NoField => f.write_str("the end of the fields"),
            Detail::Range(range) => pieces!(text "a number from ", text *range).print(f),
            Detail::NonZero => f.write_str("a number other than 0"),
        }
    }
}
