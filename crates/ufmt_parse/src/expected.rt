//! What is expected where a text stops fitting.
ghost use Rattle.std.specs.Prelude.{◌≡◌};
ghost use Rattle.ufmt.specs.Document.{leaf};
ghost use Rattle.ufmt.specs.ValueDocuments.{named};
ghost use Rattle.ufmt_parse.specs.Expecting.{expected_of, expected_words};
ghost use Rattle.ufmt_parse.specs.declared.expected.Expected.TheVariants.{Name, Number, Character, Text, Punctuation, Order, Count, End};

use ufmt::{Formatter, fields, uDebug, uDisplay, uWrite};
use ufmt_parser::need::Need;

/// What is expected where a text stops fitting.
#[derive(Clone, Copy, PartialEq, Eq, Debug, Drop)]
pub enum Expected {
    /// A name of the type: of a struct, a field or a variant, or a truth value.
    Name,
    /// A number of the type, as it is printed.
    Number,
    /// A character in apostrophes.
    Character,
    /// A text in quotation marks.
    Text,
    /// A bracket, a comma, a colon, a space or a line feed, or another one of these.
    Punctuation,
    /// Keys of a set or a map in ascending order.
    Order,
    /// Another number of values in an array, or fewer blocks around.
    Count,
    /// The end of the text: a value's text is before this place.
    End,
}

impl Expected {
    // What is expected where this is missing.
    pub(crate) fn of(need: Need) -> Expected
        ensures { result ≡ expected_of need }
    {
        match need {
            Need::Name => Expected::Name,
            Need::Number => Expected::Number,
            Need::Character => Expected::Character,
            Need::Text => Expected::Text,
            Need::Punctuation => Expected::Punctuation,
            Need::Order => Expected::Order,
            Need::Count => Expected::Count,
        }
    }

    // How it reads after the word `expected`.
    fn words(self) -> &'static str
        ensures { result.now ≡ expected_words self }
    {
        match self {
            Expected::Name => "a name of the type",
            Expected::Number => "a number of the type",
            Expected::Character => "a character in apostrophes",
            Expected::Text => "a text in quotation marks",
            Expected::Punctuation => "punctuation",
            Expected::Order => "keys in ascending order",
            Expected::Count => "another number of values or blocks",
            Expected::End => "the end of the text",
        }
    }
}

/// Prints as its name.
impl uDebug for Expected {
    ghost document = { elim [
      | Name ↦ named "Name"
      | Number ↦ named "Number"
      | Character ↦ named "Character"
      | Text ↦ named "Text"
      | Punctuation ↦ named "Punctuation"
      | Order ↦ named "Order"
      | Count ↦ named "Count"
      | End ↦ named "End"
    ] };

    fn fmt<W: uWrite>(&self, f: &mut Formatter<W>) -> Result<(), W::Error> {
        match self {
            Expected::Name => fields!(f, Name),
            Expected::Number => fields!(f, Number),
            Expected::Character => fields!(f, Character),
            Expected::Text => fields!(f, Text),
            Expected::Punctuation => fields!(f, Punctuation),
            Expected::Order => fields!(f, Order),
            Expected::Count => fields!(f, Count),
            Expected::End => fields!(f, End),
        }
    }
}

/// Prints as it reads after the word `expected`, as `a number of the type`.
impl uDisplay for Expected {
    ghost display = { λ expected. leaf (expected_words expected) };

    fn fmt<W: uWrite>(&self, f: &mut Formatter<W>) -> Result<(), W::Error> {
        f.write_str(self.words())
    }
}
