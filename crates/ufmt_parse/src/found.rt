//! What is found where a text stops fitting.
ghost use Rattle.std.specs.Prelude.{◌≡◌, ◌≢◌, ◌≤◌, [], ◌∷◌, MatchBool, codes, drop, length};
ghost use Rattle.ufmt.specs.ValueDocuments.{named, named_tuple, str};
ghost use Rattle.ufmt_parse.specs.Finding.{IsFound, IsWordOrOther, found_document, is_found_byte, word_len};
ghost use Rattle.ufmt_parse.specs.declared.found.Found.TheVariants.{End, LineFeed, Word, Other};

use crate::name::is_identifier_byte;
use std::str::from_utf8;
use ufmt::{Formatter, Line, fields, pieces, uDebug, uDisplay, uWrite};

/// What is found where a text stops fitting.
#[derive(Clone, Copy, PartialEq, Eq, Debug, Drop)]
pub enum Found<'a> {
    /// Nothing: the text ends there.
    End,
    /// One line feed, and nothing after it.
    LineFeed,
    /// A name or a number: all letters, digits, `_`, `-`, `+` and `.` up to the first other byte.
    Word(&'a str),
    /// Anything else.
    Other,
}

// What is found at the byte `at`. It looks at the bytes of a word only.
pub(crate) fn found_at(text: &[u8], at: usize) -> Found<'_>
    ensures { IsFound (drop at text.now) result }
{
    let left = &text[at.min(text.len())..];
    if left.is_empty() {
        return Found::End;
    }
    if is_line_feed(left) {
        return Found::LineFeed;
    }
    word_or_other(left)
}

fn is_line_feed(text: &[u8]) -> bool
    ensures { MatchBool result (text.now ≡ codes "\n") (text.now ≢ codes "\n") }
{
    matches!(text, [b'\n'])
}

fn word_or_other(left: &[u8]) -> Found<'_>
    ensures { IsWordOrOther left.now result }
{
    let word = &left[..word_len(left)];
    if word.is_empty() {
        return Found::Other;
    }
    match from_utf8(word) {
        Ok(word) => Found::Word(word),
        Err(_) => Found::Other,
    }
}

// How many bytes of a word are at the front.
fn word_len(text: &[u8]) -> usize
    ensures counts { result ≡ word_len text.now }
    ensures within { result ≤ length text.now }
{
    let mut len = 0;
    let mut rest = text;
    'bytes: while let Some((&byte, after)) = rest.split_first() {
        if !is_found_byte(byte) {
            break;
        }
        len += 1;
        rest = after;
    }
    len
}

fn is_found_byte(byte: u8) -> bool
    ensures { result ≡ is_found_byte byte }
{
    is_identifier_byte(byte) || matches!(byte, b'-' | b'+' | b'.')
}

/// Prints as `Word("sample")`.
impl uDebug for Found<'_> {
    ghost document = { elim [
      | End ↦ named "End"
      | LineFeed ↦ named "LineFeed"
      | Word word ↦ named_tuple "Word" (str word ∷ [])
      | Other ↦ named "Other"
    ] };

    fn fmt<W: uWrite>(&self, f: &mut Formatter<W>) -> Result<(), W::Error> {
        match self {
            Found::End => fields!(f, End),
            Found::LineFeed => fields!(f, LineFeed),
            Found::Word(word) => fields!(f, Word(word)),
            Found::Other => fields!(f, Other),
        }
    }
}

// Prints as it reads after what is expected: ``, found `sample` ``.
#[derive(Clone, Copy, Drop)]
pub(crate) struct ButFound<'a>(pub Found<'a>);

impl uDisplay for ButFound<'_> {
    ghost display = { λ but. found_document but.0 };

    fn fmt<W: uWrite>(&self, f: &mut Formatter<W>) -> Result<(), W::Error> {
        match self.0 {
            Found::End => f.write_str(", found the end of the text"),
            Found::LineFeed => f.write_str(", found one last line feed"),
            Found::Word(word) => pieces!(text ", found `", text word, text "`").print(f),
            Found::Other => Ok(()),
        }
    }
}
