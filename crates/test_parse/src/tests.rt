//! Tests of what the contracts of ufmt_parse don't say: that parsing succeeds with ample memory, and where a refused text
//! stops fitting. The tests parse types of users, and types of std that probe_model doesn't parse. tools/data/rows has
//! texts of the other types.
// Asserts what each row says of its text. A text beside `""` is a value's text, and comes back. Any other text is refused at
// the place that its row says, with what is expected there, such as `16 Punctuation`.
macro_rules! all_stop {
    ($rt:ident, $type:ty; $($text:expr => $stop:literal;)*) => {
        same(&$rt, first_other::<$type>($rt.alloc(), &[$(($text, $stop)),*]), None, "by rows");
    };
}

// Asserts that each text before the semicolon comes back as a value of the type, and that each one after it is refused.
macro_rules! all_read {
    ($rt:ident, $type:ty; $($taken:literal),+; $($other:literal),*) => {
        same(&$rt, first_wrong::<$type>($rt.alloc(), &[$($taken),+], &[$($other),*]), None, "by texts");
    };
}

mod allocators;
mod by_parsers;
mod decimals;
mod details;
mod enums;
mod errors;
mod field_counts;
mod field_kinds;
mod laws;
mod names;
mod round_trips;
mod std_types;
mod structs;
mod values;

use std::alloc::{AllocError, Global};
use std::fmt::Debug;
use std::process::Abort;
use ufmt::{plain_text, pretty_text};
use ufmt_parse::{Expected, ParseError, parse, parse_pretty, uParse};

// Checking one `assert_eq!` takes as long as checking twenty calls, so tests call this function instead.
pub fn same<T: PartialEq + Debug + Drop>(rt: &impl Abort, given: T, wanted: T, case: &str) {
    assert_eq!(rt; given, wanted, "{case}");
}

pub fn not_text(at: usize, expected: Expected) -> ParseError {
    ParseError::NotText { at, expected }
}

// Returns the first text that isn't parsed as it should be. Each text of `taken` should come back, as `comes_back` says. Each
// text of `others` should fail with `NotText`.
pub fn first_wrong<'a, T: uParse<Global>>(
    alloc: Global,
    taken: &[&'a str],
    others: &[&'a str],
) -> Option<&'a str> {
    for text in taken {
        if !comes_back::<T>(alloc, text) {
            return Some(*text);
        }
    }
    for text in others {
        let outcome = parse::<T, Global>(alloc, text.as_bytes());
        if !matches!(outcome, Err(ParseError::NotText { .. })) {
            return Some(*text);
        }
    }
    None
}

// Whether the plain text is parsed, and the value, printed pretty and parsed again, has the same plain text.
fn comes_back<T: uParse<Global>>(alloc: Global, text: &str) -> bool {
    again::<T>(alloc, text).is_some_and(|printed| printed.as_str() == text)
}

fn again<T: uParse<Global>>(alloc: Global, text: &str) -> Option<String> {
    let value = parse::<T, Global>(alloc, text.as_bytes()).ok()?;
    let pretty = pretty_text(alloc, &value).ok()?;
    let value = parse_pretty::<T, Global>(alloc, pretty.as_bytes()).ok()?;
    plain_text(alloc, &value).ok()
}

// Returns the first text whose outcome isn't the one beside it. An outcome is the place where the text stops fitting, with
// what is expected there, such as `16 Punctuation`. It is empty for a value's text.
pub fn first_other<'a, T: uParse<Global>>(
    alloc: Global,
    rows: &[(&'a str, &str)],
) -> Option<&'a str> {
    for (text, wanted) in rows {
        let found = stop_of::<T>(alloc, text);
        if !matches!(&found, Ok(found) if found.as_str() == *wanted) {
            return Some(*text);
        }
    }
    None
}

// Where the text stops fitting, and what is expected there. Empty if the text comes back.
fn stop_of<T: uParse<Global>>(alloc: Global, text: &str) -> Result<String, AllocError> {
    match parse::<T, Global>(alloc, text.as_bytes()) {
        Err(ParseError::NotText { at, expected }) => format!(in alloc; "{at} {expected:?}"),
        _ if comes_back::<T>(alloc, text) => Ok(String::new(alloc)),
        _ => Err(AllocError),
    }
}
