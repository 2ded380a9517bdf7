//! Parses a text in the mode of its calls.
use crate::read::calls::Calls;
use ufmt::layout::Mode;
use ufmt_parse::{ParseError, parse, parse_pretty, uParse};

/// Parses a text of either class.
pub fn parse_in_mode<T: uParse<A>, A>(calls: Calls<'_>, alloc: A) -> Result<T, ParseError> {
    match calls.mode {
        Mode::Plain => parse(alloc, calls.text),
        Mode::Pretty => parse_pretty(alloc, calls.text),
    }
}
