//! The arguments after the program's name.
ghost use Rattle.std.specs.Prelude.{◌≡◌, ◌++◌, drop, false, map, string_bytes, Err, IfErr, IfOk, Ok, OnOk};
ghost use Rattle.ufmt_lines.specs.Arguments.{asked_of, conversion_of, decimal_value, files_after, inputs_of, is_digit, is_option, limit_in, line_of_mistake, or_nothing, word_of};
ghost use Rattle.ufmt_scan.specs.Rest.{now_of};

use super::conversion::Conversion;
use std::alloc::{AllocError, Global};
use ufmt::layout::Mode;

/// What the program is asked for.
#[derive(Clone, Copy, PartialEq, Eq)]
pub enum Request {
    /// Its inputs, with their values converted.
    Convert(Conversion),
    /// What the program does, and its arguments.
    Help,
    /// Its version.
    Version,
}

/// An argument that is wrong.
#[derive(Clone, Copy, PartialEq, Eq, Debug)]
pub struct Mistake<'a> {
    /// What is wrong.
    pub what: &'static str,
    /// The argument, which is said after it.
    pub word: &'a str,
}

// What a word is, if no word before it is `--`.
#[derive(Clone, Copy, PartialEq, Eq)]
enum Word {
    File,
    Plain,
    LongerThan,
    /// The same with its number, after an equals sign.
    LongerThanIs,
    OfHelp,
    OfVersion,
    Last,
    Unknown,
}

// Texts of more bytes become pretty, if nothing else is said.
const LONGER_THAN: usize = 40;

// The name of standard input.
const STANDARD_INPUT: &str = "-";

const UNKNOWN: &str = "ufmt_lines: unknown option: ";

const NO_NUMBER: &str = "ufmt_lines: --longer-than needs a number";

const NOT_A_NUMBER: &str =
    "ufmt_lines: --longer-than needs a number below 2^64 in decimal digits, not: ";

const LIMIT_OF_PLAIN: &str = "ufmt_lines: --longer-than doesn't go with --plain";

// Promise (programs): The arguments of `ufmt_lines` ask for what its usage says, or the first wrong one is
// named. Its inputs are the arguments that name files, or `-`. Its status says how the run ended. Also:
// `arguments::inputs`, `fault::status`, `fault_line`.
/// Returns what the arguments ask for, or the first that is wrong. Files may be between options. Of two
/// limits the second counts.
pub fn asked(words: &[String]) -> Result<Request, Mistake<'_>>
    ensures ok { IfOk result (λ request. asked_of (map string_bytes words.now) ≡ Ok request) }
    ensures wrong { IfErr result (λ mistake. asked_of (map string_bytes words.now)
        ≡ Err (line_of_mistake mistake)) }
{
    let mut is_plain = false;
    let mut limit = None;
    let mut rest = words;
    while let Some((word, after)) = rest.split_first() {
        rest = after;
        match word_of(word.as_str()) {
            Word::File => {}
            Word::Plain => is_plain = true,
            Word::LongerThan => match rest.split_first() {
                None => return Err(wrong(NO_NUMBER, "")),
                Some((number, after)) => match decimal_value(number.as_bytes()) {
                    None => return Err(wrong(NOT_A_NUMBER, number.as_str())),
                    Some(bytes) => {
                        limit = Some(bytes);
                        rest = after;
                    }
                },
            },
            Word::LongerThanIs => match decimal_value(number_in(word.as_bytes())) {
                None => return Err(wrong(NOT_A_NUMBER, word.as_str())),
                Some(bytes) => limit = Some(bytes),
            },
            Word::OfHelp => return Ok(Request::Help),
            Word::OfVersion => return Ok(Request::Version),
            Word::Last => return conversion(is_plain, limit),
            Word::Unknown => return Err(wrong(UNKNOWN, word.as_str())),
        }
    }
    conversion(is_plain, limit)
}

fn wrong<'a>(what: &'static str, word: &'a str) -> Mistake<'a>
    ensures { line_of_mistake result ≡ what.now ++ word.now }
{
    Mistake { what, word }
}

// What is asked for with `--plain` or without, and with a limit or without.
fn conversion(is_plain: bool, limit: Option<usize>) -> Result<Request, Mistake<'static>>
    ensures ok { IfOk result (λ request. conversion_of is_plain limit ≡ Ok request) }
    ensures wrong { IfErr result (λ mistake. conversion_of is_plain limit
        ≡ Err (line_of_mistake mistake)) }
{
    if is_plain && limit.is_some() {
        return Err(wrong(LIMIT_OF_PLAIN, ""));
    }
    Ok(Request::Convert(Conversion {
        to: if is_plain { Mode::Plain } else { Mode::Pretty },
        longer_than: limit.unwrap_or(LONGER_THAN),
    }))
}

/// Returns the names of the inputs: the arguments that name files, or `-` if there are none.
pub fn inputs<'a>(alloc: Global, words: &'a [String]) -> Result<Vec<&'a str>, AllocError>
    ensures { IfOk result (λ names. map (λ name. name.now) names.items
        ≡ inputs_of (map string_bytes words.now)) }
{
    let mut names = files(alloc, words)?;
    if names.is_empty() {
        names.push(STANDARD_INPUT)?;
    }
    Ok(names)
}

// The arguments that name files.
fn files<'a>(alloc: Global, words: &'a [String]) -> Result<Vec<&'a str>, AllocError>
    ensures { IfOk result (λ names. map (λ name. name.now) names.items
        ≡ files_after false (map string_bytes words.now)) }
{
    let mut names = Vec::new(alloc);
    let mut rest = words;
    while let Some((word, after)) = rest.split_first() {
        rest = after;
        match word_of(word.as_str()) {
            Word::File => names.push(word.as_str())?,
            Word::LongerThan => rest = after_first(rest),
            Word::Last => {
                push_all(&mut names, rest)?;
                rest = &[];
            }
            Word::Plain | Word::LongerThanIs | Word::OfHelp | Word::OfVersion | Word::Unknown => {}
        }
    }
    Ok(names)
}

// All but the first.
fn after_first(words: &[String]) -> &[String]
    ensures { result.now ≡ drop 1 words.now }
{
    match words {
        [] => words,
        [_, after @ ..] => after,
    }
}

fn push_all<'a>(names: &mut Vec<&'a str>, words: &'a [String]) -> Result<(), AllocError>
    ensures { OnOk result (map (λ name. name.now) names.new.items
        ≡ map (λ name. name.now) names.old.items ++ map string_bytes words.now) }
{
    let mut rest = words;
    while let Some((word, after)) = rest.split_first() {
        names.push(word.as_str())?;
        rest = after;
    }
    Ok(())
}

fn word_of(word: &str) -> Word
    ensures { result ≡ word_of word.now }
{
    match word {
        "--plain" => Word::Plain,
        "--longer-than" => Word::LongerThan,
        "--help" => Word::OfHelp,
        "-h" => Word::OfHelp,
        "--version" => Word::OfVersion,
        "-V" => Word::OfVersion,
        "--" => Word::Last,
        _ if limit_in(word.as_bytes()).is_some() => Word::LongerThanIs,
        _ if is_option(word.as_bytes()) => Word::Unknown,
        _ => Word::File,
    }
}

// The number in the same word as its option, after an equals sign.
fn limit_in(word: &[u8]) -> Option<&[u8]>
    ensures { now_of result ≡ limit_in word.now }
{
    word.strip_prefix(b"--longer-than=")
}

// The same, or nothing.
fn number_in(word: &[u8]) -> &[u8]
    ensures { result.now ≡ or_nothing (limit_in word.now) }
{
    match limit_in(word) {
        Some(number) => number,
        None => &[],
    }
}

// Whether a word begins with a hyphen and has more.
fn is_option(word: &[u8]) -> bool
    ensures { result ≡ is_option word.now }
{
    word.len() > 1 && word[0] == b'-'
}

// The number that these decimal digits denote, if a `usize` holds it.
fn decimal_value(digits: &[u8]) -> Option<usize>
    ensures { result ≡ decimal_value digits.now }
{
    if digits.is_empty() {
        return None;
    }
    let mut value: usize = 0;
    let mut rest = digits;
    while let Some((digit, after)) = rest.split_first() {
        if !is_digit(*digit) {
            return None;
        }
        value = value
            .checked_mul(10)?
            .checked_add((*digit - b'0') as usize)?;
        rest = after;
    }
    Some(value)
}

fn is_digit(byte: u8) -> bool
    ensures { result ≡ is_digit byte }
{
    byte >= b'0' && byte <= b'9'
}
