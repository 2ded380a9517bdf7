//! The calls that take memory, on texts and values. Each has a line that says what it returned.
use crate::outcome::Outcome;
use crate::printed::two_nodes;
use crate::report::report;
use crate::samples::{DEBUG, NODE_PLAIN, NODE_PRETTY, Sample};
use std::alloc::{AllocError, Global};
use std::io;
use ufmt::class::Class;
use ufmt::layout::Mode;
use ufmt::{
    Formatter, HexOptions, pieces, plain_text, pretty_text, uWrite, uwriteln, write_debug,
    write_display, write_line, write_pretty,
};
use ufmt_doc::convert::{convert, to_plain, to_pretty, write_converted};
use ufmt_doc::{Doc, ReadError, read_debug, read_plain, read_pretty};

// A conversion that returns a `String` reserves a kilobyte at once. No sample's text is longer.
const OF_A_STRING: u64 = 1;

/// Reads the texts of a sample.
pub fn report_readers(rt: &HostRuntime, sample: &Sample) -> io::Result<()> {
    let (plain, pretty) = (sample.plain.as_bytes(), sample.pretty.as_bytes());
    let ample = sample.ample_plain();
    let outcome = Outcome::of_value(read_plain(rt.alloc(), plain), ample);
    report(rt, "read_plain", sample.name, sample.of_document, outcome)?;
    let outcome = Outcome::of_value(read_pretty(rt.alloc(), pretty), ample);
    report(rt, "read_pretty", sample.name, sample.of_document, outcome)
}

/// Converts each text of a sample to the other.
pub fn report_conversions(rt: &HostRuntime, sample: &Sample) -> io::Result<()> {
    let alloc = rt.alloc();
    let (plain, pretty) = (sample.plain.as_bytes(), sample.pretty.as_bytes());
    let outcome = to_pretty(alloc, plain);
    report_pretty(rt, sample, ("to_pretty", OF_A_STRING), outcome)?;
    let outcome = to_plain(alloc, pretty);
    report_plain(rt, sample, ("to_plain", OF_A_STRING), outcome)?;
    report_written_texts(rt, sample, Class::Token)
}

/// Reads and converts the texts of a debug document.
pub fn report_debug_texts(rt: &HostRuntime) -> io::Result<()> {
    let (alloc, sample) = (rt.alloc(), &DEBUG);
    let (plain, pretty) = (sample.plain.as_bytes(), sample.pretty.as_bytes());
    for (call, mode, text) in [
        ("read_debug, plain,", Mode::Plain, plain),
        ("read_debug, pretty,", Mode::Pretty, pretty),
    ] {
        let outcome = Outcome::of_value(read_debug(alloc, mode, text), Some(sample.plain));
        report(rt, call, sample.name, sample.of_document, outcome)?;
    }
    let outcome = convert(alloc, Class::Debug, Mode::Pretty, plain);
    report_pretty(rt, sample, ("convert, to pretty,", OF_A_STRING), outcome)?;
    let outcome = convert(alloc, Class::Debug, Mode::Plain, pretty);
    report_plain(rt, sample, ("convert, to plain,", OF_A_STRING), outcome)?;
    report_written_texts(rt, sample, Class::Debug)
}

// Converts each text of a sample of this class to the other, into a `String` as a writer.
fn report_written_texts(rt: &HostRuntime, sample: &Sample, class: Class) -> io::Result<()> {
    let alloc = rt.alloc();
    let (plain, pretty) = (sample.plain.as_bytes(), sample.pretty.as_bytes());
    let outcome = written(alloc, class, Mode::Pretty, plain);
    let line = ("write_converted, to pretty,", sample.of_pretty);
    report_pretty(rt, sample, line, outcome)?;
    let outcome = written(alloc, class, Mode::Plain, pretty);
    let line = ("write_converted, to plain,", sample.of_plain);
    report_plain(rt, sample, line, outcome)
}

// Prints a line on a conversion of a sample's plain text, with its name and its allocations.
fn report_pretty(
    rt: &HostRuntime,
    sample: &Sample,
    (call, allocations): (&str, u64),
    outcome: Result<String, ReadError>,
) -> io::Result<()> {
    let outcome = Outcome::of_conversion(outcome, sample.ample_pretty());
    report(rt, call, sample.name, allocations, outcome)
}

// Prints a line on a conversion of a sample's pretty text.
fn report_plain(
    rt: &HostRuntime,
    sample: &Sample,
    (call, allocations): (&str, u64),
    outcome: Result<String, ReadError>,
) -> io::Result<()> {
    let outcome = Outcome::of_conversion(outcome, sample.ample_plain());
    report(rt, call, sample.name, allocations, outcome)
}

fn written(alloc: Global, class: Class, to: Mode, text: &[u8]) -> Result<String, ReadError> {
    let mut converted = String::new(alloc);
    write_converted(&mut converted, class, to, text)?;
    Ok(converted)
}

/// Makes the texts of a node and of three lengths.
pub fn report_values(rt: &HostRuntime) -> io::Result<()> {
    let outcome = Outcome::of_text(plain_text(rt.alloc(), &two_nodes()), NODE_PLAIN);
    report(rt, "plain_text", "a node", 4, outcome)?;
    let outcome = Outcome::of_text(pretty_text(rt.alloc(), &two_nodes()), NODE_PRETTY);
    report(rt, "pretty_text", "a node", 5, outcome)?;
    let lengths = [2u64, 0, 3];
    let outcome = Outcome::of_text(plain_text(rt.alloc(), &lengths), "[2, 0, 3]");
    report(rt, "plain_text", "three lengths", 2, outcome)?;
    let pretty = "[\n    2,\n    0,\n    3,\n]";
    let outcome = Outcome::of_text(pretty_text(rt.alloc(), &lengths), pretty);
    report(rt, "pretty_text", "three lengths", 3, outcome)
}

// A text, and its leaf in quotes.
const TEXT: &str = "a\"é\n";

const QUOTED: &str = "\"a\\\"é\\n\"";

// What a character is, the character, and its leaf in quotes.
const CHARACTERS: [(&str, char, &str); 6] = [
    ("a letter", 'a', "'a'"),
    ("an apostrophe", '\'', "'\\''"),
    ("a control character", '\u{7f}', "'\\u{7f}'"),
    ("a character of two bytes", 'é', "'é'"),
    ("a character of three bytes", '€', "'€'"),
    ("a character of four bytes", '\u{1f600}', "'\u{1f600}'"),
];

/// Makes leaves in quotes of texts and characters.
pub fn report_quoted(rt: &HostRuntime) -> io::Result<()> {
    let outcome = Outcome::of_value(leaf_of_text(rt.alloc(), TEXT), Some(QUOTED));
    report(rt, "Doc::text", "a text", 2, outcome)?;
    let outcome = Outcome::of_value(leaf_of_text(rt.alloc(), ""), Some("\"\""));
    report(rt, "Doc::text", "no byte", 1, outcome)?;
    for (case, character, leaf) in CHARACTERS {
        let outcome = Outcome::of_value(leaf_of_character(rt.alloc(), character), Some(leaf));
        report(rt, "Doc::character", case, 1, outcome)?;
    }
    Ok(())
}

fn leaf_of_text(alloc: Global, text: &str) -> Result<Doc, ReadError> {
    Ok(Doc::text(alloc, text)?)
}

fn leaf_of_character(alloc: Global, character: char) -> Result<Doc, ReadError> {
    Ok(Doc::character(alloc, character)?)
}

const HEXADECIMAL: HexOptions = HexOptions {
    upper_case: false,
    pad_char: b'0',
    pad_length: 4,
    ox_prefix: true,
};

/// Writes to a `String`, which takes memory for its text.
pub fn report_writers(rt: &HostRuntime) -> io::Result<()> {
    report_written(rt, ("write_str", "a text", 1), "aé", |text| {
        uWrite::write_str(text, "aé")
    })?;
    report_written(rt, ("write_char", "a character", 1), "é", |text| {
        uWrite::write_char(text, 'é')
    })?;
    report_written(rt, ("write_debug", "a text", 1), "\"é\"", |text| {
        write_debug(text, &"é")
    })?;
    report_written(rt, ("write_display", "a text", 1), "é", |text| {
        write_display(text, &"é")
    })?;
    let pretty = "Some(\n    1,\n)";
    report_written(rt, ("write_pretty", "a number", 2), pretty, |text| {
        write_pretty(text, &Some(1u8))
    })?;
    let line = pieces!(text "n=", display 7u8, hex 1u8 with HEXADECIMAL);
    report_written(rt, ("write_line", "three pieces", 1), "n=70x01", |text| {
        write_line(text, &line)
    })?;
    report_written(rt, ("uwriteln", "two pieces", 1), "n=7\n", |text| {
        uwriteln!(&mut Formatter::new(text), text "n=", debug 7u8)
    })
}

// Prints a line on a call that writes this text, with its name, its case and its allocations.
fn report_written<F: FnOnce(&mut String) -> Result<(), AllocError>>(
    rt: &HostRuntime,
    line: (&str, &str, u64),
    ample: &str,
    write: F,
) -> io::Result<()>
where
    requires { F.IsAlwaysCallable write }
{
    let (call, case, allocations) = line;
    let mut text = String::new(rt.alloc());
    let outcome = match write(&mut text) {
        Ok(()) if text.as_str() != ample => Outcome::Other,
        outcome => Outcome::of_memory(outcome),
    };
    report(rt, call, case, allocations, outcome)
}
