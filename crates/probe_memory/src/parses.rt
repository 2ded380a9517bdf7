//! Parses values from their texts.
use crate::outcome::{Outcome, has_plain_text};
use crate::report::{report, report_free};
use std::alloc::Global;
use std::borrow::{Cow, CowSlice};
use std::boxed::{BoxedSlice, BoxedStr};
use std::collections::{BTreeMap, BTreeSet, LinkedList, VecDeque};
use std::io;
use std::rc::{Rc, RcSlice, RcStr};
use std::sync::{Arc, ArcSlice, ArcStr};
use ufmt_doc::field_text::read_field;
use ufmt_parse::{parse, parse_pretty, uParse};

const ALARM: &str = "Alarm { node: 3, text: \"say \\\"hi\\\"\" }";

/// Parses values of each type that takes memory, and texts that are no value's. Reads a field.
pub fn report_parses(rt: &HostRuntime) -> io::Result<()> {
    report_values(rt)?;
    report_shared(rt)?;
    report_blocks(rt)?;
    report_slices(rt)?;
    report_refused(rt)?;
    report_without_memory(rt)?;
    let outcome = read_field(rt.alloc(), ALARM.as_bytes(), "text");
    report(
        rt,
        "read_field",
        "a text in quotes",
        8,
        Outcome::of_value(outcome, Some("Some(\"say \\\"hi\\\"\")")),
    )
}

const LONG: &str = "\"\\tmore bytes after it than there is room for at once\"";

fn report_values(rt: &HostRuntime) -> io::Result<()> {
    report_parse::<String>(rt, "a text with escapes", 1, "\"say \\\"hello\\\"\"")?;
    report_parse::<String>(rt, "a text with an escape, past ASCII", 1, "\"a\\nµ\"")?;
    report_parse::<String>(rt, "a long text with an escape", 2, LONG)?;
    report_parse::<Box<u8>>(rt, "a box", 1, "7")?;
    report_parse::<Option<Box<String>>>(rt, "a text in a box", 2, "Some(\"a\")")
}

fn report_shared(rt: &HostRuntime) -> io::Result<()> {
    report_parse::<Rc<u8>>(rt, "a shared value", 1, "7")?;
    report_parse::<Arc<u8>>(rt, "a value that threads share", 1, "7")?;
    report_parse::<Cow<'static, String>>(rt, "an owned text", 1, "\"a\"")?;
    report_parse::<BoxedStr<Global>>(rt, "a boxed text", 1, "\"a\"")?;
    report_parse::<RcStr<Global>>(rt, "a shared text", 2, "\"a\"")?;
    report_parse::<ArcStr<Global>>(rt, "a text that threads share", 2, "\"a\"")
}

const BOXES: &str = "[\n    Some(\n        7,\n    ),\n    None,\n]";

fn report_blocks(rt: &HostRuntime) -> io::Result<()> {
    report_parse::<Vec<String>>(
        rt,
        "a list of texts",
        7,
        "[\"a\", \"b\", \"c\", \"d\", \"e\"]",
    )?;
    report_parse::<[u16; 3]>(rt, "an array", 1, "[1, 2, 3]")?;
    report_parse::<BTreeSet<u16>>(rt, "a set", 2, "{1, 2, 3}")?;
    report_parse::<BTreeMap<u8, Vec<String>>>(
        rt,
        "a map of lists",
        5,
        "{1: [\"a\", \"b\"], 2: []}",
    )?;
    let outcome = parse_pretty::<Vec<Option<Box<u8>>>, Global>(rt.alloc(), BOXES.as_bytes());
    let outcome = Outcome::of_parse(outcome, Some("[Some(7), None]"));
    report(rt, "parse_pretty", "boxes", 2, outcome)
}

const SLICE: &str = "[1, 2, 3]";

fn report_slices(rt: &HostRuntime) -> io::Result<()> {
    report_parse::<VecDeque<u8>>(rt, "a queue", 1, SLICE)?;
    report_parse::<LinkedList<u8>>(rt, "a linked list", 4, SLICE)?;
    report_parse::<BoxedSlice<u8, Global>>(rt, "a boxed slice", 1, SLICE)?;
    report_parse::<RcSlice<u8, Global>>(rt, "a shared slice", 2, SLICE)?;
    report_parse::<ArcSlice<u8, Global>>(rt, "a slice that threads share", 2, SLICE)?;
    report_parse::<CowSlice<'static, u8, Global>>(rt, "an owned slice", 1, SLICE)
}

// Prints a line on the text, which a value has.
fn report_parse<T: uParse<Global>>(
    rt: &HostRuntime,
    case: &str,
    allocations: u64,
    text: &str,
) -> io::Result<()> {
    let outcome = parse::<T, Global>(rt.alloc(), text.as_bytes());
    report(
        rt,
        "parse",
        case,
        allocations,
        Outcome::of_parse(outcome, Some(text)),
    )
}

// What is refused after some of it was taken.
fn report_refused(rt: &HostRuntime) -> io::Result<()> {
    let outcome = parse::<Vec<u8>, Global>(rt.alloc(), b"[1, 2");
    let outcome = Outcome::of_parse(outcome, None);
    report(rt, "parse", "a list without its end", 1, outcome)?;
    let outcome = parse::<BTreeSet<u16>, Global>(rt.alloc(), b"{2, 1}");
    let outcome = Outcome::of_parse(outcome, None);
    report(rt, "parse", "a set whose keys descend", 2, outcome)?;
    let outcome = parse::<Vec<String>, Global>(rt.alloc(), b"[\"a\", b]");
    let outcome = Outcome::of_parse(outcome, None);
    report(rt, "parse", "a list of a text and a word", 2, outcome)
}

// What takes no memory is parsed with no allocator. An empty block takes none either.
fn report_without_memory(rt: &HostRuntime) -> io::Result<()> {
    report_free(rt, "parse", "a number", || {
        is_parsed::<i64>("-9223372036854775808")
    })?;
    report_free(rt, "parse", "a number out of range", || {
        !is_parsed::<u8>("256")
    })?;
    report_free(rt, "parse", "a tuple", || {
        is_parsed::<(Option<bool>, char, ())>("(Some(true), 'é', ())")
    })?;
    let alloc = rt.alloc();
    report_free(rt, "parse", "an empty text, list and map", || {
        match parse::<Empty, Global>(alloc, EMPTY.as_bytes()) {
            Ok(value) => has_plain_text(&value, Some(EMPTY)),
            Err(_) => false,
        }
    })
}

type Empty = (String, Vec<u8>, BTreeMap<u8, u8>);

const EMPTY: &str = "(\"\", [], {})";

// Whether a value has the text.
fn is_parsed<T: uParse<()>>(text: &str) -> bool {
    match parse::<T, ()>((), text.as_bytes()) {
        Ok(value) => has_plain_text(&value, Some(text)),
        Err(_) => false,
    }
}
