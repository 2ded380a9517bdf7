//! The laws of reading and writing that take memory.
use crate::loose::{loosen, read_twice};
use crate::outcome::Outcome;
use crate::report::report;
use crate::samples::{DEBUG, NODE_PLAIN, NODE_PRETTY};
use std::io;
use ufmt::class::Class;
use ufmt::layout::Mode;
use ufmt_doc::ReadError;
use ufmt_doc::doc::Doc;
use ufmt_doc::laws::*;

/// Calls the laws by which texts and a document come back.
pub fn report_laws(rt: &HostRuntime) -> io::Result<()> {
    let node = ("a node", Class::Token);
    report_text(rt, node, Mode::Plain, NODE_PLAIN, 18)?;
    report_text(rt, node, Mode::Pretty, NODE_PRETTY, 19)?;
    let debug = (DEBUG.name, Class::Debug);
    report_text(rt, debug, Mode::Plain, DEBUG.plain, 12)?;
    report_text(rt, debug, Mode::Pretty, DEBUG.pretty, 13)?;
    let (outcome, doc) = read_twice(rt.alloc(), Mode::Plain, LOOSE);
    report(rt, "read_plain", "a tuple, for its normal form", 3, outcome)?;
    match doc {
        Some(doc) => report_normal(rt, doc),
        None => Ok(()),
    }
}

// Prints lines on a text that comes back. To read it and print it takes this many allocations.
fn report_text(
    rt: &HostRuntime,
    (case, class): (&str, Class),
    mode: Mode,
    text: &str,
    allocations: u64,
) -> io::Result<()> {
    let (again, back) = match mode {
        Mode::Plain => ("text_again, plain,", "text_by_way_of_the_other, plain,"),
        Mode::Pretty => ("text_again, pretty,", "text_by_way_of_the_other, pretty,"),
    };
    let outcome = last(text_again(rt.alloc(), class, mode, text.as_bytes()));
    let outcome = Outcome::of_conversion(outcome, Some(text));
    report(rt, again, case, allocations, outcome)?;
    let outcome = last(text_by_way_of_the_other(rt.alloc(), class, mode, text.as_bytes()));
    report(
        rt,
        back,
        case,
        2,
        Outcome::of_conversion(outcome, Some(text)),
    )
}

// The text that came back, without what was in between.
fn last<T: Drop>(outcome: Result<(T, String), ReadError>) -> Result<String, ReadError> {
    match outcome {
        Ok((_, text)) => Ok(text),
        Err(error) => Err(error),
    }
}

// `loosen` turns the leaf into a struct, and the map into a set.
const LOOSE: &str = "(A, {})";

fn report_normal(rt: &HostRuntime, mut doc: Doc) -> io::Result<()> {
    loosen(&mut doc, rt.alloc());
    if !doc.is_token() {
        return Ok(());
    }
    for (call, class, mode, allocations) in [
        (
            "normal_by_way_of_text, plain,",
            Class::Token,
            Mode::Plain,
            4,
        ),
        (
            "normal_by_way_of_text, pretty,",
            Class::Token,
            Mode::Pretty,
            6,
        ),
        (
            "normal_by_way_of_text, debug,",
            Class::Debug,
            Mode::Plain,
            4,
        ),
    ] {
        let normal = normal_by_way_of_text(rt.alloc(), class, mode, &doc);
        let outcome = Outcome::of_value(normal, Some(LOOSE));
        report(rt, call, "a tuple", allocations, outcome)?;
    }
    Ok(())
}
