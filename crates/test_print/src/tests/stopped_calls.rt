//! Makes a builder's calls over a writer that refuses one piece, and looks at what the failed call
//! leaves.
use super::builder_calls::{Block, LastCall};
use std::alloc::{AllocError, Global};
use test_rows::writers::FailAt;
use ufmt::{Formatter, Full, uWrite};

/// The place of a builder's calls: the first entry of a list, in one mode.
#[derive(Clone, Copy)]
struct Place<'a> {
    mode: &'static str,
    is_pretty: bool,
    depth: u8,
    /// The pieces before the builder, with a bar after each.
    before: &'static str,
    /// A list of the number 7, at the builder's depth.
    list: &'a str,
}

const PLAIN: Place<'static> = Place {
    mode: "plain",
    is_pretty: false,
    depth: 0,
    before: "[|",
    list: "[7]",
};

const PRETTY: Place<'static> = Place {
    mode: "pretty",
    is_pretty: true,
    depth: 1,
    before: "[|\n|    |",
    list: "[\n        7,\n    ]",
};

/// A call's name, and its pieces with a bar after each.
pub type CallWithPieces = (&'static str, &'static str);

/// What a builder's calls write.
#[derive(Drop)]
struct Calls {
    text: String,
    /// For each piece the call that writes it, and the length of the text before it.
    pieces: Vec<(&'static str, usize)>,
}

impl Calls {
    // Adds the pieces of one call. They have a bar after each.
    fn push(&mut self, call: &'static str, barred: &str) -> Result<(), AllocError> {
        for piece in barred.split('|') {
            if !piece.is_empty() {
                self.pieces.push((call, self.text.len()))?;
                self.text.push_str(piece)?;
            }
        }
        Ok(())
    }

    // The pieces before the builder, and those of its calls.
    fn of(alloc: Global, place: Place<'_>, rows: &[CallWithPieces]) -> Result<Self, AllocError> {
        let mut calls = Calls {
            text: String::new(alloc),
            pieces: Vec::new(alloc),
        };
        calls.push(place.mode, place.before)?;
        for (call, barred) in rows {
            calls.push(call, barred)?;
        }
        Ok(calls)
    }
}

/// What a builder's calls leave: the last of them, whether it was `Ok`, and mode and depth.
type Left = (LastCall, bool, bool, u8);

// Makes a builder's calls in the first entry of a list, and returns what they leave. The formatter continues with a
// list, which the writer doesn't refuse.
fn call_in_list<W: uWrite<Error = Full>>(block: Block, f: &mut Formatter<W>) -> Result<Left, Full> {
    let mut list = f.debug_list()?;
    let f = list.begin_entry()?;
    let mut last = LastCall::closing("opening");
    let is_ok = block.call_in_turn(f, &mut last).is_ok();
    let (is_pretty, depth) = (f.is_pretty(), f.depth());
    f.list_of(&[7u8])?;
    Ok((last, is_ok, is_pretty, depth))
}

fn call_at<W: uWrite<Error = Full>>(
    place: Place<'_>,
    block: Block,
    f: &mut Formatter<W>,
) -> Result<Left, Full> {
    if !place.is_pretty {
        return call_in_list(block, f);
    }
    let mut left = Err(Full);
    f.pretty(|f| {
        left = call_in_list(block, f);
        Ok(())
    })?;
    left
}

// What the calls leave over this writer, and whether mode and depth are as before.
fn call_over<W: uWrite<Error = Full>>(
    place: Place<'_>,
    block: Block,
    writer: W,
) -> (Result<Left, Full>, bool, W) {
    let mut f = Formatter::new(writer);
    let left = call_at(place, block, &mut f);
    let is_as_before = !f.is_pretty() && f.depth() == 0;
    (left, is_as_before, f.into_inner())
}

// Whether this is left by a writer that refuses only the piece with this number. The text before
// that piece has this length.
fn is_left(
    block: Block,
    place: Place<'_>,
    calls: &Calls,
    (number, length, last, is_ok): (usize, usize, LastCall, bool),
) -> bool {
    let mut bytes = [0u8; 100];
    let writer = FailAt::once(&mut bytes, number);
    let (left, is_as_before, writer) = call_over(place, block, writer);
    let written = writer.written();
    let is_written = written.get(..length) == calls.text.as_bytes().get(..length)
        && written.get(length..) == Some(place.list.as_bytes());
    is_as_before && is_written && left == Ok((last, is_ok, place.is_pretty, place.depth))
}

// The number of the first piece whose refusal leaves something wrong.
fn wrong_number(block: Block, place: Place<'_>, calls: &Calls) -> Option<usize> {
    let mut number = 0usize;
    for (name, length) in &calls.pieces {
        number = number.saturating_add(1);
        let stopped = (number, *length, LastCall::closing(name), false);
        if *name != place.mode && !is_left(block, place, calls, stopped) {
            return Some(number);
        }
    }
    None
}

/// Refuses each piece in turn. The call that writes it must fail and close the builder, and the
/// formatter must be as before and still work. Returns the number of the first piece where that is
/// wrong, or 0 if it is the run without a refusal.
pub fn wrong_piece(
    alloc: Global,
    block: Block,
    is_pretty: bool,
    rows: &[CallWithPieces],
) -> Result<Option<usize>, AllocError> {
    let place = if is_pretty { PRETTY } else { PLAIN };
    let calls = Calls::of(alloc, place, rows)?;
    let last = calls.pieces.last().map_or(place.mode, |(call, _)| *call);
    let whole = (0, calls.text.len(), LastCall::closing(last), true);
    if !is_left(block, place, &calls, whole) {
        return Ok(Some(0));
    }
    Ok(wrong_number(block, place, &calls))
}
