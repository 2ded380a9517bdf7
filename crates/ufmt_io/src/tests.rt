//! Tests of watched devices, of reading to the end and of writing whole.
use super::*;
use crate::testing::{Calls, NEVER, NotedSink, NotedSource, Sink, Source, WHOLE};
use std::alloc::Global;
use std::cell::RefCell;
use std::io::{ErrorKind, Read, Write};
use std::process::Abort;
use std::{fmt, io};

// Checking an assert takes as long as checking twenty calls, so asserts are calls of these two.
// No other function is generic over the handle: checking that takes as long again.
fn same<T: PartialEq + fmt::Debug + Drop>(rt: &impl Abort, given: T, wanted: T, case: &str) {
    assert_eq!(rt; given, wanted, "{case}");
}

fn holds(rt: &impl Abort, condition: bool, case: &str) {
    assert!(rt; condition, "{case}");
}

// A watched reader calls its device once, and returns the same. It has failed from the first
// failure on.
#[test]
fn a_watched_reader_notes_a_failed_read(rt: HostRuntime) {
    let never_fails = [
        (1, Ok(2), b"ab..", false),
        (2, Ok(1), b"c...", false),
        (3, Ok(0), b"....", false),
    ];
    let fails_once = [
        (1, Ok(2), b"ab..", false),
        (2, Err(Failed), b"....", true),
        (3, Ok(1), b"c...", true),
    ];
    for (fails_at, rows) in [(NEVER, never_fails), (2, fails_once)] {
        let mut input = Watched::new(Source::new(b"abc", 2, fails_at));
        holds(&rt, !input.has_failed(), "a new one");
        for (call, outcome, read, has_failed) in rows {
            let mut buffer = *b"....";
            let given = input.read_some(&mut buffer);
            same(&rt, (call, given), (call, outcome), "the outcome");
            same(&rt, buffer, *read, "what is read");
            let left = (input.has_failed(), input.device().calls);
            same(&rt, left, (has_failed, call), "failures and calls");
        }
    }
}

// A watched writer has also failed if nothing is taken of a piece that isn't empty.
#[test]
fn a_watched_writer_notes_a_failed_write(rt: HostRuntime) {
    let rows: [(&str, usize, usize, &[u8], Result<usize, Failed>); 6] = [
        ("a whole piece", WHOLE, NEVER, b"abc", Ok(3)),
        ("a prefix", 2, NEVER, b"abc", Ok(2)),
        ("an empty piece", WHOLE, NEVER, b"", Ok(0)),
        ("an empty piece of nothing", 0, NEVER, b"", Ok(0)),
        ("nothing of a piece", 0, NEVER, b"abc", Err(Failed)),
        ("an error", WHOLE, 1, b"abc", Err(Failed)),
    ];
    for (case, most, fails_at, bytes, outcome) in rows {
        let mut output = Watched::new(Sink::new(rt.alloc(), most, fails_at, false));
        holds(&rt, !output.has_failed(), case);
        let has_failed = outcome == Err(Failed);
        same(&rt, output.write_some(bytes), outcome, case);
        let left = (output.has_failed(), output.device().calls);
        same(&rt, left, (has_failed, 1), case);
        same(&rt, output.flush_all(), Ok(()), "a flush after it");
        let left = (output.has_failed(), output.device().calls);
        same(&rt, left, (has_failed, 2), case);
    }
}

#[test]
fn a_watched_writer_notes_a_failed_flush(rt: HostRuntime) {
    for (case, fails_flush, outcome) in [
        ("a flush", false, Ok(())),
        ("a flush that fails", true, Err(Failed)),
    ] {
        let mut output = Watched::new(Sink::new(rt.alloc(), WHOLE, NEVER, fails_flush));
        same(&rt, output.flush_all(), outcome, case);
        let left = (output.has_failed(), output.device().calls);
        same(&rt, left, (fails_flush, 1), case);
        same(&rt, output.write_some(b"ab"), Ok(2), "a piece after it");
        let left = (output.has_failed(), output.device().calls);
        same(&rt, left, (fails_flush, 2), case);
    }
}

#[test]
fn faults_have_statuses(rt: HostRuntime) {
    let rows = [
        (IoFault::CannotRead, 3),
        (IoFault::CannotWrite, 4),
        (IoFault::OutOfMemory, 5),
    ];
    for (fault, status) in rows {
        same(&rt, (fault, fault.status()), (fault, status), "a fault");
    }
}

fn kind_of(error: Option<io::Error>) -> Option<ErrorKind> {
    error.map(|error| error.kind())
}

// The error of the first failure stays: a later one, of another kind, doesn't take its place.
#[test]
fn the_first_failure_stays(rt: HostRuntime) {
    let mut input = Watched::new(Source::new(b"abc", 2, 2));
    let mut buffer = *b"..";
    let _read = input.read_some(&mut buffer);
    same(&rt, kind_of(input.first_failure()), None, "a read");
    for case in ["a failed read", "a read after it"] {
        let _read = input.read_some(&mut buffer);
        let reset = Some(ErrorKind::ConnectionReset);
        same(&rt, kind_of(input.first_failure()), reset, case);
    }
    input.give_up();
    let reset = Some(ErrorKind::ConnectionReset);
    same(
        &rt,
        kind_of(input.first_failure()),
        reset,
        "given up after it",
    );
    let mut input = Watched::new(Source::new(b"", WHOLE, NEVER));
    input.give_up();
    let other = Some(ErrorKind::Other);
    same(&rt, kind_of(input.first_failure()), other, "given up");
}

// A device that fails isn't given up, also if it takes nothing.
#[test]
fn a_caller_gives_up(rt: HostRuntime) {
    let mut output = Watched::new(Sink::new(rt.alloc(), 0, NEVER, true));
    let _written = output.write_some(b"abc");
    let _flushed = output.flush_all();
    let left = (output.has_failed(), output.has_given_up());
    same(&rt, left, (true, false), "a device that fails");
    output.give_up();
    let left = (output.has_failed(), output.has_given_up());
    same(&rt, left, (true, true), "given up");
}

// A device that is interrupted isn't asked again.
#[derive(Drop)]
struct Interrupted {
    calls: usize,
}

impl Read for Interrupted {
    fn read(&mut self, _buffer: &mut [u8]) -> io::Result<usize> {
        self.calls = self.calls.saturating_add(1);
        Err(io::Error::from(ErrorKind::Interrupted))
    }
}

#[test]
fn an_interrupted_read_fails(rt: HostRuntime) {
    let mut input = Watched::new(Interrupted { calls: 0 });
    same(&rt, input.read_some(&mut [0]), Err(Failed), "a read");
    let left = (input.device().calls, kind_of(input.first_failure()));
    let interrupted = Some(ErrorKind::Interrupted);
    same(&rt, left, (1, interrupted), "calls and kind");
}

// Bytes are flushed also if there are none.
#[test]
fn no_bytes_are_flushed(rt: HostRuntime) {
    let mut output = Watched::new(Sink::new(rt.alloc(), WHOLE, NEVER, true));
    same(&rt, write_whole(&mut output, b""), Err(Failed), "no bytes");
    same(&rt, output.device().calls, 1, "calls");
}

// What one read, an empty write, a write, a flush and a read leave: how many bytes of the input are left after
// the first read and at the end, what was taken, and the row of calls.
fn left_by_calls(alloc: Global, fails_at: usize) -> (usize, usize, Vec<u8>, String) {
    let row = String::new(alloc);
    let calls = RefCell::new(Calls { row, fails_at });
    let mut input = NotedSource {
        source: Source::new(b"xy", WHOLE, NEVER),
        calls: &calls,
    };
    let mut output = NotedSink {
        sink: Sink::new(alloc, WHOLE, NEVER, false),
        calls: &calls,
    };
    let mut buffer = *b"..";
    let _first = input.read(&mut buffer);
    let after_first = input.source.left.len();
    let _empty = output.write(b"");
    let _written = output.write(b"abc");
    let _flushed = output.flush();
    let _last = input.read(&mut buffer);
    let at_end = input.source.left.len();
    drop(input);
    let taken = output.sink.taken;
    (after_first, at_end, taken, calls.into_inner().row)
}

// The calls of a reader and a writer are in one row, each before it is made: the device isn't asked in a call
// that fails.
#[test]
fn calls_are_noted_in_a_row(rt: HostRuntime) {
    let rows: [(usize, usize, usize, &[u8], &str); 4] = [
        (NEVER, 0, 0, b"abc", "rewf0"),
        (1, 2, 0, b"abc", "!ewfr"),
        (3, 0, 0, b"", "re!f0"),
        (5, 0, 0, b"abc", "rewf!"),
    ];
    for (fails_at, after_first, at_end, taken, row) in rows {
        let left = left_by_calls(rt.alloc(), fails_at);
        same(&rt, (left.0, left.1), (after_first, at_end), row);
        same(&rt, left.2.as_slice(), taken, row);
        same(&rt, left.3.as_str(), row, "the calls");
    }
}

// A writer that takes nothing of a piece has an error too.
#[test]
fn failed_writes_and_flushes_have_kinds(rt: HostRuntime) {
    let rows = [
        ("a write", WHOLE, 1, ErrorKind::BrokenPipe),
        ("a flush", WHOLE, 2, ErrorKind::BrokenPipe),
        (
            "nothing of a piece, and a flush",
            0,
            2,
            ErrorKind::WriteZero,
        ),
    ];
    for (case, most, fails_at, kind) in rows {
        let mut output = Watched::new(Sink::new(rt.alloc(), most, fails_at, false));
        let _written = output.write_some(b"abc");
        let _flushed = output.flush_all();
        same(&rt, kind_of(output.first_failure()), Some(kind), case);
    }
}
