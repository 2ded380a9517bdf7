//! Tests of `run`, by rows of input and output.
mod arguments;
mod calls;
mod devices;
mod rows;

use super::*;
use std::alloc::AllocError;
use std::fmt;
use std::process::Abort;
use std::test::Fail;
use ufmt::layout::Mode;
use ufmt_io::testing::{NEVER, Sink, Source, WHOLE};

// Checking an assert takes as long as checking twenty calls, so asserts are calls of this one.
fn same<T: PartialEq + fmt::Debug + Drop>(rt: &impl Abort, given: T, wanted: T, case: &str) {
    assert_eq!(rt; given, wanted, "{case}");
}

// What a run returns, whether the output took exactly the right bytes, and which device failed.
type Ran = (Result<(), IoFault>, bool, (bool, bool));

// Values of every length are converted.
fn every_value(to: Mode) -> Conversion {
    Conversion { to, longer_than: 0 }
}

fn ran(
    alloc: Global,
    conversion: Conversion,
    source: Source<'_>,
    sink: Sink,
    written: &[u8],
) -> Ran {
    let mut input = Watched::new(source);
    let mut output = Watched::new(sink);
    let outcome = run(alloc, conversion, &mut input, &mut output);
    let is_written = output.device().taken.as_slice() == written;
    let failures = (input.has_failed(), output.has_failed());
    (outcome, is_written, failures)
}

// A run over devices that never fail and move `most` bytes a call.
fn ran_by(alloc: Global, conversion: Conversion, input: &[u8], most: usize, written: &[u8]) -> Ran {
    let source = Source::new(input, most, NEVER);
    let sink = Sink::new(alloc, most, NEVER, false);
    ran(alloc, conversion, source, sink, written)
}

// What `ran` should return. A device failed if the outcome says so.
fn wanted(outcome: Result<(), IoFault>) -> Ran {
    let unread = outcome == Err(IoFault::CannotRead);
    let unwritten = outcome == Err(IoFault::CannotWrite);
    (outcome, true, (unread, unwritten))
}

#[test]
fn faults_have_lines(rt: HostRuntime) {
    let rows = [
        (IoFault::CannotRead, "ufmt_lines: cannot read"),
        (
            IoFault::CannotWrite,
            "ufmt_lines: cannot write standard output",
        ),
        (IoFault::OutOfMemory, "ufmt_lines: out of memory"),
    ];
    for (fault, line) in rows {
        same(&rt, fault_line(fault), line, line);
    }
}

// The status of each outcome: of one whose inputs were all read and whose output may be open, of one
// with a missed input, of one with a closed output, and of one with both.
#[test]
fn outcomes_have_statuses(rt: HostRuntime) {
    let rows = [
        (Ok(()), [0, 3, 0, 3]),
        (Err(IoFault::CannotRead), [3, 3, 3, 3]),
        (Err(IoFault::CannotWrite), [4, 4, 141, 141]),
        (Err(IoFault::OutOfMemory), [5, 5, 5, 5]),
    ];
    for (outcome, statuses) in rows {
        let given = [
            status(outcome, false, false),
            status(outcome, true, false),
            status(outcome, false, true),
            status(outcome, true, true),
        ];
        same(&rt, (outcome, given), (outcome, statuses), "an outcome");
    }
}

// Two chunks are read of the input: a line and its line feed stay whole.
#[test]
fn lines_may_be_longer_than_a_chunk(rt: HostRuntime) -> Result<(), Fail> {
    let mut plain = vec![in rt.alloc(); b'a'; 200_000]?;
    plain.extend_from_slice(b" [b, c]\n")?;
    let mut pretty = vec![in rt.alloc(); b'a'; 200_000]?;
    pretty.extend_from_slice(b" [\n    b,\n    c,\n]\n")?;
    let given = ran_by(
        rt.alloc(),
        every_value(Mode::Pretty),
        &plain,
        70_000,
        &pretty,
    );
    same(&rt, given, wanted(Ok(())), "a line of 200008 bytes");
    let given = ran_by(
        rt.alloc(),
        every_value(Mode::Plain),
        &pretty,
        70_000,
        &plain,
    );
    same(&rt, given, wanted(Ok(())), "a group of 200021 bytes");
    Ok(())
}
