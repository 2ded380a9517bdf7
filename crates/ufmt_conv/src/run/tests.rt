//! Tests of `run` and of its parts, by rows of input and output.
mod calls;
mod devices;
mod inputs;

use super::*;
use std::alloc::AllocError;
use std::fmt;
use std::process::Abort;
use std::test::Fail;
use ufmt::{Cursor, Formatter, uDebug};
use ufmt_io::testing::{NEVER, Sink, Source, WHOLE};

// Checking an assert takes as long as checking twenty calls, so asserts are calls of this one.
// No other function is generic over the handle: checking that takes as long again.
fn same<T: PartialEq + fmt::Debug + Drop>(rt: &impl Abort, given: T, wanted: T, case: &str) {
    assert_eq!(rt; given, wanted, "{case}");
}

// What a run returns, whether the output took exactly the right bytes, and which device failed.
type Ran = (Result<(), Fault>, bool, (bool, bool));

fn ran(alloc: Global, command: Command, source: Source<'_>, sink: Sink, written: &[u8]) -> Ran {
    let mut input = Watched::new(source);
    let mut output = Watched::new(sink);
    let outcome = run(alloc, command, &mut input, &mut output);
    let is_written = output.device().taken.as_slice() == written;
    let failures = (input.has_failed(), output.has_failed());
    (outcome, is_written, failures)
}

// A run over devices that never fail and move `most` bytes a call.
fn ran_by(alloc: Global, command: Command, input: &[u8], most: usize, written: &[u8]) -> Ran {
    let source = Source::new(input, most, NEVER);
    let sink = Sink::new(alloc, most, NEVER, false);
    ran(alloc, command, source, sink, written)
}

// What `ran` should return. A device failed if the outcome says so.
fn wanted(outcome: Result<(), Fault>) -> Ran {
    let unread = outcome == Err(Fault::CannotRead);
    let unwritten = outcome == Err(Fault::CannotWrite);
    (outcome, true, (unread, unwritten))
}

// Runs by one byte a call, by two and by all.
fn rans_by_any(alloc: Global, command: Command, input: &[u8], written: &[u8]) -> [Ran; 3] {
    [
        ran_by(alloc, command, input, 1, written),
        ran_by(alloc, command, input, 2, written),
        ran_by(alloc, command, input, WHOLE, written),
    ]
}

#[test]
fn lengths_counts_the_bytes_of_lines(rt: HostRuntime) {
    let rows: [(&[u8], &str); 6] = [
        (b"", "[]\n"),
        (b"\n", "[0]\n"),
        (b"ab\n", "[2]\n"),
        (b"ab\n\nxyz", "[2, 0, 3]\n"),
        (b"ab\r\n", "[3]\n"),
        (b"\xff\xfe\n\x80", "[2, 1]\n"),
    ];
    for (input, written) in rows {
        let given = rans_by_any(rt.alloc(), Command::Lengths, input, written.as_bytes());
        same(&rt, given, [wanted(Ok(())); 3], written);
    }
}

#[test]
fn lengths_counts_the_bytes_of_a_long_line(rt: HostRuntime) -> Result<(), Fail> {
    let line = vec![in rt.alloc(); b'a'; 200_000]?;
    let given = ran_by(rt.alloc(), Command::Lengths, &line, 70_000, b"[200000]\n");
    same(&rt, given, wanted(Ok(())), "a line of 200000 bytes");
    Ok(())
}

// The README shows these two texts. `.ci/run` compares them.
const README_PLAIN: &str = "[Measurement { channel: 3, celsius: -4 }]\n";

const README_PRETTY: &str = "\
[
    Measurement {
        channel: 3,
        celsius: -4,
    },
]
";

// The plain text of `count` nested lists around `inner`, and a line feed.
fn nested_lists(alloc: Global, count: usize, inner: &str) -> Result<Vec<u8>, AllocError> {
    let mut text = Vec::new(alloc);
    for _ in 0..count {
        text.push(b'[')?;
    }
    text.extend_from_slice(inner.as_bytes())?;
    for _ in 0..count {
        text.push(b']')?;
    }
    text.push(b'\n')?;
    Ok(text)
}

#[test]
fn lists_are_converted_up_to_255_deep(rt: HostRuntime) -> Result<(), Fail> {
    for (inner, size) in [("x", 261_376), ("[]", 261_377)] {
        let plain = nested_lists(rt.alloc(), 255, inner)?;
        let mut input = Watched::new(Source::new(&plain, WHOLE, NEVER));
        let mut output = Watched::new(Sink::new(rt.alloc(), WHOLE, NEVER, false));
        let result = run(rt.alloc(), Command::Pretty, &mut input, &mut output);
        let pretty = output.device().taken.as_slice();
        same(&rt, (result, pretty.len()), (Ok(()), size + 1), inner);
        let given = ran_by(rt.alloc(), Command::Plain, pretty, WHOLE, &plain);
        same(&rt, given, wanted(Ok(())), inner);
    }
    let too_deep = nested_lists(rt.alloc(), 256, "x")?;
    let given = ran_by(rt.alloc(), Command::Pretty, &too_deep, WHOLE, b"");
    same(&rt, given, wanted(Err(Fault::NotPlain)), "256 lists");
    Ok(())
}

#[test]
fn line_lengths_counts_the_bytes_of_lines(rt: HostRuntime) -> Result<(), Fail> {
    let rows: [(&[u8], &[u64], &str); 4] = [
        (b"", &[], "[]"),
        (b"\n", &[0], "[0]"),
        (b"ab\n\nxyz", &[2, 0, 3], "[2, 0, 3]"),
        (b"ab\n\n", &[2, 0], "[2, 0]"),
    ];
    for (input, lengths, text) in rows {
        let found = line_lengths(rt.alloc(), input)?;
        same(&rt, found.as_slice(), lengths, text);
        let mut buffer = [0; 9];
        let mut f = Formatter::new(Cursor::new(&mut buffer));
        same(&rt, found.fmt(&mut f), Ok(()), text);
        same(&rt, f.into_inner().written(), text.as_bytes(), "printed");
    }
    Ok(())
}

#[test]
fn parse_takes_one_argument(rt: HostRuntime) -> Result<(), Fail> {
    let rows: [(&[&str], Option<Command>); 11] = [
        (&["lengths"], Some(Command::Lengths)),
        (&["pretty"], Some(Command::Pretty)),
        (&["plain"], Some(Command::Plain)),
        (&[], None),
        (&[""], None),
        (&["lengths", "lengths"], None),
        (&["pretty", "plain"], None),
        (&["Pretty"], None),
        (&["Lengths"], None),
        (&["lengths "], None),
        (&["plain\n"], None),
    ];
    for (row, command) in rows {
        let mut arguments = Vec::new(rt.alloc());
        for argument in row {
            arguments.push(String::from_str(rt.alloc(), argument)?)?;
        }
        same(
            &rt,
            (row, Command::parse(&arguments)),
            (row, command),
            "arguments",
        );
    }
    Ok(())
}

#[test]
fn faults_have_lines_and_statuses(rt: HostRuntime) {
    let rows = [
        (Fault::NotPlain, 1, "ufmt_conv: not a plain text"),
        (Fault::NotPretty, 1, "ufmt_conv: not a pretty text"),
        (Fault::CannotRead, 3, "ufmt_conv: cannot read"),
        (Fault::CannotWrite, 4, "ufmt_conv: cannot write"),
        (Fault::OutOfMemory, 5, "ufmt_conv: out of memory"),
    ];
    for (fault, status, line) in rows {
        same(&rt, fault.status(), status, line);
        same(&rt, fault.line(), line, line);
    }
    same(
        &rt,
        usage(),
        "usage: ufmt_conv lengths|pretty|plain",
        "usage",
    );
}
