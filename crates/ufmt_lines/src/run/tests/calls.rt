//! Tests of how often `run` calls its devices, and in which order.
use super::*;
use std::cell::RefCell;
use ufmt_io::testing::{Calls, NotedSink, NotedSource};

// A run's mode and input, and how many bytes a read gives and a write takes at most.
type Run<'a> = (Mode, &'a [u8], usize, usize);

// The row of calls of a run.
fn row_of(alloc: Global, (mode, text, read, written): Run<'_>, fails_at: usize) -> String {
    let row = String::new(alloc);
    let calls = RefCell::new(Calls { row, fails_at });
    let mut input = Watched::new(NotedSource {
        source: Source::new(text, read, NEVER),
        calls: &calls,
    });
    let mut output = Watched::new(NotedSink {
        sink: Sink::new(alloc, written, NEVER, false),
        calls: &calls,
    });
    let _outcome = run(alloc, every_value(mode), &mut input, &mut output);
    drop(input);
    drop(output);
    calls.into_inner().row
}

// Outputs of 20 bytes, of two, of one, and one of 17 after the end.
const LINES: &[u8] = b"a [1, 2]\nb\n\n[2, 3]";

// Groups that end after 4 bytes, after 13, after 15 and at the end of 30, with outputs of 2, 4, 2 and 10 bytes.
const GROUPS: &[u8] = b"a [\n    1,\n]\nb\nS {\n    c: d,\n}";

const ROWS: [(Run<'static>, &str); 17] = [
    ((Mode::Pretty, LINES, WHOLE, WHOLE), "rwf0wf"),
    ((Mode::Pretty, LINES, 4, WHOLE), "rrrwfrr0wf"),
    (
        (Mode::Pretty, LINES, 1, WHOLE),
        "rrrrrrrrrwfrrwfrwfrrrrrr0wf",
    ),
    ((Mode::Pretty, LINES, WHOLE, 5), "rwwwwwf0wwwwf"),
    ((Mode::Pretty, LINES, WHOLE, 2), "rwwwwwwwwwwwwf0wwwwwwwwwf"),
    ((Mode::Pretty, LINES, WHOLE, 20), "rwwf0wf"),
    ((Mode::Pretty, b"", WHOLE, WHOLE), "0"),
    ((Mode::Pretty, b"a", WHOLE, WHOLE), "r0wf"),
    ((Mode::Pretty, b"[a, b]\n", WHOLE, WHOLE), "rwf0"),
    ((Mode::Pretty, b"\n\n\n", WHOLE, 1), "rwwwf0"),
    ((Mode::Plain, GROUPS, WHOLE, WHOLE), "rwf0wf"),
    ((Mode::Plain, GROUPS, 7, WHOLE), "rwfrwfrwfrr0wf"),
    ((Mode::Plain, GROUPS, WHOLE, 4), "rwwf0wwwf"),
    ((Mode::Plain, GROUPS, WHOLE, 5), "rwwf0wwf"),
    ((Mode::Plain, b"a [\n    1,\n    2", WHOLE, WHOLE), "rwf0wf"),
    ((Mode::Plain, b"[\n", 1, WHOLE), "rr0wf"),
    ((Mode::Plain, b"[1]\n\n", WHOLE, WHOLE), "rwf0"),
];

// Whether each run that fails at a call ends with this call.
fn ends_at_any_failure(alloc: Global, input: Run<'_>, calls: &str) -> Result<bool, AllocError> {
    let mut before = String::new(alloc);
    for (count, call) in calls.chars().enumerate() {
        let mut wanted = before.clone()?;
        wanted.push('!')?;
        if row_of(alloc, input, count.saturating_add(1)) != wanted {
            return Ok(false);
        }
        before.push(call)?;
    }
    Ok(true)
}

// The outputs for what a read gave are one write if the writer takes it whole, and one flush follows.
// Nothing is read before they are written, or after the end, and no device is called after a failure.
#[test]
fn devices_are_called_no_more_than_needed(rt: HostRuntime) -> Result<(), Fail> {
    for (input, calls) in ROWS {
        let given = row_of(rt.alloc(), input, NEVER);
        same(&rt, given.as_str(), calls, calls);
        let ends = ends_at_any_failure(rt.alloc(), input, calls);
        same(&rt, ends, Ok(true), calls);
    }
    Ok(())
}

// How many reads, writes and flushes a run calls.
fn counts_of(row: &str) -> (usize, usize, usize) {
    let (mut reads, mut writes, mut flushes) = (0usize, 0usize, 0usize);
    for call in row.bytes() {
        match call {
            b'w' => writes = writes.saturating_add(1),
            b'f' => flushes = flushes.saturating_add(1),
            _ => reads = reads.saturating_add(1),
        }
    }
    (reads, writes, flushes)
}

// A chunk of 64 KiB takes one read, and the end one more. The outputs for it are one write.
#[test]
fn a_chunk_takes_one_read(rt: HostRuntime) -> Result<(), Fail> {
    let rows: [(Mode, &[u8; 16], usize, (usize, usize, usize)); 5] = [
        (Mode::Pretty, b"aaaaaaaaaaaaaaaa", 65_536, (17, 1, 1)),
        (Mode::Plain, b"aaaaaaaaaaaaaaaa", 65_536, (17, 1, 1)),
        (Mode::Pretty, b"a [12345, 6789]\n", 8192, (3, 2, 2)),
        (Mode::Plain, b"[\n    123456,\n]\n", 8192, (3, 2, 2)),
        (Mode::Plain, b"[\n    1234567,\n]", 8192, (3, 3, 3)),
    ];
    for (mode, piece, count, wanted) in rows {
        let mut text = Vec::new(rt.alloc());
        for _ in 0..count {
            text.extend_from_slice(piece)?;
        }
        let row = row_of(rt.alloc(), (mode, &text, usize::MAX, usize::MAX), NEVER);
        same(&rt, counts_of(&row), wanted, "reads, writes and flushes");
    }
    Ok(())
}

// Each line has 100 lists in one another, and 40,905 bytes of output. Those of 26 lines are 1 MiB and more.
#[test]
fn long_outputs_of_a_read_are_written_on_the_way(rt: HostRuntime) -> Result<(), Fail> {
    let mut line = vec![in rt.alloc(); b'['; 100]?;
    line.extend_from_slice(b"x, y")?;
    line.resize(204, b']')?;
    line.push(b'\n')?;
    for (lines, writes) in [(1, 1), (25, 1), (26, 1), (27, 2), (52, 2), (80, 4)] {
        let mut text = Vec::new(rt.alloc());
        for _ in 0..lines {
            text.extend_from_slice(&line)?;
        }
        let run = (Mode::Pretty, text.as_slice(), usize::MAX, usize::MAX);
        let row = row_of(rt.alloc(), run, NEVER);
        same(
            &rt,
            counts_of(&row),
            (2, writes, writes),
            "reads, writes and flushes",
        );
    }
    Ok(())
}
