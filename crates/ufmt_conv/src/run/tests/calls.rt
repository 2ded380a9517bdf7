//! Tests of how often `run` calls its devices, and in which order.
use super::*;
use std::cell::RefCell;
use ufmt_io::testing::{Calls, NotedSink, NotedSource};

// A run's command and input, and how many bytes a read gives and a write takes at most.
type Run<'a> = (Command, &'a [u8], usize, usize);

// The row of calls of a run.
fn row_of(alloc: Global, (command, text, read, written): Run<'_>, fails_at: usize) -> String {
    let row = String::new(alloc);
    let calls = RefCell::new(Calls { row, fails_at });
    let mut input = Watched::new(NotedSource {
        source: Source::new(text, read, NEVER),
        calls: &calls,
    });
    let mut output = Watched::new(NotedSink {
        sink: Sink::new(alloc, written, NEVER, false),
        calls: &calls,
    });
    let _outcome = run(alloc, command, &mut input, &mut output);
    drop(input);
    drop(output);
    calls.into_inner().row
}

// Four bytes of input and seven of output, four and eleven, ten and five, none and three. What is no text
// has no output. A writer that takes nothing isn't called again.
const ROWS: [(Run<'static>, &str); 17] = [
    ((Command::Lengths, b"ab\nc", WHOLE, WHOLE), "r0wf"),
    ((Command::Lengths, b"ab\nc", 1, 1), "rrrr0wwwwwwwf"),
    ((Command::Lengths, b"ab\nc", WHOLE, 1), "r0wwwwwwwf"),
    ((Command::Lengths, b"ab\nc", WHOLE, 0), "r0w"),
    ((Command::Pretty, b"(x,)", WHOLE, WHOLE), "r0wf"),
    ((Command::Pretty, b"(x,)", 1, 1), "rrrr0wwwwwwwwwwwf"),
    ((Command::Pretty, b"(x,)", WHOLE, 0), "r0w"),
    ((Command::Plain, b"(\n    x,\n)", WHOLE, WHOLE), "r0wf"),
    ((Command::Plain, b"(\n    x,\n)", 1, 1), "rrrrrrrrrr0wwwwwf"),
    ((Command::Plain, b"(\n    x,\n)", WHOLE, 0), "r0w"),
    ((Command::Pretty, b"[x,]", WHOLE, WHOLE), "r0"),
    ((Command::Pretty, b"[x,]", 1, 1), "rrrr0"),
    ((Command::Plain, b"(x,)", WHOLE, WHOLE), "r0"),
    ((Command::Plain, b"(x,)", 1, 1), "rrrr0"),
    ((Command::Lengths, b"", WHOLE, WHOLE), "0wf"),
    ((Command::Lengths, b"", 1, 1), "0wwwf"),
    ((Command::Lengths, b"", WHOLE, 0), "0w"),
];

// Whether each run that fails at a call ends with this call.
fn ends_at_any_failure(alloc: Global, input: Run<'_>, calls: &str) -> Result<bool, AllocError> {
    let mut before = String::new(alloc);
    for (count, call) in calls.chars().enumerate() {
        let mut wanted = before.clone()?;
        wanted.push('!')?;
        if row_of(alloc, input, count.saturating_add(1)) != wanted {
            return Ok(false);
        }
        before.push(call)?;
    }
    Ok(true)
}

// The first read that gives nothing ends the input. The output is one write if the writer takes it
// whole, and one flush follows the last write. No device is called after a failure.
#[test]
fn devices_are_called_no_more_than_needed(rt: HostRuntime) -> Result<(), Fail> {
    for (input, calls) in ROWS {
        let given = row_of(rt.alloc(), input, NEVER);
        same(&rt, given.as_str(), calls, calls);
        let ends = ends_at_any_failure(rt.alloc(), input, calls);
        same(&rt, ends, Ok(true), calls);
    }
    Ok(())
}

// A read takes 64 KiB, and the end one more. The output for a word is the word, and is one write too.
#[test]
fn a_mebibyte_takes_17_reads_and_a_write(rt: HostRuntime) -> Result<(), Fail> {
    let word = vec![in rt.alloc(); b'a'; 1_048_576]?;
    for command in [Command::Lengths, Command::Pretty, Command::Plain] {
        let given = row_of(rt.alloc(), (command, &word, usize::MAX, usize::MAX), NEVER);
        same(
            &rt,
            (command, given.as_str()),
            (command, "rrrrrrrrrrrrrrrr0wf"),
            "a mebibyte",
        );
    }
    Ok(())
}
