//! Tests of `run` over devices that give or take little, and over devices that fail.
use super::*;

// A command, an input and the whole output.
fn commands() -> [(Command, &'static [u8], &'static [u8]); 3] {
    let (plain, pretty) = (README_PLAIN.as_bytes(), README_PRETTY.as_bytes());
    [
        (Command::Lengths, b"ab\n\nxyz", b"[2, 0, 3]\n"),
        (Command::Pretty, plain, pretty),
        (Command::Plain, pretty, plain),
    ]
}

// Devices of which both, or one, move one byte a call.
#[test]
fn one_byte_a_call_changes_no_output(rt: HostRuntime) {
    for (command, input, output) in commands() {
        for (read, written) in [(1, 1), (1, WHOLE), (WHOLE, 1)] {
            let source = Source::new(input, read, NEVER);
            let sink = Sink::new(rt.alloc(), written, NEVER, false);
            let given = ran(rt.alloc(), command, source, sink, output);
            same(&rt, (command, given), (command, wanted(Ok(()))), "bytes");
        }
    }
}

// The outcome of a run whose reader fails at this call. Nothing should be written.
fn ran_unread(alloc: Global, command: Command, input: &[u8], most: usize, fails_at: usize) -> Ran {
    let source = Source::new(input, most, fails_at);
    ran(
        alloc,
        command,
        source,
        Sink::new(alloc, WHOLE, NEVER, false),
        b"",
    )
}

// A reader gives the whole input in a call, or one byte a call. One more call gives nothing.
#[test]
fn a_reader_that_fails_at_any_call_ends_the_run(rt: HostRuntime) {
    let unread = wanted(Err(Fault::CannotRead));
    for (command, input, _output) in commands() {
        for fails_at in [1, 2] {
            let given = ran_unread(rt.alloc(), command, input, WHOLE, fails_at);
            same(&rt, (command, given), (command, unread), "whole");
        }
        for count in 0..input.len().saturating_add(1) {
            let fails_at = count.saturating_add(1);
            let given = ran_unread(rt.alloc(), command, input, 1, fails_at);
            same(&rt, (command, given), (command, unread), "byte by byte");
        }
    }
}

// The outcome of a run over this writer, which should take only these bytes.
fn ran_unwritten(alloc: Global, command: Command, input: &[u8], sink: Sink, taken: &[u8]) -> Ran {
    ran(
        alloc,
        command,
        Source::new(input, WHOLE, NEVER),
        sink,
        taken,
    )
}

// A writer takes the whole output in a call, or one byte a call.
#[test]
fn a_writer_that_fails_at_any_call_ends_the_run(rt: HostRuntime) {
    let unwritten = wanted(Err(Fault::CannotWrite));
    for (command, input, output) in commands() {
        let sink = Sink::new(rt.alloc(), WHOLE, 1, false);
        let given = ran_unwritten(rt.alloc(), command, input, sink, b"");
        same(&rt, (command, given), (command, unwritten), "whole");
        for count in 0..output.len() {
            let sink = Sink::new(rt.alloc(), 1, count + 1, false);
            let given = ran_unwritten(rt.alloc(), command, input, sink, &output[..count]);
            same(&rt, (command, given), (command, unwritten), "byte by byte");
        }
    }
}

// A writer takes nothing. Others take everything, by one byte a call or whole, and fail at the flush.
#[test]
fn a_writer_that_takes_nothing_or_fails_at_the_flush_ends_the_run(rt: HostRuntime) {
    for (command, input, output) in commands() {
        let rows: [(usize, bool, &[u8]); 3] = [
            (0, false, b""),
            (1, true, output),
            (WHOLE, true, output),
        ];
        for (most, fails_flush, taken) in rows {
            let sink = Sink::new(rt.alloc(), most, NEVER, fails_flush);
            let given = ran_unwritten(rt.alloc(), command, input, sink, taken);
            let wanted = wanted(Err(Fault::CannotWrite));
            same(&rt, (command, given), (command, wanted), "a writer");
        }
    }
}
