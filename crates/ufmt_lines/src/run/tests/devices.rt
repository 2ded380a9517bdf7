//! Tests of `run` over devices that give or take little, over devices that fail, and of how it calls them.
use super::*;
use std::cell::Cell;
use std::io;
use std::io::ErrorKind;

const MODES: [Mode; 2] = [Mode::Pretty, Mode::Plain];

const PLAIN: &[u8] = b"got [1, 2]\n\nx\nS { a: b, c: d }\nend {c, d}";

const PRETTY: &[u8] =
    b"got [\n    1,\n    2,\n]\n\nx\nS {\n    a: b,\n    c: d,\n}\nend {\n    c,\n    d,\n}";

// How many bytes there are of the first up to the end of a line, and of its output.
const PLAIN_ENDS: [(usize, usize); 4] = [(11, 22), (12, 23), (14, 25), (31, 51)];

// How many bytes of the second are read when a group of it has ended, and how many there are of its output.
const PRETTY_ENDS: [(usize, usize); 5] = [(6, 4), (22, 11), (23, 12), (25, 14), (51, 31)];

// The input of a run, and its output.
fn texts(mode: Mode) -> (&'static [u8], &'static [u8]) {
    match mode {
        Mode::Pretty => (PLAIN, PRETTY),
        Mode::Plain => (PRETTY, PLAIN),
    }
}

// These numbers for a run.
fn ends(mode: Mode) -> &'static [(usize, usize)] {
    match mode {
        Mode::Pretty => &PLAIN_ENDS,
        Mode::Plain => &PRETTY_ENDS,
    }
}

// How many bytes of output there are for the groups that end before the last.
fn written_first(mode: Mode) -> usize {
    written_for(mode, usize::MAX)
}

// How many bytes of output there are for the lines that end within this many bytes of the input.
fn written_for(mode: Mode, read: usize) -> usize {
    let mut count = 0;
    for (input, output) in ends(mode) {
        if *input <= read {
            count = *output;
        }
    }
    count
}

#[test]
fn one_byte_a_call_changes_no_output(rt: HostRuntime) {
    for mode in MODES {
        let (input, output) = texts(mode);
        for (read, written) in [(1, 1), (1, WHOLE), (WHOLE, 1), (3, 5)] {
            let source = Source::new(input, read, NEVER);
            let sink = Sink::new(rt.alloc(), written, NEVER, false);
            let given = ran(rt.alloc(), every_value(mode), source, sink, output);
            same(&rt, given, wanted(Ok(())), "bytes");
        }
    }
}

// Whether a run whose reader fails after this many bytes writes the outputs for the lines before.
fn is_written_before(alloc: Global, mode: Mode, read: usize) -> bool {
    let (input, output) = texts(mode);
    let source = Source::new(input, 1, read.saturating_add(1));
    let sink = Sink::new(alloc, WHOLE, NEVER, false);
    let taken = &output[..written_for(mode, read).min(output.len())];
    ran(alloc, every_value(mode), source, sink, taken) == wanted(Err(IoFault::CannotRead))
}

#[test]
fn a_reader_that_fails_loses_no_line_before(rt: HostRuntime) {
    for mode in MODES {
        let (input, _) = texts(mode);
        for read in 0..input.len() + 1 {
            let given = is_written_before(rt.alloc(), mode, read);
            same(&rt, (read, given), (read, true), "bytes before the failure");
        }
    }
}

// A writer takes a byte a call. It is flushed before the second read.
#[test]
fn a_writer_that_fails_has_a_prefix(rt: HostRuntime) {
    for mode in MODES {
        let (input, output) = texts(mode);
        let mut calls = 0usize;
        for taken in 0..output.len() {
            let is_flushed = taken == written_first(mode);
            calls = calls.saturating_add(1 + usize::from(is_flushed));
            let source = Source::new(input, WHOLE, NEVER);
            let sink = Sink::new(rt.alloc(), 1, calls, false);
            let given = ran(
                rt.alloc(),
                every_value(mode),
                source,
                sink,
                &output[..taken],
            );
            same(&rt, given, wanted(Err(IoFault::CannotWrite)), "a write");
        }
    }
}

#[test]
fn a_writer_that_takes_nothing_or_fails_at_the_flush_ends_the_run(rt: HostRuntime) {
    for mode in MODES {
        let (input, output) = texts(mode);
        let first = &output[..written_first(mode).min(output.len())];
        let rows: [(usize, bool, &[u8]); 3] = [
            (0, false, b""),
            (1, true, first),
            (WHOLE, true, first),
        ];
        for (most, fails_flush, taken) in rows {
            let source = Source::new(input, WHOLE, NEVER);
            let sink = Sink::new(rt.alloc(), most, NEVER, fails_flush);
            let given = ran(rt.alloc(), every_value(mode), source, sink, taken);
            same(&rt, given, wanted(Err(IoFault::CannotWrite)), "a writer");
        }
    }
}

// A reader that notes at each call how many bytes the writer has taken.
#[derive(Drop)]
struct Witness<'a> {
    source: Source<'a>,
    taken: &'a Cell<usize>,
    seen: Vec<usize>,
}

impl Read for Witness<'_> {
    fn read(&mut self, buffer: &mut [u8]) -> io::Result<usize> {
        let _noted = self.seen.push(self.taken.get());
        self.source.read(buffer)
    }
}

// A writer that counts what it takes.
#[derive(Drop)]
struct Counter<'a> {
    taken: &'a Cell<usize>,
}

impl Write for Counter<'_> {
    fn write(&mut self, bytes: &[u8]) -> io::Result<usize> {
        self.taken.set(self.taken.get().saturating_add(bytes.len()));
        Ok(bytes.len())
    }

    fn flush(&mut self) -> io::Result<()> {
        Ok(())
    }
}

// How many bytes were written at each read of one byte, in a run that succeeds.
fn written_at_reads(alloc: Global, mode: Mode, text: &[u8]) -> io::Result<Vec<usize>> {
    let taken = Cell::new(0);
    let mut input = Watched::new(Witness {
        source: Source::new(text, 1, NEVER),
        taken: &taken,
        seen: Vec::new(alloc),
    });
    let mut output = Watched::new(Counter { taken: &taken });
    if run(alloc, every_value(mode), &mut input, &mut output).is_err() {
        return Err(io::Error::from(ErrorKind::BrokenPipe));
    }
    let counts = Vec::from_slice(alloc, input.device().seen.as_slice())?;
    Ok(counts)
}

#[test]
fn each_output_is_written_before_more_is_read(rt: HostRuntime) -> Result<(), Fail> {
    for mode in MODES {
        let (text, _) = texts(mode);
        let counts = written_at_reads(rt.alloc(), mode, text)?;
        same(&rt, counts.len(), text.len() + 1, "reads");
        for (read, written) in counts.iter().enumerate() {
            let wanted = (read, written_for(mode, read));
            same(&rt, (read, *written), wanted, "bytes");
        }
    }
    Ok(())
}
