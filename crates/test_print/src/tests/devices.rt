//! Tests of the writers over std: a device that takes a few bytes a call, is interrupted or fails, and a vector of bytes.
use super::asserts::same;
use std::alloc::Global;
use std::io::{self, ErrorKind, Write};
use test_rows::rows_of;
use ufmt::{Device, uWrite, write_debug};

// A call with this number never comes.
const NEVER: usize = 0;

// What a call does that doesn't write.
#[derive(Clone, Copy, Drop)]
enum Instead {
    Fails(ErrorKind),
    TakesNone,
}

// Takes at most `most` bytes a call. From call number `from` on, for so many calls, it does something else.
#[derive(Drop)]
struct Slow {
    taken: Vec<u8>,
    calls: usize,
    most: usize,
    from: usize,
    times: usize,
    instead: Instead,
}

impl Slow {
    fn new(alloc: Global, most: usize, from: usize, times: usize, instead: Instead) -> Self {
        Slow {
            taken: Vec::new(alloc),
            calls: 0,
            most,
            from,
            times,
            instead,
        }
    }
}

impl Write for Slow {
    fn write(&mut self, bytes: &[u8]) -> io::Result<usize> {
        self.calls = self.calls.saturating_add(1);
        let is_other = self.from != NEVER
            && self.calls >= self.from
            && self.calls < self.from.saturating_add(self.times);
        match self.instead {
            Instead::Fails(kind) if is_other => Err(io::Error::from(kind)),
            Instead::TakesNone if is_other => Ok(0),
            _ => {
                let count = self.most.min(bytes.len());
                self.taken.extend_from_slice(&bytes[..count])?;
                Ok(count)
            }
        }
    }

    fn flush(&mut self) -> io::Result<()> {
        Ok(())
    }
}

// A list has the pieces `[`, `1`, `, `, `20`, `]`. A piece of one byte may be interrupted 64 times.
#[test]
fn a_device_is_a_writer(rt: HostRuntime) {
    let interrupted = Instead::Fails(ErrorKind::Interrupted);
    let closed = Instead::Fails(ErrorKind::BrokenPipe);
    let rows = rows_of![
        "whole pieces", (16, NEVER, 0, closed) => (None, "[1, 20]", 5);
        "a byte a call", (1, NEVER, 0, closed) => (None, "[1, 20]", 7);
        "one interruption", (16, 3, 1, interrupted) => (None, "[1, 20]", 6);
        "64 interruptions", (16, 1, 64, interrupted) => (None, "[1, 20]", 69);
        "interruptions without end", (16, 1, 1000, interrupted) => (Some(ErrorKind::Interrupted), "", 65);
        "a closed pipe", (16, 3, 1, closed) => (Some(ErrorKind::BrokenPipe), "[1", 3);
        "a closed pipe in a piece", (1, 6, 1, closed) => (Some(ErrorKind::BrokenPipe), "[1, 2", 6);
        "no byte is taken", (16, 4, 1, Instead::TakesNone) => (Some(ErrorKind::WriteZero), "[1, ", 4);
    ];
    for (case, (most, from, times, instead), (error, text, calls)) in rows {
        let mut device = Device::new(Slow::new(rt.alloc(), most, from, times, instead));
        let outcome = write_debug(&mut device, &[1u8, 20]);
        same(&rt, outcome.err().map(|error| error.kind()), error, case);
        let device = device.into_inner();
        same(&rt, device.taken.as_slice(), text.as_bytes(), case);
        same(&rt, device.calls, calls, case);
    }
}

// An empty piece is no call.
#[test]
fn a_device_takes_no_empty_piece(rt: HostRuntime) {
    let closed = Instead::Fails(ErrorKind::BrokenPipe);
    let mut device = Device::new(Slow::new(rt.alloc(), 16, 1, 1, closed));
    same(&rt, device.write_str("").is_ok(), true, "an empty piece");
    same(&rt, device.into_inner().calls, 0, "no call");
}

// Also a character, and through a `&mut`.
#[test]
fn a_vector_of_bytes_is_a_writer(rt: HostRuntime) {
    let mut bytes = Vec::new(rt.alloc());
    let outcome = write_debug(&mut bytes, &(1u8, "é"));
    same(&rt, outcome.is_ok(), true, "a tuple");
    same(&rt, bytes.write_char('é').is_ok(), true, "a character");
    same(&rt, bytes.as_slice(), "(1, \"é\")é".as_bytes(), "the bytes");
}
