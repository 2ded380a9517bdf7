//! Devices for tests: they move at most so many bytes a call, and fail at a chosen call.
ghost use Rattle.std.specs.Prelude.{◌≡◌, []};

use std::alloc::Global;
use std::cell::RefCell;
use std::io;
use std::io::{ErrorKind, Read, Write};

/// The number of no call: calls are counted from one.
pub const NEVER: usize = 0;

/// As many bytes a call as a short text has, and more.
pub const WHOLE: usize = 4096;

/// Gives `left`, at most `most` bytes a call. Fails at call number `fails_at`.
#[derive(Drop)]
pub struct Source<'a> {
    pub left: &'a [u8],
    pub most: usize,
    pub calls: usize,
    pub fails_at: usize,
}

impl<'a> Source<'a> {
    /// Makes a source that was not called yet.
    pub fn new(bytes: &'a [u8], most: usize, fails_at: usize) -> Self
        ensures { result.left.now ≡ bytes.now }
    {
        Source {
            left: bytes,
            most,
            calls: 0,
            fails_at,
        }
    }
}

impl Read for Source<'_> {
    fn read(&mut self, buffer: &mut [u8]) -> io::Result<usize> {
        self.calls = self.calls.saturating_add(1);
        if self.calls == self.fails_at {
            return Err(io::Error::from(ErrorKind::ConnectionReset));
        }
        let count = self.most.min(self.left.len()).min(buffer.len());
        buffer[..count].copy_from_slice(&self.left[..count]);
        self.left = &self.left[count..];
        Ok(count)
    }
}

/// Keeps what is written, at most `most` bytes a call. Its writes and flushes are counted together. It
/// fails at number `fails_at`, and at each flush if `fails_flush` is set.
#[derive(Drop)]
pub struct Sink {
    pub taken: Vec<u8>,
    pub most: usize,
    pub calls: usize,
    pub fails_at: usize,
    pub fails_flush: bool,
}

impl Sink {
    /// Makes a sink that was not called yet.
    pub fn new(alloc: Global, most: usize, fails_at: usize, fails_flush: bool) -> Self
        ensures { result.taken.items ≡ [] }
    {
        Sink {
            taken: Vec::new(alloc),
            most,
            calls: 0,
            fails_at,
            fails_flush,
        }
    }
}

impl Write for Sink {
    fn write(&mut self, bytes: &[u8]) -> io::Result<usize> {
        self.calls = self.calls.saturating_add(1);
        if self.calls == self.fails_at {
            return Err(io::Error::from(ErrorKind::BrokenPipe));
        }
        let count = self.most.min(bytes.len());
        self.taken.extend_from_slice(&bytes[..count])?;
        Ok(count)
    }

    fn flush(&mut self) -> io::Result<()> {
        self.calls = self.calls.saturating_add(1);
        if self.calls == self.fails_at || self.fails_flush {
            return Err(io::Error::from(ErrorKind::BrokenPipe));
        }
        Ok(())
    }
}

/// The calls of several devices in one row: `r` for a read that gives bytes, `0` for one that gives none,
/// `w` for a write, `e` for an empty one, and `f` for a flush. The call with the number `fails_at` fails
/// and is `!`. Without memory a call is missing, and the row differs.
#[derive(Drop)]
pub struct Calls {
    pub row: String,
    pub fails_at: usize,
}

/// A reader whose calls are noted.
#[derive(Drop)]
pub struct NotedSource<'a> {
    pub source: Source<'a>,
    pub calls: &'a RefCell<Calls>,
}

impl Read for NotedSource<'_> {
    fn read(&mut self, buffer: &mut [u8]) -> io::Result<usize> {
        let is_end = self.source.left.is_empty();
        note(self.calls, if is_end { '0' } else { 'r' })?;
        self.source.read(buffer)
    }
}

/// A writer whose calls are noted.
#[derive(Drop)]
pub struct NotedSink<'a> {
    pub sink: Sink,
    pub calls: &'a RefCell<Calls>,
}

impl Write for NotedSink<'_> {
    fn write(&mut self, bytes: &[u8]) -> io::Result<usize> {
        note(self.calls, if bytes.is_empty() { 'e' } else { 'w' })?;
        self.sink.write(bytes)
    }

    fn flush(&mut self) -> io::Result<()> {
        note(self.calls, 'f')?;
        self.sink.flush()
    }
}

// Adds a call to the row. It fails if it has the number that should.
fn note(calls: &RefCell<Calls>, call: char) -> io::Result<()> {
    let Ok(mut calls) = calls.try_borrow_mut() else {
        return Err(io::Error::from(ErrorKind::Deadlock));
    };
    let number = calls.row.len().saturating_add(1);
    let fails = number == calls.fails_at;
    let _noted = calls.row.push(if fails { '!' } else { call });
    if fails {
        return Err(io::Error::from(ErrorKind::BrokenPipe));
    }
    Ok(())
}
