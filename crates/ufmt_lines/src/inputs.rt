//! Several inputs, read one after another as one.
ghost use Rattle.std.specs.Prelude.{◌≡◌, ◌+◌, ◌<◌, ◌≤◌, length};

#[cfg(test)]
mod tests;

use std::io;
use std::io::Read;

/// Opens inputs by their names, and is told which couldn't be read.
pub trait Opener {
    /// An open input.
    type Input: Read + Drop;

    /// Opens the input with this name.
    fn open(&self, name: &str) -> io::Result<Self::Input>;

    /// Says that this input couldn't be opened or read further, and why.
    fn report(&self, name: &str, error: io::Error);
}

/// Inputs as one reader, which gives their bytes one after another. One that can't be opened or read is
/// reported when its turn comes, and the next is read. So a read never fails.
#[derive(Drop)]
pub struct Inputs<'a, O: Opener> {
    opener: &'a O,
    names: &'a [&'a str],
    // How many of them were opened, or couldn't be.
    tried: usize,
    // The last of these, until it ends.
    open: Option<O::Input>,
    has_missed: bool,
}

impl<'a, O: Opener> Inputs<'a, O> {
    /// The inputs with these names. None is open yet.
    pub fn new(opener: &'a O, names: &'a [&'a str]) -> Self {
        Inputs {
            opener,
            names,
            tried: 0,
            open: None,
            has_missed: false,
        }
    }

    /// Returns whether an input couldn't be opened or read.
    pub fn has_missed(&self) -> bool {
        self.has_missed
    }

    // Opens the next input.
    fn open_next(&mut self)
        requires { self.old.tried < length self.old.names.now }
        ensures next { self.new.tried ≡ self.old.tried + 1 }
        ensures same { self.new.names ≡ self.old.names }
    {
        let name = self.names[self.tried];
        self.tried += 1;
        match self.opener.open(name) {
            Ok(input) => self.open = Some(input),
            Err(error) => self.miss(error),
        }
    }

    // Reads once from the open input. Zero if none is open. At its end or a failure it is closed.
    fn read_open(&mut self, buffer: &mut [u8]) -> usize
        ensures bound { result ≤ length buffer.new }
        ensures same { (self.new.tried ≡ self.old.tried) × (self.new.names ≡ self.old.names) }
    {
        let Some(input) = &mut self.open else {
            return 0;
        };
        match input.read(buffer) {
            Ok(0) => self.open = None,
            Ok(count) => return count,
            Err(error) => {
                self.open = None;
                self.miss(error);
            }
        }
        0
    }

    // Notes and reports that the input that was tried last can't be opened or read.
    fn miss(&mut self, error: io::Error)
        ensures { (self.new.tried ≡ self.old.tried) × (self.new.names ≡ self.old.names) }
    {
        self.has_missed = true;
        if let Some(name) = self.names.get(self.tried.wrapping_sub(1)) {
            self.opener.report(name, error);
        }
    }
}

impl<O: Opener> Read for Inputs<'_, O> {
    fn read(&mut self, buffer: &mut [u8]) -> io::Result<usize> {
        if buffer.is_empty() {
            return Ok(0);
        }
        let mut count = self.read_open(buffer);
        while count == 0 && self.tried < self.names.len() {
            self.open_next();
            count = self.read_open(buffer);
        }
        Ok(count)
    }
}
