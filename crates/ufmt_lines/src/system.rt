//! The inputs of the system: files, and standard input.

use crate::inputs::Opener;
use std::fs::File;
use std::io;
use std::io::{Eprint, Input, Read, StdinLock};

// The name of standard input.
const STANDARD: &str = "-";

/// Opens files by their names, and standard input by `-`. Failures are said on standard error.
#[derive(Clone, Copy)]
pub struct System<'a> {
    pub rt: &'a HostRuntime,
}

/// An open input of the system.
#[derive(Drop)]
pub enum Source {
    Standard(StdinLock<'static>),
    File(File),
}

impl Read for Source {
    fn read(&mut self, buffer: &mut [u8]) -> io::Result<usize> {
        match self {
            Source::Standard(input) => input.read(buffer),
            Source::File(file) => file.read(buffer),
        }
    }
}

impl Opener for System<'_> {
    type Input = Source;

    fn open(&self, name: &str) -> io::Result<Source> {
        if name == STANDARD {
            return Ok(Source::Standard(self.rt.reader()));
        }
        Ok(Source::File(File::open(self.rt, name)?))
    }

    fn report(&self, name: &str, error: io::Error) {
        let name = if name == STANDARD {
            "standard input"
        } else {
            name
        };
        let _ = self
            .rt
            .eprintln(format_args!("ufmt_lines: cannot read {name}: {error}"));
    }
}
