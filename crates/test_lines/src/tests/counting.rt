//! A text that counts the calls of its `fmt`.
ghost use Rattle.ufmt.specs.Document.{leaf};

use std::cell::Cell;
use ufmt::{Formatter, uDebug, uDisplay, uWrite};

#[derive(Drop)]
pub struct Counting<'a> {
    text: &'static str,
    calls: &'a Cell<u8>,
}

impl<'a> Counting<'a> {
    pub fn new(text: &'static str, calls: &'a Cell<u8>) -> Self {
        Counting { text, calls }
    }
}

impl uDebug for Counting<'_> {
    ghost document = { λ v. leaf v.text.now };

    fn fmt<W: uWrite>(&self, f: &mut Formatter<W>) -> Result<(), W::Error> {
        self.calls.set(self.calls.get().saturating_add(1));
        f.write_str(self.text)
    }
}

impl uDisplay for Counting<'_> {
    ghost display = { λ v. leaf v.text.now };

    fn fmt<W: uWrite>(&self, f: &mut Formatter<W>) -> Result<(), W::Error> {
        self.calls.set(self.calls.get().saturating_add(1));
        f.write_str(self.text)
    }
}
