//! A device whose calls proofs see. Std's `Read` and `Write` say nothing of calls and errors, so here alone the
//! device is called, and each call noted.
ghost use Rattle.std.specs.Prelude.{◌≡◌, [], ◌∷◌, ◌++◌};
ghost use Rattle.std.specs.Io.{ReadsAtMost, WritesAtMost};
ghost use Rattle.std.specs.Io.KnownBytes.{Keeps, ReadConsumes, WriteAppends};

use crate::call::Call;
use crate::history::History;
use std::io;
use std::io::{Read, Write};

/// A reader or writer, and its calls.
#[derive(Drop)]
pub(crate) struct Noted<D> {
    pub(crate) device: D,
    history: History,
}

impl<D> Noted<D> {
    // A device that was not called yet.
    pub(crate) fn new(device: D) -> Self
        ensures device { result.device ≡ device }
        ensures uncalled { result.history.calls ≡ [] }
    {
        Noted {
            device,
            history: History::new(),
        }
    }

    fn note(&mut self, call: Call)
        ensures device { self.new.device ≡ self.old.device }
        ensures noted { self.new.history.calls ≡ self.old.history.calls ++ call ∷ [] }
    {
        self.history = self.history.and(&call);
    }
}

impl<D: Read> Noted<D> {
    // Reads once.
    pub(crate) fn read(&mut self, buffer: &mut [u8]) -> io::Result<usize>
        ensures bound { ReadsAtMost result buffer.new }
        ensures bytes { ReadConsumes (D.remaining self.old.device) (D.remaining self.new.device)
            result buffer.new }
        ensures noted { self.new.history.calls ≡ self.old.history.calls ++ Call.Read result ∷ [] }
    {
        let result = self.device.read(buffer);
        self.note(Call::Read(result));
        result
    }
}

impl<D: Write> Noted<D> {
    // Writes once.
    pub(crate) fn write(&mut self, bytes: &[u8]) -> io::Result<usize>
        ensures bound { WritesAtMost result bytes.now }
        ensures bytes { WriteAppends (D.contents self.old.device) (D.contents self.new.device)
            result bytes.now }
        ensures noted { self.new.history.calls ≡ self.old.history.calls ++ Call.Write result ∷ [] }
    {
        let result = self.device.write(bytes);
        self.note(Call::Write(result));
        result
    }

    // Flushes once.
    pub(crate) fn flush(&mut self) -> io::Result<()>
        ensures bytes { Keeps (D.contents self.old.device) (D.contents self.new.device) }
        ensures noted { self.new.history.calls ≡ self.old.history.calls ++ Call.Flush result ∷ [] }
    {
        let result = self.device.flush();
        self.note(Call::Flush(result));
        result
    }
}
