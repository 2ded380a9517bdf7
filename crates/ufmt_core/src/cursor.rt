//! A writer over a buffer of a fixed size.
ghost use Rattle.std.specs.Prelude.{◌≡◌, ◌+◌, ◌++◌, ◌*◌, ◌<◌, ◌≤◌, [], ℕ, length, take, drop, is_ok, encode_utf8};
ghost use Rattle.ufmt_core.specs.Writes.{Writes};

use crate::copying::put;
use crate::uWrite;

/// The error of a `Cursor`: a piece has more bytes than remain.
#[derive(Clone, Copy, PartialEq, Eq, Debug)]
pub struct Full;

/// A writer that fills a buffer from its start. It takes no memory.
#[derive(Drop)]
pub struct Cursor<'a> {
    buffer: &'a mut [u8],
    count: usize,
    ghost within: { count ≤ length buffer.now },
}

impl<'a> Cursor<'a> {
    ghost use Rattle.ufmt_core.specs.Cursor.{written_bytes, unwritten_bytes, remaining_count, buffer_length, buffer_name};

    /// Makes a cursor that has written nothing yet.
    pub fn new(buffer: &'a mut [u8]) -> Self
        ensures written { written_bytes result ≡ [] }
        ensures unwritten { unwritten_bytes result ≡ buffer.old }
        ensures same_length { buffer_length result ≡ length buffer.old }
        ensures same_reference { buffer_name result ≡ buffer.entry.ghost_name }
    {
        Cursor { buffer, count: 0 }
    }

    /// Returns the bytes that were written.
    pub fn written(&self) -> &[u8]
        ensures { result.now ≡ written_bytes self.now }
    {
        &self.buffer[..self.count]
    }

    /// Returns how many more bytes there is room for.
    pub fn remaining(&self) -> usize
        ensures count { result ≡ remaining_count self.now }
        ensures whole { length (written_bytes self.now) + result ≡ buffer_length self.now }
    {
        self.buffer.len() - self.count
    }
}

/// Fails with `Full` when a piece has more bytes than remain, and then changes nothing.
impl uWrite for Cursor<'_> {
    ghost use Rattle.ufmt_core.specs.Cursor.{cursor_seen, Fills};

    type Error = Full;

    ghost seen = { cursor_seen };

    #[inline(always)]
    fn write_str(&mut self, s: &str) -> Result<(), Full>
        ensures writes { Writes cursor_seen self.old s.now (is_ok result) self.new }
        ensures fills { Fills self.old s.now (is_ok result) self.new }
    {
        let start = self.count;
        let end = start + s.len();
        if end > self.buffer.len() {
            return Err(Full);
        }
        // Before the piece is copied, so that no value has to outlive a call.
        self.count = end;
        put(s.as_bytes(), self.buffer, start);
        Ok(())
    }

    fn write_char(&mut self, c: char) -> Result<(), Full>
        ensures writes { Writes cursor_seen self.old (encode_utf8 c) (is_ok result) self.new }
        ensures fills { Fills self.old (encode_utf8 c) (is_ok result) self.new }
    {
        let mut bytes = [0u8; 4];
        self.write_str(c.encode_utf8(&mut bytes))
    }
}
