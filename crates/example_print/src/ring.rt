//! A writer of a user's own, which keeps the last bytes of a text, and overwrites older ones.
ghost use Rattle.std.specs.Prelude.{◌+◌, ◌≤◌, [], ⊤, length, is_ok, IsOk};
ghost use Rattle.ufmt.specs.Writes.{Writes};

use std::convert::Infallible;
use ufmt::uWrite;

/// Keeps the last `N` bytes, and allocates nothing.
#[derive(Drop)]
pub struct Ring<const N: usize> {
    bytes: [u8; N],
    // How many bytes the last turn has written. The bytes after them are older, if the ring is full.
    count: usize,
    is_full: bool,
    ghost within: { count ≤ N },
}

impl<const N: usize> Ring<N> {
    /// Makes a writer that has written nothing yet.
    pub fn new() -> Self {
        Ring {
            bytes: [0; N],
            count: 0,
            is_full: false,
        }
    }

    /// Returns the bytes that are kept, in two parts: the older ones, and then those of the last turn.
    pub fn kept(&self) -> (&[u8], &[u8])
        ensures { length result.0.now + length result.1.now ≤ N }
    {
        let (newer, older) = self.bytes.split_at(self.count);
        if self.is_full {
            (older, newer)
        } else {
            (&[], newer)
        }
    }

    fn put(&mut self, byte: u8) {
        if self.count == N {
            self.count = 0;
            self.is_full = true;
        }
        // A ring of no bytes has no place for it.
        if let Some(place) = self.bytes.get_mut(self.count) {
            *place = byte;
            self.count += 1;
        }
    }
}

/// Never fails, since older bytes make room.
impl<const N: usize> uWrite for Ring<N> {
    type Error = Infallible;

    // The whole text isn't kept, so contracts don't know it.
    ghost seen = { record {
      known = λ _. ⊥;
      text = λ _. [];
      room = λ _. 0;
      failed = λ _. ⊤;
      identity = λ _. [];
      whole_buffer = λ _. [];
    } };

    fn write_str(&mut self, s: &str) -> Result<(), Infallible>
        ensures writes { Writes ⟦<Ring<N> as uWrite>⟧.seen self.old s.now (is_ok result) self.new }
        ensures never_fails { IsOk result }
    {
        for byte in s.bytes() {
            self.put(byte);
        }
        Ok(())
    }
}
