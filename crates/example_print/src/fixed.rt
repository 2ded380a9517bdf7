//! A writer of a user's own, which keeps its bytes in a fixed array.
ghost use Rattle.std.specs.Prelude.{◌≡◌, ◌-◌, ◌≤◌, [], take, ⊤};

use ufmt::{Full, uWrite};

/// Keeps at most `N` bytes, and takes no memory.
#[derive(Drop)]
pub struct FixedBuffer<const N: usize> {
    bytes: [u8; N],
    count: usize,
    ghost within: { count ≤ N },
}

impl<const N: usize> FixedBuffer<N> {
    /// Makes a writer that has written nothing yet.
    pub fn new() -> Self
        ensures { ⟦<FixedBuffer<N> as uWrite>⟧.seen.text result ≡ [] }
    {
        FixedBuffer {
            bytes: [0; N],
            count: 0,
        }
    }

    /// Returns the bytes that were written.
    pub fn written(&self) -> &[u8]
        ensures { result.now ≡ ⟦<FixedBuffer<N> as uWrite>⟧.seen.text self.now }
    {
        &self.bytes[..self.count]
    }
}

/// Fails with `Full` if a piece has more bytes than are left, and then takes nothing of it.
impl<const N: usize> uWrite for FixedBuffer<N> {
    type Error = Full;

    ghost seen = { record {
      known = λ _. ⊤;
      text = λ w. take w.count w.bytes;
      room = λ w. N - w.count;
      failed = λ _. ⊤;
      identity = λ _. [];
      whole_buffer = λ _. [];
    } };

    fn write_str(&mut self, s: &str) -> Result<(), Full> {
        if s.len() > N - self.count {
            return Err(Full);
        }
        let end = self.count + s.len();
        let bytes = &mut self.bytes[..];
        bytes[self.count..end].copy_from_slice(s.as_bytes());
        self.count = end;
        Ok(())
    }
}
