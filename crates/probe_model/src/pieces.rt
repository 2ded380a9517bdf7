//! A writer that notes its pieces: the bytes of each, and whether it came as a text or as a character.
ghost use Rattle.std.specs.Prelude.{[], ⊤};

use crate::digest::Digest;
use std::convert::Infallible;
use ufmt::uWrite;

// Ends each piece. No text has this byte.
const END: u8 = 0xff;

/// A digest of the pieces so far. A piece is `t` if it came by `write_str`, or `c` if it came by
/// `write_char`; then its bytes and `END`.
#[derive(Drop)]
pub struct Pieces {
    pub digest: Digest,
}

impl Pieces {
    pub fn new() -> Self {
        Pieces {
            digest: Digest::of(""),
        }
    }

    fn note(&mut self, sign: u8, bytes: &[u8]) {
        self.digest.add(&[sign]);
        self.digest.add(bytes);
        self.digest.add(&[END]);
    }
}

impl uWrite for Pieces {
    type Error = Infallible;

    ghost seen = { record { known = λ _. ⊥; text = λ _. []; room = λ _. 0; failed = λ _. ⊤; identity = λ _. []; whole_buffer = λ _. [] } };

    fn write_str(&mut self, s: &str) -> Result<(), Infallible> {
        self.note(b't', s.as_bytes());
        Ok(())
    }

    fn write_char(&mut self, c: char) -> Result<(), Infallible> {
        let mut bytes = [0u8; 4];
        self.note(b'c', c.encode_utf8(&mut bytes).as_bytes());
        Ok(())
    }
}
