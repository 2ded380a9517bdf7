//! A text that grows in memory.
ghost use Rattle.std.specs.Prelude.{◌≡◌, ◌<◌, ◌≤◌, ◌+◌, ◌++◌, [], is_ok, length, string_bytes, take, true};
ghost use Rattle.std.specs.Str.{is_utf8};
ghost use Rattle.ufmt_core.specs.Writes.{Writes};

use std::alloc::{AllocError, Global};
use ufmt_core::{Cursor, uWrite};

// The vector is filled with these after the text.
static ZEROS: [u8; 1024] = [0; 1024];

/// A text at the front of a vector. The vector has zeros after it, so that a short piece is copied
/// as into a caller's buffer. UTF-8 is tested once, at the end. A `String` tests each piece.
#[derive(Drop)]
pub(super) struct Growing {
    bytes: Vec<u8>,
    count: usize,
    ghost within: { count ≤ length bytes.items },
    ghost utf8: { is_utf8 (take count bytes.items) ≡ true },
}

#[tactic(auto, using(crate::proofs::Growing::growing))]
impl Growing {
    ghost use Rattle.ufmt_scan.specs.Private.Growing.{growing_seen, growing_text};

    pub(super) fn new(alloc: Global) -> Growing
        ensures { growing_text result ≡ [] }
    {
        Growing {
            bytes: Vec::new(alloc),
            count: 0,
        }
    }

    pub(super) fn into_string(self) -> String
        ensures { string_bytes result ≡ growing_text self }
    {
        let Growing { mut bytes, count } = self;
        bytes.truncate(count);
        match String::from_utf8(bytes) {
            Ok(text) => text,
            Err(_) => unreachable!(),
        }
    }

    // Appends a piece that is longer than the zeros, and new zeros, with one growth of the vector.
    #[inline(never)]
    fn append(&mut self, piece: &str) -> Result<(), AllocError>
        requires { 0 < length piece.now }
        ensures { Writes growing_seen self.old piece.now (is_ok result) self.new }
    {
        self.bytes.truncate(self.count);
        self.bytes.reserve(piece.len() + ZEROS.len())?;
        self.bytes.extend_from_slice(piece.as_bytes())?;
        self.count = self.bytes.len();
        // There is room for them.
        let _filled = self.bytes.extend_from_slice(&ZEROS);
        Ok(())
    }
}

/// Fails only if memory runs out, and then leaves the text as it was.
#[tactic(auto, using(crate::proofs::Growing::growing))]
impl uWrite for Growing {
    ghost use Rattle.ufmt_scan.specs.Private.Growing.{growing_seen};

    type Error = AllocError;

    ghost seen = { growing_seen };

    #[inline(always)]
    fn write_str(&mut self, s: &str) -> Result<(), AllocError> {
        if s.len() > self.bytes.len() - self.count {
            return self.append(s);
        }
        fill(s, &mut self.bytes[self.count..self.count + s.len()]);
        self.count += s.len();
        Ok(())
    }
}

// Writes a text over a buffer of the same length.
#[inline(always)]
fn fill(text: &str, buffer: &mut [u8])
    requires { length text.now ≡ length buffer.old }
    ensures { buffer.new ≡ text.now }
{
    let mut cursor = Cursor::new(buffer);
    let _whole = cursor.write_str(text);
}
