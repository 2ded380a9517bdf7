//! Writers that show where pieces end: `FailAt` refuses pieces, and `Recorded` notes them.
ghost use Rattle.std.specs.Prelude.{[], ◌∷◌, ⊤, string_bytes};
ghost use Rattle.ufmt.specs.Cursor.{buffer_length, buffer_name, written_bytes};

use std::alloc::{AllocError, Global};
use ufmt::{Cursor, Full, uWrite};

/// Passes pieces to a cursor. It refuses the pieces from this number on, up to the last of them, without a change. It
/// counts only pieces that aren't empty, from 1 on. An empty piece is always `Ok`.
#[derive(Drop)]
pub struct FailAt<'a> {
    cursor: Cursor<'a>,
    count: usize,
    refused: usize,
    last: usize,
}

impl<'a> FailAt<'a> {
    /// Refuses the piece with this number and all later ones.
    pub fn new(buffer: &'a mut [u8], refused: usize) -> Self {
        FailAt {
            cursor: Cursor::new(buffer),
            count: 0,
            refused,
            last: usize::MAX,
        }
    }

    /// Refuses only the piece with this number.
    pub fn once(buffer: &'a mut [u8], refused: usize) -> Self {
        let mut writer = FailAt::new(buffer, refused);
        writer.last = refused;
        writer
    }

    pub fn written(&self) -> &[u8] {
        self.cursor.written()
    }
}

impl uWrite for FailAt<'_> {
    type Error = Full;

    ghost seen = { record {
      known = λ w. ⊤;
      text = λ w. written_bytes w.cursor;
      room = λ w. 0;
      failed = λ _. ⊤;
      identity = λ w. buffer_name w.cursor ∷ buffer_length w.cursor ∷ [];
      whole_buffer = λ w. w.cursor.buffer.now;
    } };

    fn write_str(&mut self, s: &str) -> Result<(), Full> {
        if s.is_empty() {
            return Ok(());
        }
        self.count = self.count.saturating_add(1);
        if self.count >= self.refused && self.count <= self.last {
            return Err(Full);
        }
        self.cursor.write_str(s)
    }
}

/// Notes its text, and its pieces with a bar after each.
#[derive(Drop)]
pub struct Recorded {
    pub text: String,
    pub barred: String,
}

impl Recorded {
    pub fn new(alloc: Global) -> Self {
        Recorded {
            text: String::new(alloc),
            barred: String::new(alloc),
        }
    }
}

impl uWrite for Recorded {
    type Error = AllocError;

    ghost seen = { record { known = λ w. ⊤; text = λ w. string_bytes w.text; room = λ w. 0; failed = λ _. ⊤; identity = λ w. []; whole_buffer = λ w. [] } };

    fn write_str(&mut self, s: &str) -> Result<(), AllocError> {
        if s.is_empty() {
            // An empty piece is always `Ok`, even without memory to note it.
            let _noted = self.barred.push('|');
            return Ok(());
        }
        self.text.push_str(s)?;
        self.barred.push_str(s)?;
        self.barred.push('|')
    }
}
