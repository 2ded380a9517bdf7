//! A writer that counts characters up to a width. It keeps no text and takes no memory.
ghost use Rattle.std.specs.Prelude.{◌≡◌, ◌-◌, [], min, is_ok};
ghost use Rattle.std.specs.Fmt.{char_count, is_char_start};

use crate::ghost_text::GhostText;
use ufmt_core::uWrite;

/// The error of a `CharacterCounter`: its text has as many characters as the width, or more.
#[derive(Clone, Copy)]
pub(crate) struct WidthReached;

/// Counts the characters of its text, up to a width.
#[derive(Drop)]
pub(crate) struct CharacterCounter {
    width: usize,
    count: usize,
    written: GhostText,
    ghost counted: { count ≡ min width (char_count written.bytes) },
}

impl CharacterCounter {
    ghost use Rattle.ufmt.specs.Private.Counting.{Counts};

    pub(crate) fn new(width: usize) -> Self
        ensures width { result.width ≡ width }
        ensures nothing { result.written.bytes ≡ [] }
    {
        CharacterCounter {
            width,
            count: 0,
            written: GhostText::new(),
        }
    }

    // How many characters the text is short of the width.
    pub(crate) fn missing(&self) -> usize
        ensures { result ≡ self.now.width - char_count self.now.written.bytes }
    {
        self.width - self.count
    }

    // Counts the characters of a piece. Those after the width aren't needed, and may be many: a number can
    // be padded to any length.
    fn count_piece(&mut self, s: &str) -> Result<(), WidthReached>
        ensures { Counts self.old s.now (is_ok result) self.new }
    {
        let count = self.count.saturating_add(character_count(s.as_bytes()));
        self.written = self.written.and(s.as_bytes());
        self.count = count.min(self.width);
        // A lawful writer takes each empty piece.
        if self.count == self.width && !s.is_empty() {
            return Err(WidthReached);
        }
        Ok(())
    }
}

impl uWrite for CharacterCounter {
    ghost use Rattle.ufmt.specs.Private.Counting.{counter_seen};

    type Error = WidthReached;

    ghost seen = { counter_seen };

    fn write_str(&mut self, s: &str) -> Result<(), WidthReached> {
        self.count_piece(s)
    }
}

// Each character has one byte that begins it.
fn character_count(text: &[u8]) -> usize
    ensures { result ≡ char_count text.now }
{
    let mut count = 0;
    for byte in text {
        if begins_character(*byte) {
            count += 1;
        }
    }
    count
}

// The other bytes of a character are of the form 10xxxxxx.
fn begins_character(byte: u8) -> bool
    ensures { result ≡ is_char_start byte }
{
    byte < 0x80 || byte >= 0xc0
}
