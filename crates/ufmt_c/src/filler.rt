//! A writer over a buffer of C.
ghost use Rattle.std.specs.Prelude.{◌≡◌, ◌++◌, ◌∷◌, [], ℕ, List, length, ⊤};
ghost use Rattle.ufmt_c.specs.Calls.{HasPut, PutsText, reported};
ghost use Rattle.ufmt_c.specs.Private.Narrow.{StandsFor};

use crate::code::FULL;
use std::convert::Infallible;
use ufmt::ghost_text::GhostText;
use ufmt::uWrite;

/// Puts as much of its text as fits to the front of a buffer, and counts all of it, up to the largest
/// `usize`. It takes no memory and never fails.
#[derive(Drop)]
pub(crate) struct Filler<'a> {
    pub(crate) buffer: &'a mut [u8],
    pub(crate) count: usize,
    pub(crate) text: GhostText,
    pub(crate) before: GhostText,
    ghost put: { HasPut before.bytes text.bytes buffer.now },
    ghost counted: { count ≡ reported (length text.bytes) },
}

impl<'a> Filler<'a> {
    /// Makes a writer that has put nothing yet.
    pub(crate) fn new(buffer: &'a mut [u8]) -> Self
        ensures nothing { result.text.bytes ≡ [] }
        ensures before { result.before.bytes ≡ buffer.old }
        ensures same_length { length result.buffer.now ≡ length buffer.old }
        ensures same_reference { result.buffer.ghost_name ≡ buffer.entry.ghost_name }
    {
        let before = GhostText::of(buffer);
        Filler {
            buffer,
            count: 0,
            text: GhostText::new(),
            before,
        }
    }

    /// Reports the text's length, and returns it, or `FULL` if the text has more bytes than the buffer.
    pub(crate) fn report(&self, detail: &mut usize) -> isize
        ensures { PutsText self.now.before.bytes self.now.text.bytes result self.now.buffer.now
            detail.new }
    {
        self.report_longer(0, detail)
    }

    /// Reports the length of a longer text, for which the writer's text was put: it has `rest` bytes more,
    /// none of which the buffer shows.
    pub(crate) fn report_longer(&self, rest: usize, detail: &mut usize) -> isize
        ensures { (whole : List ℕ)
            → StandsFor (length self.now.before.bytes) self.now.text.bytes rest whole
            → PutsText self.now.before.bytes whole result self.now.buffer.now detail.new }
    {
        let count = self.count.saturating_add(rest);
        *detail = count;
        if count > self.buffer.len() {
            return FULL;
        }
        count as isize
    }
}

impl uWrite for Filler<'_> {
    type Error = Infallible;

    ghost seen = { record {
      known = λ w. ⊤;
      text = λ w. w.text.bytes;
      room = λ w. 0;
      failed = λ w. ⊤;
      identity = λ w. w.buffer.ghost_name ∷ length w.buffer.now ∷ w.before.bytes;
      whole_buffer = λ w. [];
    } };

    // Not inlined: the scanner has some fifty calls of it.
    #[inline(never)]
    fn write_str(&mut self, s: &str) -> Result<(), Infallible> {
        let text = self.text.and(s.as_bytes());
        put(self.buffer, self.count, s.as_bytes());
        self.text = text;
        self.count = self.count.saturating_add(s.len());
        Ok(())
    }
}

/// Puts bytes after so many others, as many as there is room for.
#[inline(never)]
pub(crate) fn put(buffer: &mut [u8], count: usize, bytes: &[u8])
    ensures { (old text : List ℕ) → count ≡ reported (length text) → HasPut old text buffer.old
        → HasPut old (text ++ bytes.now) buffer.new }
{
    if count < buffer.len() {
        let taken = bytes.len().min(buffer.len() - count);
        copy(&bytes[..taken], &mut buffer[count..count + taken]);
    }
}

// Copies the bytes to a target of the same length.
fn copy(bytes: &[u8], target: &mut [u8])
    requires { length bytes.now ≡ length target.old }
    ensures { target.new ≡ bytes.now }
{
    target.copy_from_slice(bytes);
}
