//! A writer over a buffer of a fixed size, which takes as much of its text as fits.
ghost use Rattle.std.specs.Prelude.{◌≡◌, ◌+◌, ◌*◌, ◌<◌, ◌≤◌, [], length, take, drop, true, false, is_ok, encode_utf8};
ghost use Rattle.ufmt_core.specs.Writes.{Writes};
ghost use Rattle.std.specs.Str.{is_utf8};
ghost use Rattle.ufmt.specs.Cut.{fitting_part};

use crate::ghost_text::GhostText;
use ufmt_core::internal::put;
use ufmt_core::{Full, uWrite};

/// A writer that fills a buffer from its start, and cuts its text where the buffer ends, between two
/// characters. After a cut it takes nothing more. It takes no memory.
#[derive(Drop)]
pub struct Truncating<'a> {
    buffer: &'a mut [u8],
    count: usize,
    is_cut: bool,
    offered: GhostText,
    before: GhostText,
    ghost within: { count ≤ length buffer.now },
    ghost front: { take count buffer.now ≡ fitting_part (length buffer.now) offered.bytes },
    ghost after: { drop count buffer.now ≡ drop count before.bytes },
    ghost cut: { is_cut ≡ true → length buffer.now < length offered.bytes },
    ghost filled: { is_cut ≡ true → length buffer.now < count + 4 },
    ghost whole: { is_cut ≡ false → offered.bytes ≡ take count buffer.now },
    ghost utf8: { is_cut ≡ false → is_utf8 offered.bytes ≡ true },
}

impl<'a> Truncating<'a> {
    ghost use Rattle.ufmt.specs.Truncating.{written_bytes, unwritten_bytes, offered_text, bytes_before, has_cut, remaining_count, buffer_length, buffer_name};

    /// Makes a writer that has written nothing yet.
    pub fn new(buffer: &'a mut [u8]) -> Self
        ensures written { written_bytes result ≡ [] }
        ensures unwritten { unwritten_bytes result ≡ buffer.old }
        ensures not_cut { has_cut result ≡ false }
        ensures offered { offered_text result ≡ [] }
        ensures before { bytes_before result ≡ buffer.old }
        ensures same_length { buffer_length result ≡ length buffer.old }
        ensures same_reference { buffer_name result ≡ buffer.entry.ghost_name }
    {
        let before = GhostText::of(buffer);
        Truncating {
            buffer,
            count: 0,
            is_cut: false,
            offered: GhostText::new(),
            before,
        }
    }

    /// Returns the bytes that were written.
    pub fn written(&self) -> &[u8]
        ensures { result.now ≡ written_bytes self.now }
    {
        &self.buffer[..self.count]
    }

    /// Returns whether a piece was cut.
    pub fn is_cut(&self) -> bool
        ensures { result ≡ has_cut self.now }
    {
        self.is_cut
    }

    /// Returns how many more bytes fit, or 0 after a cut.
    pub fn remaining(&self) -> usize
        ensures count { result ≡ remaining_count self.now }
        ensures whole { has_cut self.now ≡ false
            → length (written_bytes self.now) + result ≡ buffer_length self.now }
    {
        if self.is_cut {
            0
        } else {
            self.buffer.len() - self.count
        }
    }
}

/// Fails with `Full` exactly if a piece has more bytes than remain. Then as much of it was written as
/// fits.
impl uWrite for Truncating<'_> {
    ghost use Rattle.ufmt.specs.Truncating.{truncating_seen, Cuts};

    type Error = Full;

    ghost seen = { truncating_seen };

    fn write_str(&mut self, s: &str) -> Result<(), Full>
        ensures writes { Writes truncating_seen self.old s.now (is_ok result) self.new }
        ensures cuts { Cuts self.old s.now (is_ok result) self.new }
    {
        let bytes = s.as_bytes();
        let taken = s.floor_char_boundary(self.remaining());
        let offered = self.offered.and_unless(self.is_cut, bytes);
        put(&bytes[..taken], self.buffer, self.count);
        self.count += taken;
        self.offered = offered;
        if taken < s.len() {
            self.is_cut = true;
            return Err(Full);
        }
        Ok(())
    }

    fn write_char(&mut self, c: char) -> Result<(), Full>
        ensures writes { Writes truncating_seen self.old (encode_utf8 c) (is_ok result) self.new }
        ensures cuts { Cuts self.old (encode_utf8 c) (is_ok result) self.new }
    {
        let mut bytes = [0u8; 4];
        self.write_str(c.encode_utf8(&mut bytes))
    }
}
