//! Writers: where text goes.
ghost use Rattle.std.specs.Prelude.{◌≡◌, ◌<◌, ◌∷◌, ◌++◌, [], if◌then◌else◌, is_ok, encode_utf8, string_bytes, OnErr};
ghost use Rattle.ufmt_core.specs.Writes.{Writes, Seen, string_seen};

mod bytes;

use std::alloc::{AllocError, Allocator};

/// A destination for text, with an error type of its own.
///
/// A lawful writer takes each piece of at most `room` bytes. Where its text is known, `Ok` appends the
/// whole piece, and `Err` a prefix of it.
pub trait uWrite {
    type Error;

    /// What contracts see of the writer: whether its text is known, the text so far, how many bytes it
    /// surely takes, what holds after a failure, its identity, and the bytes that it writes over.
    ghost seen: { Seen Self };

    // Promise (printing): A call succeeds if its text fits the room that the writer has left, and it uses no
    // more of that room than the text needs. Also: `uWrite::write_char`.
    /// Writes `s` as one piece.
    fn write_str(&mut self, s: &str) -> Result<(), Self::Error>
        ensures { Writes seen self.old s.now (is_ok result) self.new };

    /// Writes the UTF-8 bytes of `c` as one piece.
    fn write_char(&mut self, c: char) -> Result<(), Self::Error>
        ensures { Writes seen self.old (encode_utf8 c) (is_ok result) self.new }
    {
        let mut bytes = [0u8; 4];
        self.write_str(c.encode_utf8(&mut bytes))
    }
}

/// On `Err` the text is unchanged. An empty piece is `Ok` before any growth.
impl<A: Allocator> uWrite for String<A> {
    type Error = AllocError;

    ghost seen = { string_seen };

    #[inline(always)]
    fn write_str(&mut self, s: &str) -> Result<(), AllocError>
        ensures writes { Writes string_seen self.old s.now (is_ok result) self.new }
        ensures unchanged { OnErr result (string_bytes self.new ≡ string_bytes self.old) }
    {
        // Most pieces have one byte or two. `push_str` copies them by a call, `push` doesn't.
        match s.as_bytes() {
            [byte] if byte.is_ascii() => push_one(self, *byte),
            [first, second] if first.is_ascii() && second.is_ascii() => {
                push_two(self, *first, *second)
            }
            _ => self.push_str(s),
        }
    }

    fn write_char(&mut self, c: char) -> Result<(), AllocError>
        ensures writes { Writes string_seen self.old (encode_utf8 c) (is_ok result) self.new }
        ensures unchanged { OnErr result (string_bytes self.new ≡ string_bytes self.old) }
    {
        self.push(c)
    }
}

// Appends a byte of ASCII. With room made first, `push` is inlined.
#[inline(always)]
fn push_one<A: Allocator>(text: &mut String<A>, byte: u8) -> Result<(), AllocError>
    requires { byte < 128 }
    ensures { string_bytes text.new ≡ (if is_ok result
        then string_bytes text.old ++ byte ∷ []
        else string_bytes text.old) }
{
    text.reserve(1)?;
    text.push(char::from(byte))
}

// Appends two bytes of ASCII, or neither.
#[inline(always)]
fn push_two<A: Allocator>(text: &mut String<A>, first: u8, second: u8) -> Result<(), AllocError>
    requires first { first < 128 }
    requires second { second < 128 }
    ensures { string_bytes text.new ≡ (if is_ok result
        then string_bytes text.old ++ first ∷ second ∷ []
        else string_bytes text.old) }
{
    text.reserve(2)?;
    text.push(char::from(first))?;
    text.push(char::from(second))
}

/// Passes each call to the writer that the reference points to, and returns its result.
impl<W: uWrite> uWrite for &mut W {
    type Error = W::Error;

    ghost seen = { record {
      known = λ r. W.seen.known r.now;
      text = λ r. W.seen.text r.now;
      room = λ r. W.seen.room r.now;
      failed = λ r. W.seen.failed r.now;
      identity = λ r. r.ghost_name ∷ W.seen.identity r.now;
      whole_buffer = λ r. W.seen.whole_buffer r.now;
    } };

    #[inline(always)]
    fn write_str(&mut self, s: &str) -> Result<(), W::Error> {
        (**self).write_str(s)
    }

    fn write_char(&mut self, c: char) -> Result<(), W::Error> {
        (**self).write_char(c)
    }
}
