//! The name before a byte of a text: of a field, or the key of an entry.
ghost use Rattle.std.specs.Prelude.{◌≡◌, ◌<◌, ◌≤◌, ◌-◌, ℕ, false, length, option_map, slice_index, take, true};
ghost use Rattle.ufmt_parse.specs.NamesBefore.{IsNameBefore, is_identifier_byte};

use std::str::from_utf8;

// The name of a field, or the key of an entry, if it ends before the byte `at` with only a colon and a space
// between. It looks at the bytes of the name, the colon and the space only.
pub(crate) fn name_before(text: &[u8], at: usize) -> Option<&str>
    ensures { IsNameBefore (take at text.now) (option_map (λ name. name.now) result) }
{
    let before = &text[..at.min(text.len())];
    let front = before.strip_suffix(b": ")?;
    let name = &front[name_start(front)..];
    if name.is_empty() {
        return None;
    }
    from_utf8(name).ok()
}

// Where the longest run of bytes of a name begins that ends the text.
fn name_start(text: &[u8]) -> usize
    ensures within { result ≤ length text.now }
    ensures run { (k : ℕ) → result ≤ k → k < length text.now → is_identifier_byte (slice_index text.now k) ≡ true }
    ensures longest { 0 < result → is_identifier_byte (slice_index text.now (result - 1)) ≡ false }
{
    let mut start = text.len();
    'bytes: while start > 0 && is_identifier_byte(text[start - 1]) {
        start -= 1;
    }
    start
}

// A letter, a digit or `_`, or a byte of a character past ASCII.
pub(crate) fn is_identifier_byte(byte: u8) -> bool
    ensures { result ≡ is_identifier_byte byte }
{
    byte.is_ascii_alphanumeric() || byte == b'_' || byte >= 0x80
}
