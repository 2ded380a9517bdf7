//! Texts and characters in quotes.
ghost use Rattle.std.specs.Prelude.{◌≡◌, ◌<◌, ◌≤◌, ◌+◌, ◌++◌, [], drop, length, is_none, is_ok, MatchOption, Some, ℕ};
ghost use Rattle.std.specs.Option.{option_copied};
ghost use Rattle.std.specs.Str.{chars};
ghost use Rattle.ufmt_core.specs.Bytes.{apostrophe, quotation_mark};
ghost use Rattle.ufmt_core.specs.Formatter.{Prints};
ghost use Rattle.ufmt_core.specs.Quoted.{IsQuote, escape, escaped, escaped_bytes, unescaped_len, quoted_char, quoted_text};

use crate::formatter::Formatter;
use crate::write::uWrite;

// Whether each byte prints as itself in quotation marks: `s` if it does.
static UNESCAPED: [u8; 256] = *b"\
    ................................ss.sssssssssssssssssssssssssssss\
    ssssssssssssssssssssssssssss.ssssssssssssssssssssssssssssssssss.\
    ssssssssssssssssssssssssssssssssssssssssssssssssssssssssssssssss\
    ssssssssssssssssssssssssssssssssssssssssssssssssssssssssssssssss";

/// Returns the escape of a byte between two of these quotes, and `None` if it prints as itself, as every
/// byte past ASCII does. `quote` is a quotation mark or an apostrophe.
#[inline]
pub fn escape(byte: u8, quote: u8) -> Option<&'static str>
    requires { IsQuote quote }
    ensures { option_copied result ≡ escape quote byte }
{
    match byte {
        0..=0x1f => Some(control(byte)),
        b'\\' => Some("\\\\"),
        0x7f => Some("\\u{7f}"),
        b'"' if quote == b'"' => Some("\\\""),
        b'\'' if quote == b'\'' => Some("\\'"),
        _ => None,
    }
}

// The escape of a byte below the space. A match without gaps is compiled to a table.
#[inline(always)]
fn control(byte: u8) -> &'static str
    requires { byte < 32 }
    ensures { (quote : ℕ) → IsQuote quote → Some result.now ≡ escape quote byte }
{
    match byte {
        b'\0' => "\\0",
        0x01 => "\\u{1}",
        0x02 => "\\u{2}",
        0x03 => "\\u{3}",
        0x04 => "\\u{4}",
        0x05 => "\\u{5}",
        0x06 => "\\u{6}",
        0x07 => "\\u{7}",
        0x08 => "\\u{8}",
        b'\t' => "\\t",
        b'\n' => "\\n",
        0x0b => "\\u{b}",
        0x0c => "\\u{c}",
        b'\r' => "\\r",
        0x0e => "\\u{e}",
        0x0f => "\\u{f}",
        0x10 => "\\u{10}",
        0x11 => "\\u{11}",
        0x12 => "\\u{12}",
        0x13 => "\\u{13}",
        0x14 => "\\u{14}",
        0x15 => "\\u{15}",
        0x16 => "\\u{16}",
        0x17 => "\\u{17}",
        0x18 => "\\u{18}",
        0x19 => "\\u{19}",
        0x1a => "\\u{1a}",
        0x1b => "\\u{1b}",
        0x1c => "\\u{1c}",
        0x1d => "\\u{1d}",
        0x1e => "\\u{1e}",
        _ => "\\u{1f}",
    }
}

/// Writes the text in quotation marks, with escapes.
pub(crate) fn write_quoted_text<W: uWrite>(f: &mut Formatter<W>, text: &str) -> Result<(), W::Error>
    ensures { Prints W.seen f.old (quoted_text (chars text.now)) (is_ok result) f.new }
{
    f.write_str("\"")?;
    write_escaped(f, text)?;
    f.write_str("\"")
}

/// Writes the character or its escape in apostrophes.
pub(crate) fn write_quoted_char<W: uWrite>(
    f: &mut Formatter<W>,
    character: char,
) -> Result<(), W::Error>
    ensures { Prints W.seen f.old (quoted_char character) (is_ok result) f.new }
{
    f.write_str("'")?;
    write_escaped_char(f, character)?;
    f.write_str("'")
}

fn write_escaped_char<W: uWrite>(f: &mut Formatter<W>, character: char) -> Result<(), W::Error>
    ensures { Prints W.seen f.old (escaped apostrophe character) (is_ok result) f.new }
{
    match escape_char(character) {
        Some(escape) => f.write_str(escape),
        None => f.write_char(character),
    }
}

// The escape of a character in apostrophes, and `None` if it prints as itself.
fn escape_char(character: char) -> Option<&'static str>
    ensures { option_copied result ≡ escape apostrophe character }
{
    match u8::try_from(character) {
        Ok(byte) => escape(byte, b'\''),
        Err(_) => None,
    }
}

// Writes stretches without escapes, and escapes, in turn.
fn write_escaped<W: uWrite>(f: &mut Formatter<W>, text: &str) -> Result<(), W::Error>
    ensures { Prints W.seen f.old (escaped_bytes quotation_mark text.now) (is_ok result) f.new }
{
    let mut rest = text;
    'stretches: loop {
        let (stretch, at_escape) = split_stretch(rest);
        write_stretch(f, stretch)?;
        let Some((escape, after)) = split_escape(at_escape) else {
            return Ok(());
        };
        f.write_str(escape)?;
        rest = after;
    }
}

// Writes a stretch as one piece, if it isn't empty.
fn write_stretch<W: uWrite>(f: &mut Formatter<W>, stretch: &str) -> Result<(), W::Error>
    ensures { Prints W.seen f.old stretch.now (is_ok result) f.new }
{
    if stretch.is_empty() {
        return Ok(());
    }
    f.write_str(stretch)
}

// The bytes at the front that print as themselves, and the rest.
fn split_stretch(text: &str) -> (&str, &str)
    ensures stretch { escaped_bytes quotation_mark text.now ≡ result.0.now ++ escaped_bytes quotation_mark result.1.now }
    ensures shorter { length result.1.now ≤ length text.now }
    ensures at_escape { unescaped_len result.1.now ≡ 0 }
{
    text.split_at(unescaped_len(text.as_bytes()))
}

// The escape of the byte at the front, and the text after that byte.
fn split_escape(text: &str) -> Option<(&'static str, &str)>
    requires { unescaped_len text.now ≡ 0 }
    ensures { MatchOption result (text.now ≡ []) (λ x.
        (escaped_bytes quotation_mark text.now ≡ x.0.now ++ escaped_bytes quotation_mark x.1.now)
        × (length x.1.now < length text.now)) }
{
    let byte = *text.as_bytes().first()?;
    let escape = escape(byte, b'"')?;
    Some((escape, &text[1..]))
}

/// Returns how many bytes at the front print as themselves in quotation marks.
pub fn unescaped_len(bytes: &[u8]) -> usize
    ensures { result ≡ unescaped_len bytes.now }
{
    // Four bytes a turn: the end of the bytes is tested once in four.
    let mut end = 0;
    'fours: while bytes.len() - end >= 4 {
        if !is_unescaped(bytes[end]) {
            return end;
        }
        if !is_unescaped(bytes[end + 1]) {
            return end + 1;
        }
        if !is_unescaped(bytes[end + 2]) {
            return end + 2;
        }
        if !is_unescaped(bytes[end + 3]) {
            return end + 3;
        }
        end += 4;
    }
    unescaped_len_from(bytes, end)
}

// `unescaped_len`, where all bytes before `start` print as themselves.
fn unescaped_len_from(bytes: &[u8], start: usize) -> usize
    requires within { start ≤ length bytes.now }
    requires unescaped { unescaped_len bytes.now ≡ start + unescaped_len (drop start bytes.now) }
    ensures { result ≡ unescaped_len bytes.now }
{
    let mut end = start;
    'bytes: while end < bytes.len() {
        if !is_unescaped(bytes[end]) {
            return end;
        }
        end += 1;
    }
    end
}

// Whether a byte prints as itself in quotation marks.
#[inline(always)]
fn is_unescaped(byte: u8) -> bool
    ensures { result ≡ is_none (escape quotation_mark byte) }
{
    UNESCAPED[byte as usize] == b's'
}
