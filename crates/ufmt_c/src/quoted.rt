//! Texts in quotation marks, and what is between the marks.
ghost use Rattle.std.specs.Prelude.{◌≡◌, ◌≢◌, ◌++◌, ◌∷◌, [], ℕ, List, length};
ghost use Rattle.std.specs.Str.{IsUtf8, chars};
ghost use Rattle.ufmt_core.specs.Bytes.{quotation_mark};
ghost use Rattle.ufmt_core.specs.Quoted.{escaped_byte, escaped_bytes, quoted_text};
ghost use Rattle.ufmt_c.specs.Calls.{HasPut, RefusesBytes, PutsText};
ghost use Rattle.ufmt_c.specs.Quotes.{UnquotesText};

use crate::code::{FULL, NO_TEXT, NOT_UTF8};
use crate::filler::put;
use crate::print::print;
use crate::text::{text_at_front, text_of};
use ufmt_scan::internal::{split_escaped, strip_byte};

/// Writes the text in quotation marks, with the escapes that `{:?}` writes. Returns `NOT_UTF8` if the input
/// isn't UTF-8; `detail` becomes the number of bytes at its front that are.
#[unsafe(no_mangle)]
pub extern "C" fn ufmt_quote(buffer: &mut [u8], input: &[u8], detail: &mut usize) -> isize
    ensures text { IsUtf8 input.now → PutsText buffer.old (quoted_text (chars input.now)) result
        buffer.new detail.new }
    ensures bytes { ¬ (IsUtf8 input.now) → RefusesBytes input.now buffer.old result buffer.new
        detail.new }
{
    match text_of(input, detail) {
        Some(text) => print(buffer, &text, detail),
        None => NOT_UTF8,
    }
}

// What was decoded.
#[derive(Clone, Copy)]
struct Decoded<'a> {
    length: usize,
    rest: &'a [u8],
}

// Decodes bytes that are written between quotation marks, as many as there are, and puts those that fit
// to the front of the buffer.
fn decode<'a>(buffer: &mut [u8], input: &'a [u8]) -> Decoded<'a>
    ensures decoded { (bytes : List ℕ) × (input.now ≡ escaped_bytes quotation_mark bytes ++ result.rest.now)
        × (result.length ≡ length bytes) × HasPut buffer.old bytes buffer.new }
    ensures ends { (byte : ℕ) (after : List ℕ)
        → result.rest.now ≢ escaped_byte quotation_mark byte ++ after }
{
    let mut length = 0;
    let mut rest = input;
    'bytes: while let Some((byte, after)) = split_escaped(b'"', rest) {
        put(buffer, length, &[byte]);
        length += 1;
        rest = after;
    }
    Decoded { length, rest }
}

/// Writes the text of which `ufmt_quote` writes this input. Returns `NO_TEXT` only if there is none. Then
/// `detail` becomes the number of bytes at the input's front that some such text begins with, in whole
/// characters, and any byte of the buffer may have been overwritten.
#[unsafe(no_mangle)]
pub extern "C" fn ufmt_unquote(buffer: &mut [u8], input: &[u8], detail: &mut usize) -> isize
    ensures { UnquotesText input.now buffer.old result buffer.new detail.new }
{
    // Only bytes that are UTF-8 are decoded, so what is put is a text.
    let front = text_at_front(input);
    let Some(inside) = strip_byte(b'"', front) else {
        *detail = 0;
        return NO_TEXT;
    };
    let decoded = decode(buffer, inside);
    let Some(after) = strip_byte(b'"', decoded.rest) else {
        *detail = front.len() - decoded.rest.len();
        return NO_TEXT;
    };
    let end = front.len() - after.len();
    if end < input.len() {
        *detail = end;
        return NO_TEXT;
    }
    *detail = decoded.length;
    if decoded.length > buffer.len() {
        return FULL;
    }
    decoded.length as isize
}
