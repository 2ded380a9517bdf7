//! Texts in quotation marks as Rust prints them, with any character written by its number.
ghost use Rattle.std.specs.Prelude.{◌≡◌, ◌≢◌, ◌≤◌, ◌<◌, ◌++◌, ℕ, List, MatchOption, length};
ghost use Rattle.std.specs.Char.{IsScalar};
ghost use Rattle.std.specs.Str.{encode_utf8_all};
ghost use Rattle.ufmt_c.specs.Calls.{HasPut};
ghost use Rattle.ufmt_c.specs.DebugQuotes.{AreSpelled, IsSpelled, UnquotesDebugText};

use crate::character_number::split_numbered;
use crate::code::{FULL, NO_TEXT};
use crate::filler::put;
use crate::text::text_at_front;
use ufmt_parse_leaves::characters::split_character;
use ufmt_scan::internal::strip_byte;

/// Writes the text that Rust prints so: of each text in quotation marks that `ufmt_unquote` takes, and of
/// those in which other characters are written by their numbers too, as `"\u{200b}"`. Returns `NO_TEXT`
/// only if there is none. Then `detail` becomes the number of bytes at the input's front that some such
/// text begins with, in whole characters, and any byte of the buffer may have been overwritten.
#[unsafe(no_mangle)]
pub extern "C" fn ufmt_unquote_debug(buffer: &mut [u8], input: &[u8], detail: &mut usize) -> isize
    ensures { UnquotesDebugText input.now buffer.old result buffer.new detail.new }
{
    let front = text_at_front(input);
    let Some(inside) = strip_byte(b'"', front) else {
        *detail = 0;
        return NO_TEXT;
    };
    let decoded = decode(buffer, inside);
    let Some(after) = strip_byte(b'"', decoded.rest) else {
        *detail = front.len() - decoded.rest.len();
        return NO_TEXT;
    };
    let end = front.len() - after.len();
    if end < input.len() {
        *detail = end;
        return NO_TEXT;
    }
    *detail = decoded.length;
    if decoded.length > buffer.len() {
        return FULL;
    }
    decoded.length as isize
}

// How many bytes the decoded characters have, and what follows them.
#[derive(Clone, Copy)]
struct Decoded<'a> {
    length: usize,
    rest: &'a [u8],
}

// Decodes characters that are written between quotation marks, as many as there are, and puts those that
// fit to the front of the buffer.
fn decode<'a>(buffer: &mut [u8], input: &'a [u8]) -> Decoded<'a>
    ensures decoded { (cs : List ℕ) × (text : List ℕ) × (input.now ≡ text ++ result.rest.now) × AreSpelled cs text
        × (result.length ≡ length (encode_utf8_all cs)) × HasPut buffer.old (encode_utf8_all cs) buffer.new }
    ensures ends { (c : ℕ) (front after : List ℕ) → IsScalar c → IsSpelled c front
        → result.rest.now ≢ front ++ after }
{
    let mut length = 0;
    let mut rest = input;
    'characters: while let Some((character, after)) = split_spelled(rest) {
        let mut room = [0; 4];
        let bytes = character.encode_utf8(&mut room).as_bytes();
        put(buffer, length, bytes);
        length += bytes.len();
        rest = after;
    }
    Decoded { length, rest }
}

// The character at the front, as Rust writes it between quotation marks, and what follows it.
fn split_spelled(input: &[u8]) -> Option<(char, &[u8])>
    ensures { MatchOption result
        ((c : ℕ) (front rest : List ℕ) → IsScalar c → IsSpelled c front → input.now ≢ front ++ rest)
        (λ x. IsScalar x.0 × ((front : List ℕ) × IsSpelled x.0 front × (input.now ≡ front ++ x.1.now))) }
{
    match split_numbered(input) {
        Some(found) => Some(found),
        None => split_character(b'"', input),
    }
}
