//! Texts in quotation marks.
ghost use Rattle.std.specs.Prelude.{◌≡◌, ◌<◌, ◌≤◌, ◌++◌, ◌∷◌, IfOk, IfSome, IsErrOf, MatchOption, length, string_bytes, true};
ghost use Rattle.std.specs.Str.{IsUtf8, chars};
ghost use Rattle.ufmt_core.specs.Document.{leaf};
ghost use Rattle.ufmt_core.specs.Quoted.{escaped_byte, escaped_bytes, quoted_text};
ghost use Rattle.ufmt_core.specs.Bytes.{quotation_mark};
ghost use Rattle.ufmt_parser.specs.Blocks.{outcome_map};
ghost use Rattle.ufmt_parser.specs.Needs.{need};
ghost use Rattle.ufmt_parse_leaves.specs.Spelling.{all_plain, NeverCloses};
ghost use Rattle.ufmt_parser.specs.Taking.{Fits, Takes, open_blocks, rest};

use crate::plain_bytes::plain_len;
use std::alloc::{AllocError, Allocator};
use ufmt_core::internal::{text_from, unescaped_len};
use ufmt_parser::mode::ParseMode;
use ufmt_parser::need::Need;
use ufmt_parser::parser::{Fault, Parser};
use ufmt_scan::internal::{split_escaped, strip_byte};

// How many bytes more a text gets room for at its first escape.
const MORE: usize = 32;

// The bytes at the front that are ASCII and written as themselves, as a text, and what follows them.
#[inline(always)]
fn split_plain(input: &[u8]) -> (&str, &[u8])
    ensures whole { input.now ≡ result.0.now ++ result.1.now }
    ensures plain { all_plain result.0.now ≡ true }
{
    let (plain, rest) = input.split_at(plain_len(input));
    (text_from(plain, 0), rest)
}

// A copy of the text, with room for so many bytes more.
#[inline(always)]
fn copied<A: Allocator>(alloc: A, text: &str, more: usize) -> Result<String<A>, AllocError>
    ensures { IfOk result (λ copy. string_bytes copy ≡ text.now) }
{
    let mut copy = String::with_capacity(alloc, text.len().saturating_add(more))?;
    copy.push_str(text)?;
    Ok(copy)
}

// The character in ASCII at the front that is written with a backslash, and what follows it.
#[inline(always)]
fn split_escape(input: &[u8]) -> Option<(char, &[u8])>
    ensures { IfSome result (λ x. (x.0 < 128) × (input.now ≡ escaped_byte quotation_mark x.0 ++ x.1.now)) }
{
    if input.first() != Some(&b'\\') {
        return None;
    }
    match split_escaped(b'"', input) {
        None => None,
        Some((byte, after)) => {
            if byte < 128 {
                Some((char::from(byte), after))
            } else {
                None
            }
        }
    }
}

// Decodes escapes and plain bytes in turn, after the plain bytes before them, and returns what follows.
#[inline(never)]
#[tactic(auto, using(crate::proofs::SpelledTexts::spelling))]
fn read_escapes<'t, A: Allocator>(
    alloc: A,
    plain: &str,
    input: &'t [u8],
) -> Result<(String<A>, &'t [u8]), AllocError>
    requires { all_plain plain.now ≡ true }
    ensures { IfOk result (λ x. escaped_bytes quotation_mark (string_bytes x.0) ++ x.1.now ≡ plain.now ++ input.now) }
{
    let mut text = copied(alloc, plain, MORE)?;
    let mut rest = input;
    'escapes: while let Some((character, after)) = split_escape(rest) {
        text.push(character)?;
        let (plain, end) = split_plain(after);
        text.push_str(plain)?;
        rest = end;
    }
    Ok((text, rest))
}

// Decodes the bytes in ASCII at the front, and returns what follows them. Most texts are plain up to the
// closing quotation mark: these get exactly their room.
#[inline(always)]
fn read_ascii<'t, A: Allocator>(
    alloc: A,
    input: &'t [u8],
) -> Result<(String<A>, &'t [u8]), AllocError>
    ensures { IfOk result (λ x. escaped_bytes quotation_mark (string_bytes x.0) ++ x.1.now ≡ input.now) }
{
    let (plain, end) = split_plain(input);
    if end.first() != Some(&b'"') {
        return read_escapes(alloc, plain, end);
    }
    Ok((copied(alloc, plain, 0)?, end))
}

// Moves the bytes at the front that are written as themselves, and returns what follows them.
#[tactic(auto, using(crate::proofs::SpelledTexts::spelling))]
fn push_stretch<'t, A: Allocator>(
    bytes: &mut Vec<u8, A>,
    input: &'t [u8],
) -> Result<&'t [u8], AllocError>
    ensures whole { IfOk result (λ rest. escaped_bytes quotation_mark bytes.new.items ++ rest.now
        ≡ escaped_bytes quotation_mark bytes.old.items ++ input.now) }
    ensures shorter { IfOk result (λ rest. length rest.now ≤ length input.now) }
{
    let (plain, rest) = input.split_at(unescaped_len(input));
    bytes.extend_from_slice(plain)?;
    Ok(rest)
}

// Decodes the bytes up to the closing quotation mark, after those before them, and returns what follows
// the mark.
#[tactic(auto, using(crate::proofs::SpelledTexts::spelling))]
fn read_bytes<'t, A: Allocator>(
    bytes: &mut Vec<u8, A>,
    input: &'t [u8],
) -> Result<Option<&'t [u8]>, AllocError>
    ensures { IfOk result (λ end. MatchOption end (NeverCloses (escaped_bytes quotation_mark bytes.old.items ++ input.now))
        (λ rest. escaped_bytes quotation_mark bytes.old.items ++ input.now
        ≡ escaped_bytes quotation_mark bytes.new.items ++ (quotation_mark ∷ rest.now))) }
{
    let mut rest = input;
    'escapes: loop {
        let end = push_stretch(bytes, rest)?;
        if let Some(after) = strip_byte(b'"', end) {
            return Ok(Some(after));
        }
        match split_escaped(b'"', end) {
            None => return Ok(None),
            Some((byte, after)) => {
                bytes.push(byte)?;
                rest = after;
            }
        }
    }
}

/// Parses a text in quotation marks, with the escapes that printing writes and no others. What is in ASCII
/// needs no test of UTF-8.
pub fn parse_text<A: Allocator + Copy, M: ParseMode>(
    alloc: A,
    parser: &mut Parser<'_, M>,
) -> Result<String<A>, Fault>
    ensures takes { Takes (λ bytes. IsUtf8 bytes × Fits (open_blocks parser.old) (leaf (quoted_text (chars bytes))))
        (λ bytes. quoted_text (chars bytes))
        (rest parser.old) (outcome_map string_bytes result) (rest parser.new) }
    ensures stays { IsErrOf result Fault.NotText
        → (rest parser.new ≡ rest parser.old) × (need parser.new ≡ Need.Text) }
    ensures blocks { IfOk result (λ _. open_blocks parser.new ≡ open_blocks parser.old) }
    ensures shrinks { length (rest parser.new) ≤ length (rest parser.old) }
{
    let Some(inside) = strip_byte(b'"', parser.rest()) else {
        return Err(parser.refuse(Need::Text));
    };
    let Ok((text, end)) = read_ascii(alloc, inside) else {
        return Err(Fault::OutOfMemory);
    };
    if let Some(after) = strip_byte(b'"', end) {
        parser.skip_to(after);
        return Ok(text);
    }
    let mut bytes = text.into_bytes();
    match read_bytes(&mut bytes, end) {
        Err(_) => Err(Fault::OutOfMemory),
        Ok(None) => Err(parser.refuse(Need::Text)),
        Ok(Some(after)) => match String::from_utf8(bytes) {
            Ok(text) => {
                parser.skip_to(after);
                Ok(text)
            }
            Err(_) => Err(parser.refuse(Need::Text)),
        },
    }
}
