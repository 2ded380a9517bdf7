//! Leaves in quotes at the front of a text, and the bytes that they spell.
ghost use Rattle.std.specs.Prelude.{◌≡◌, ◌≢◌, ◌≤◌, ◌+◌, ◌++◌, ◌∷◌, ℕ, List, IfSome, IsNone, MatchOption, Some, length, option_map, slice_index};
ghost use Rattle.std.specs.Char.{digit_value};
ghost use Rattle.std.specs.Str.{continuation_len};
ghost use Rattle.ufmt_core.specs.Quoted.{IsQuote, escaped_byte};
ghost use Rattle.ufmt_grammar.specs.Reading.{strip};
ghost use Rattle.ufmt_grammar.specs.ReadingQuoted.{read_quoted, decoded};
ghost use Rattle.ufmt_scan.specs.Rest.{now_of};
ghost use Rattle.ufmt_scan.specs.Private.Spelled.{Closes, IsOneCharacter, IsSpelled, NeverCloses};

use crate::leaf::marked_len;
use crate::strip::{strip_byte, strip_piece};
use ufmt_core::internal::{escape, text_from, unescaped_len};
use ufmt_grammar::internal::ByteClass;

/// A leaf in quotation marks in ASCII and without an escape, and what follows it. It needs no test of UTF-8.
#[inline(always)]
#[tactic(auto, using(crate::proofs::QuotedLeaves::plain_ascii))]
pub(crate) fn split_plain(input: &[u8]) -> Option<(&str, &[u8])>
    ensures { IfSome result (λ x. read_quoted input.now ≡ Some (x.0.now, x.1.now)) }
{
    let inside = strip_byte(b'"', input)?;
    let (_, end) = inside.split_at(marked_len(ByteClass::Unescaped, inside));
    let rest = strip_byte(b'"', end)?;
    let (leaf, _) = input.split_at(input.len() - rest.len());
    Some((text_from(leaf, 0), rest))
}

/// A text or a character with its quotes, and what follows it.
#[inline(never)]
#[tactic(auto, using(crate::proofs::QuotedLeaves::any_leaf))]
pub(crate) fn split_any(input: &[u8]) -> Option<(&str, &[u8])>
    ensures { option_map (λ x. (x.0.now, x.1.now)) result ≡ read_quoted input.now }
{
    let (&quote, inside) = input.split_first()?;
    if quote != b'"' && quote != b'\'' {
        return None;
    }
    let rest = after_quote(quote, inside)?;
    let (leaf, _) = input.split_at(input.len() - rest.len());
    if quote == b'\'' && !is_character(leaf) {
        return None;
    }
    // UTF-8 is tested once for the whole leaf: escapes are ASCII.
    match str::from_utf8(leaf) {
        Ok(leaf) => Some((leaf, rest)),
        Err(_) => None,
    }
}

// What follows the closing quote.
#[tactic(auto, using(crate::proofs::Spelled::closing))]
fn after_quote(quote: u8, input: &[u8]) -> Option<&[u8]>
    requires { IsQuote quote }
    ensures { MatchOption result (NeverCloses quote input.now) (λ rest. Closes quote input.now rest.now) }
{
    let mut rest = after_stretch(quote, input);
    'escapes: loop {
        if let Some(after) = strip_byte(quote, rest) {
            return Some(after);
        }
        let (_, after) = split_escaped(quote, rest)?;
        rest = after_stretch(quote, after);
    }
}

// Skips bytes that have no escape, if the quote is a quotation mark.
#[tactic(auto, using(crate::proofs::Spelled::closing))]
fn after_stretch(quote: u8, input: &[u8]) -> &[u8]
    ensures after { IsSpelled quote input.now result.now }
    ensures shorter { length result.now ≤ length input.now }
{
    if quote == b'"' {
        input.split_at(unescaped_len(input)).1
    } else {
        input
    }
}

// Whether exactly one character is between the apostrophes.
fn is_character(leaf: &[u8]) -> bool
    ensures { IsOneCharacter leaf.now result }
{
    let Some((_apostrophe, inside)) = leaf.split_first() else {
        return false;
    };
    match split_escaped(b'\'', inside) {
        Some((lead, rest)) => rest.len() == character_len(lead),
        None => false,
    }
}

/// Returns how many bytes a character has in UTF-8, by its first byte.
pub fn character_len(lead: u8) -> usize
    ensures { result ≡ 1 + continuation_len lead }
{
    match lead {
        0..=0x7f => 1,
        0x80..=0xdf => 2,
        0xe0..=0xef => 3,
        _ => 4,
    }
}

/// Decodes the first byte of what is written between these quotes. Returns it with what follows, or
/// `None` if the input begins with no byte's spelling. `quote` is a quotation mark or apostrophe.
#[inline(always)]
#[tactic(auto, using(crate::proofs::Spelled::no_other, ufmt_grammar::proofs::Parsing::strip_found))]
pub fn split_escaped(quote: u8, input: &[u8]) -> Option<(u8, &[u8])>
    requires { IsQuote quote }
    ensures some { IfSome result (λ x. input.now ≡ escaped_byte quote x.0 ++ x.1.now) }
    ensures none { IsNone result → (byte : ℕ) (rest : List ℕ) → input.now ≢ escaped_byte quote byte ++ rest }
{
    // Past 255 the input begins with no spelling, so that of zero isn't found either.
    let byte = u8::try_from(decoded(input)).unwrap_or(0);
    Some((byte, strip_spelling(quote, byte, input)?))
}

// What follows the spelling of this byte between these quotes.
#[inline(always)]
#[tactic(auto, using(crate::proofs::Spelled::escaped_byte_is))]
fn strip_spelling(quote: u8, byte: u8, input: &[u8]) -> Option<&[u8]>
    requires { IsQuote quote }
    ensures { now_of result ≡ strip (escaped_byte quote byte) input.now }
{
    match escape(byte, quote) {
        Some(spelling) => strip_piece(spelling, input),
        None => strip_byte(byte, input),
    }
}

// The only byte whose spelling may be at the front, or a number past 255.
fn decoded(input: &[u8]) -> u32
    ensures { result ≡ decoded input.now }
{
    match (byte_at(input, 0), byte_at(input, 1)) {
        (b'\\', b'0') => 0,
        (b'\\', b't') => 9,
        (b'\\', b'n') => 10,
        (b'\\', b'r') => 13,
        (b'\\', b'u') => match byte_at(input, 4) {
            b'}' => digit_value(byte_at(input, 3)),
            second => digit_value(byte_at(input, 3)) * 16 + digit_value(second),
        },
        (b'\\', letter) => u32::from(letter),
        (first, _) => u32::from(first),
    }
}

fn byte_at(input: &[u8], index: usize) -> u8
    ensures { result ≡ slice_index input.now index }
{
    input.get(index).copied().unwrap_or(0)
}

/// The value of a digit or a letter as a digit, and 36 for any other byte.
pub fn digit_value(byte: u8) -> u32
    ensures value { result ≡ digit_value byte }
    ensures small { result ≤ 36 }
{
    char::from(byte).to_digit(36).unwrap_or(36)
}
