//! Leaves of debug documents: words, lifetimes, texts in quotes and `()` in a row, with a word in
//! parentheses or an address in brackets before them.
ghost use Rattle.std.specs.Prelude.{◌≡◌, ◌<◌, ◌≤◌, ◌==◌, ◌&&◌, ◌||◌, ◌≢◌, ◌∷◌, [], ℕ, IfSome, IsTrue, MatchOption, None, false, length, nat_le, not, true};
ghost use Rattle.ufmt_grammar.specs.Bytes.{is_ending};
ghost use Rattle.ufmt_grammar.specs.declared.class.Class.TheVariants.{Debug};
ghost use Rattle.ufmt_grammar.specs.Leaves.{after_quotes, beginning, begins_plain, begins_quote, between, ends_in_colon, is_address_closed, is_character_closed, is_continuation, is_control, is_escape_byte, is_escape_closed, is_in_word, is_plain_byte, is_quote, is_spaced, is_word_closed, opens_quotes, outside, past, place_outside};
ghost use Rattle.ufmt_scan.specs.Private.Fronts.{EndsAt, EndsLeaf, IsSplit, NeverCloses, Passes, SplitsFront, StaysBetween, StopsWord, begins_name, is_started};

use crate::front::Front;
use crate::leaf::marked_len;
use crate::quoted::split_plain;
use crate::strip::{begins_with, is_spaced, strip_piece};
use ufmt_core::internal::text_from;
use ufmt_grammar::internal::ByteClass;

/// The leaf, if it is a word in ASCII. It may be empty. Nothing of it is tested again.
#[inline(always)]
pub(crate) fn split_debug_word(input: &[u8]) -> Option<Front<'_>>
    ensures { IfSome result (λ front. IsSplit Debug input.now front) }
{
    let (word, rest) = input.split_at(marked_len(ByteClass::PlainAscii, input));
    if ends_here(rest) && (!word.is_empty() || !is_started(rest)) {
        Some(Front {
            text: text_from(word, 0),
            is_name: true,
            rest,
        })
    } else {
        None
    }
}

/// The leaf, if it is one text in quotes that has no escape and only ASCII.
#[inline(always)]
pub(crate) fn split_debug_quotes(input: &[u8]) -> Option<Front<'_>>
    ensures front { IfSome result (λ front. IsSplit Debug input.now front) }
    ensures some { IfSome result (λ front. front.text.now ≢ []) }
    ensures no_name { IfSome result (λ front. front.is_name ≡ false) }
{
    let (text, rest) = split_plain(input)?;
    if ends_here(rest) {
        Some(Front {
            text,
            is_name: false,
            rest,
        })
    } else {
        None
    }
}

// Whether no byte of a leaf is at the front. It may miss an end before a backslash.
#[inline(always)]
#[tactic(auto, using(crate::proofs::LeafEnds::ends_at_end, crate::proofs::LeafEnds::ends_at_byte, crate::proofs::LeafEnds::ends_at_colon, crate::proofs::LeafEnds::ends_at_parenthesis))]
fn ends_here(input: &[u8]) -> bool
    ensures { IsTrue result → EndsAt input.now }
{
    let Some((&byte, after)) = input.split_first() else {
        return true;
    };
    if is_ending(byte) {
        return true;
    }
    if byte == b':' {
        return is_spaced(after);
    }
    byte == b'(' && !begins_with(b')', after)
}

/// Splits off the longest leaf, which may be empty. Returns `None` if its quotes aren't closed, or it
/// isn't UTF-8.
#[inline(never)]
pub(crate) fn split_leaf(input: &[u8]) -> Option<Front<'_>>
    ensures { SplitsFront Debug input.now result }
{
    let (rest, is_named) = after_leaf(input)?;
    let (leaf, _) = input.split_at(input.len() - rest.len());
    let is_name = may_be_name(is_named, leaf);
    match str::from_utf8(leaf) {
        Ok(text) => Some(Front {
            text,
            is_name,
            rest,
        }),
        Err(_) => None,
    }
}

// Whether a leaf is a name, if it is known whether it has only bytes of words and colons.
#[inline(always)]
fn may_be_name(is_named: bool, leaf: &[u8]) -> bool
    ensures { result ≡ (is_named && not (ends_in_colon leaf.now)) }
{
    is_named && !ends_in_colon(leaf)
}

// What follows the leaf, and whether it has only bytes of words and colons.
fn after_leaf(input: &[u8]) -> Option<(&[u8], bool)>
    ensures { MatchOption result (NeverCloses beginning input.now)
        (λ x. EndsLeaf input.now x.0.now x.1) }
{
    let (mut rest, mut is_named) = after_start(input);
    'pieces: loop {
        let end = after_word(rest);
        let Some((&byte, after)) = end.split_first() else {
            return Some((end, is_named));
        };
        if opens_quotes(byte, after) {
            rest = after_text(byte, after)?;
            is_named = false;
            if begins_with(b':', rest) {
                return Some((rest, false));
            }
        } else if is_in_word(byte, after) {
            rest = after;
        } else if let Some(other) = after_other(byte, after) {
            rest = other;
            is_named = false;
        } else {
            return Some((end, is_named));
        }
    }
}

// Whether the leaf begins with a word in parentheses, or an address in brackets and a colon. In pretty
// texts the byte after the bracket tells.
#[inline(always)]
fn is_started(input: &[u8]) -> bool
    ensures { result ≡ is_started input.now }
{
    match input.split_first() {
        Some((b'(', after)) => is_word_here(after),
        Some((b'[', after)) => is_address_here(after),
        _ => false,
    }
}

#[inline(always)]
#[tactic(auto, using(crate::proofs::DebugFronts::no_word_without_name))]
fn is_word_here(input: &[u8]) -> bool
    ensures { result ≡ is_word_closed input.now }
{
    begins_name(input) && is_word_closed(input)
}

#[inline(always)]
#[tactic(auto, using(crate::proofs::DebugFronts::no_address_without_name))]
fn is_address_here(input: &[u8]) -> bool
    ensures { result ≡ is_address_closed input.now }
{
    begins_name(input) && is_address_closed(input)
}

// These two are cold, so that the scan's loop keeps its registers.
#[cold]
fn is_word_closed(input: &[u8]) -> bool
    ensures { result ≡ is_word_closed input.now }
{
    after_closed_word(input).is_some()
}

#[cold]
fn is_address_closed(input: &[u8]) -> bool
    ensures { result ≡ is_address_closed input.now }
{
    after_closed_address(input).is_some()
}

#[inline(always)]
fn begins_name(input: &[u8]) -> bool
    ensures { result ≡ begins_name input.now }
{
    match input.split_first() {
        Some((&byte, _)) => ByteClass::Name.contains(byte),
        None => false,
    }
}

// What follows these, and whether the leaf may be a name.
#[tactic(auto, using(crate::proofs::DebugFronts::nothing_starts, crate::proofs::DebugFronts::no_word_starts, crate::proofs::DebugFronts::no_address_starts, crate::proofs::DebugFronts::no_bracket_starts))]
fn after_start(input: &[u8]) -> (&[u8], bool)
    ensures { Passes beginning input.now outside result.0.now result.1 }
{
    let Some((&byte, after)) = input.split_first() else {
        return (input, true);
    };
    if byte == b'(' {
        return match after_closed_word(after) {
            Some(rest) => (rest, false),
            None => (input, true),
        };
    }
    if byte == b'[' {
        return match after_closed_address(after) {
            Some(rest) => (rest, false),
            None => (input, true),
        };
    }
    (input, true)
}

// What follows a word and the parenthesis that closes it.
fn after_closed_word(input: &[u8]) -> Option<&[u8]>
    ensures { MatchOption result (is_word_closed input.now ≡ false)
        (λ rest. (is_word_closed input.now ≡ true) × Passes beginning (40 ∷ input.now) outside rest.now false) }
{
    let (word, after) = input.split_at(marked_len(ByteClass::Word, input));
    if word.is_empty() {
        return None;
    }
    let rest = strip_piece(")", after)?;
    Some(rest)
}

// What follows an address, the bracket that closes it and a colon, if a byte of a word does.
fn after_closed_address(input: &[u8]) -> Option<&[u8]>
    ensures { MatchOption result (is_address_closed input.now ≡ false)
        (λ rest. (is_address_closed input.now ≡ true) × Passes beginning (91 ∷ input.now) outside rest.now false) }
{
    let (address, after) = input.split_at(marked_len(ByteClass::Name, input));
    if address.is_empty() {
        return None;
    }
    let rest = strip_piece("]:", after)?;
    let (&byte, _) = rest.split_first()?;
    if is_plain_byte(byte) {
        Some(rest)
    } else {
        None
    }
}

// What follows bytes of a word and colons, if there are any. Only the last colon may be before a space.
#[inline(always)]
#[tactic(auto, using(crate::proofs::PassedBytes::run_passes, crate::proofs::PassedBytes::run_stops, crate::proofs::PassedBytes::shorter_run_passes, crate::proofs::PassedBytes::shorter_run_stops, crate::proofs::PassedBytes::run_is_some))]
fn after_word(input: &[u8]) -> &[u8]
    ensures passes { Passes outside input.now outside result.now true }
    ensures stops { StopsWord result.now }
    ensures within { length result.now ≤ length input.now }
{
    let len = marked_len(ByteClass::Run, input);
    let (run, rest) = input.split_at(len);
    if ends_in_colon(run) && is_spaced(rest) {
        input.split_at(len - 1).1
    } else {
        rest
    }
}

// Whether a colon or a backslash is in a word, before this rest of the text.
#[inline(always)]
fn is_in_word(byte: u8, after: &[u8]) -> bool
    requires { is_plain_byte byte ≡ false }
    ensures { result ≡ is_in_word byte after.now }
{
    if byte == b':' {
        return !is_spaced(after);
    }
    byte == b'\\' && !begins_quote(after)
}

// What follows `()`, or the apostrophe of a lifetime, if its first byte is here.
#[inline(always)]
fn after_other(byte: u8, after: &[u8]) -> Option<&[u8]>
    requires no_quote { opens_quotes byte after.now ≡ false }
    requires no_word { is_in_word byte after.now ≡ false }
    ensures { MatchOption result (place_outside byte after.now ≡ None)
        (λ rest. Passes outside (byte ∷ after.now) outside rest.now false × (length rest.now ≤ length after.now)) }
{
    match byte {
        b'\'' => after_apostrophe(after),
        b'(' => after_parenthesis(after),
        _ => None,
    }
}

// What follows an apostrophe that opens no quotes, if a lifetime does.
#[inline(always)]
fn after_apostrophe(after: &[u8]) -> Option<&[u8]>
    requires { is_character_closed after.now ≡ false }
    ensures { MatchOption result (place_outside 39 after.now ≡ None)
        (λ rest. Passes outside (39 ∷ after.now) outside rest.now false × (length rest.now ≤ length after.now)) }
{
    if begins_plain(after) {
        Some(after)
    } else {
        None
    }
}

// What follows a closing parenthesis, if it comes next.
#[inline(always)]
fn after_parenthesis(after: &[u8]) -> Option<&[u8]>
    ensures { MatchOption result (place_outside 40 after.now ≡ None)
        (λ rest. Passes outside (40 ∷ after.now) outside rest.now false × (length rest.now ≤ length after.now)) }
{
    match after.split_first() {
        Some((b')', rest)) => Some(rest),
        _ => None,
    }
}

// Whether a quote opens, before this rest of the text: a quotation mark does, and an apostrophe before a
// character.
#[inline(always)]
fn opens_quotes(byte: u8, after: &[u8]) -> bool
    ensures { result ≡ opens_quotes byte after.now }
{
    byte == b'"' || byte == b'\'' && is_character_closed(after)
}

// Whether one character or escape comes next, and then an apostrophe.
fn is_character_closed(input: &[u8]) -> bool
    ensures { result ≡ is_character_closed input.now }
{
    match input.split_first() {
        Some((b'\\', after)) => is_escape_closed(after),
        Some((&byte, after)) => {
            !is_control(byte) && byte != b'\'' && begins_with(b'\'', after_continuations(after))
        }
        None => false,
    }
}

// The same after a backslash.
#[inline(always)]
fn is_escape_closed(input: &[u8]) -> bool
    ensures { result ≡ is_escape_closed input.now }
{
    match input.split_first() {
        Some((&byte, after)) => is_escaped(byte) && begins_with(b'\'', after_escape(after)),
        None => false,
    }
}

#[inline(always)]
#[tactic(auto, using(crate::proofs::DebugFronts::continuations_are_past))]
fn after_continuations(input: &[u8]) -> &[u8]
    ensures { result.now ≡ past is_continuation input.now }
{
    input.split_at(marked_len(ByteClass::Continuation, input)).1
}

#[inline(always)]
#[tactic(auto, using(crate::proofs::DebugFronts::escape_is_past))]
fn after_escape(input: &[u8]) -> &[u8]
    ensures { result.now ≡ past is_escape_byte input.now }
{
    input.split_at(marked_len(ByteClass::Escape, input)).1
}

#[inline(always)]
fn begins_plain(input: &[u8]) -> bool
    ensures { result ≡ begins_plain input.now }
{
    match input.split_first() {
        Some((&byte, _)) => is_plain_byte(byte),
        None => false,
    }
}

// What follows a text in quotes, after its first quote.
fn after_text(quote: u8, inside: &[u8]) -> Option<&[u8]>
    requires { opens_quotes quote inside.now ≡ true }
    ensures { MatchOption result (NeverCloses outside (quote ∷ inside.now))
        (λ rest. Passes outside (quote ∷ inside.now) after_quotes rest.now false
        × (length rest.now ≤ length inside.now)) }
{
    let mut rest = inside;
    'stretches: loop {
        let (&byte, after) = after_stretch(rest).split_first()?;
        if byte == quote {
            return Some(after);
        }
        rest = after_quoted(byte, after)?;
    }
}

// What follows the bytes that stay between quotes, if there are any.
#[tactic(auto, using(crate::proofs::PassedBytes::stretches_are_passed))]
fn after_stretch(input: &[u8]) -> &[u8]
    ensures passes { (quote : ℕ) → is_quote quote ≡ true → StaysBetween quote input.now result.now }
    ensures within { length result.now ≤ length input.now }
{
    input.split_at(marked_len(ByteClass::Quoted, input)).1
}

// What follows a byte between quotes that is not the closing one. A backslash takes a byte with it.
fn after_quoted(byte: u8, after: &[u8]) -> Option<&[u8]>
    ensures passes { (quote : ℕ) → is_quote quote ≡ true → (byte == quote) ≡ false
        → MatchOption result (NeverCloses (between quote) (byte ∷ after.now))
        (λ rest. StaysBetween quote (byte ∷ after.now) rest.now) }
    ensures within { IfSome result (λ rest. length rest.now ≤ length after.now) }
{
    if byte != b'\\' {
        return if is_control(byte) { None } else { Some(after) };
    }
    let (&escaped, rest) = after.split_first()?;
    if is_escaped(escaped) {
        Some(rest)
    } else {
        None
    }
}

#[inline(always)]
fn is_quote(byte: u8) -> bool
    ensures { result ≡ is_quote byte }
{
    byte == b'"' || byte == b'\''
}

#[inline(always)]
fn begins_quote(input: &[u8]) -> bool
    ensures { result ≡ begins_quote input.now }
{
    match input.split_first() {
        Some((&byte, _)) => is_quote(byte),
        None => false,
    }
}

#[inline(always)]
#[tactic(auto, using(crate::proofs::LeafEnds::last_is_colon, crate::proofs::LeafEnds::no_last_colon))]
fn ends_in_colon(text: &[u8]) -> bool
    ensures { result ≡ ends_in_colon text.now }
{
    match text.split_last() {
        Some((&byte, _)) => byte == b':',
        None => false,
    }
}

// Whether a backslash before the byte takes it.
#[inline(always)]
fn is_escaped(byte: u8) -> bool
    ensures { result ≡ not (is_control byte || nat_le 128 byte) }
{
    !is_control(byte) && byte < 128
}

#[inline(always)]
fn is_control(byte: u8) -> bool
    ensures { result ≡ is_control byte }
{
    byte < b' ' || byte == 127
}

// Whether no leaf has the byte outside of quotes.
#[inline(always)]
fn is_ending(byte: u8) -> bool
    ensures { result ≡ is_ending byte }
{
    ByteClass::Ending.contains(byte)
}

#[inline(always)]
fn is_plain_byte(byte: u8) -> bool
    ensures { result ≡ is_plain_byte byte }
{
    ByteClass::Plain.contains(byte)
}
