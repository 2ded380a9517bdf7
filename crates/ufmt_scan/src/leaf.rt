//! Leaves: words, `()`, and texts in quotes.
ghost use Rattle.std.specs.Prelude.{◌≡◌, ◌≤◌, ◌+◌, ◌↔◌, IsTrue, drop, length, option_map};
ghost use Rattle.ufmt_grammar.specs.declared.class.Class.TheVariants.{Token};
ghost use Rattle.ufmt_grammar.specs.Leaves.{IsDebugLeaf};
ghost use Rattle.ufmt_grammar.specs.Token.{IsLeaf, IsName, IsSymbol, IsTokenLeaf, IsWord};
ghost use Rattle.ufmt_grammar.specs.Reading.{after_word, read_quotes, read_symbol, word_of};
ghost use Rattle.ufmt_scan.specs.Private.MarkedBytes.{marked_len};

use crate::front::{split_front, split_name};
use crate::quoted::{split_any, split_plain};
use crate::strip::strip_piece;
use ufmt_grammar::class::Class;
use ufmt_grammar::internal::ByteClass;

/// The word bytes at the front, and what follows them.
#[inline(always)]
#[tactic(auto, using(crate::proofs::WordBytes::words_are_marked))]
pub(crate) fn split_word(input: &[u8]) -> (&[u8], &[u8])
    ensures word { result.0.now ≡ word_of input.now }
    ensures rest { result.1.now ≡ after_word input.now }
{
    input.split_at(marked_len(ByteClass::TokenWord, input))
}

/// How many bytes at the front are of the class.
#[inline(always)]
pub(crate) fn marked_len(class: ByteClass, input: &[u8]) -> usize
    ensures len { result ≡ marked_len class input.now }
    ensures within { result ≤ length input.now }
{
    // Eight bytes a turn, so that the length is compared once for eight bytes.
    let mut end = 0;
    'eights: while input.len() - end >= 8 {
        if !class.contains(input[end]) {
            return end;
        }
        if !class.contains(input[end + 1]) {
            return end + 1;
        }
        if !class.contains(input[end + 2]) {
            return end + 2;
        }
        if !class.contains(input[end + 3]) {
            return end + 3;
        }
        if !class.contains(input[end + 4]) {
            return end + 4;
        }
        if !class.contains(input[end + 5]) {
            return end + 5;
        }
        if !class.contains(input[end + 6]) {
            return end + 6;
        }
        if !class.contains(input[end + 7]) {
            return end + 7;
        }
        end += 8;
    }
    marked_len_from(class, input, end)
}

// The same, if the bytes before `start` are of the class.
fn marked_len_from(class: ByteClass, input: &[u8], start: usize) -> usize
    requires within { start ≤ length input.now }
    requires marked { marked_len class input.now
        ≡ start + marked_len class (drop start input.now) }
    ensures len { result ≡ marked_len class input.now }
    ensures within { result ≤ length input.now }
{
    let mut end = start;
    'bytes: while end < input.len() {
        if !class.contains(input[end]) {
            return end;
        }
        end += 1;
    }
    end
}

/// A leaf in quotes at the front of a text, and what follows it. In a debug document it is a front.
#[inline(always)]
pub(crate) fn split_quotes(class: Class, input: &[u8]) -> Option<(&str, &[u8])>
    ensures { option_map (λ x. (x.0.now, x.1.now)) result ≡ read_quotes class input.now }
{
    match class {
        Class::Token => match split_plain(input) {
            Some(text) => Some(text),
            None => split_any(input),
        },
        Class::Debug => None,
    }
}

// The `()` or the leaf in quotes at the front of a text, and what follows it.
fn split_symbol(input: &[u8]) -> Option<(&str, &[u8])>
    ensures { option_map (λ x. (x.0.now, x.1.now)) result ≡ read_symbol Token input.now }
{
    match strip_piece("()", input) {
        Some(rest) => Some(("()", rest)),
        None => split_quotes(Class::Token, input),
    }
}

/// Returns whether a text is a leaf that can be read again.
pub fn is_leaf(text: &str) -> bool
    ensures { IsTrue result ↔ IsTokenLeaf text.now }
{
    is_word(text) || is_symbol(text)
}

/// Returns whether a text is a word.
pub fn is_word(text: &str) -> bool
    ensures { IsTrue result ↔ IsWord text.now }
{
    is_name_of(Class::Token, text)
}

/// Returns whether a text is `()` or a leaf in quotes.
#[tactic(auto, using(crate::proofs::Leaves::no_symbol_tested))]
pub fn is_symbol(text: &str) -> bool
    ensures { IsTrue result ↔ IsSymbol text.now }
{
    match split_symbol(text.as_bytes()) {
        Some((_, rest)) => rest.is_empty(),
        None => false,
    }
}

// Promise (reading): Each test of a leaf or a name is true for the leaves or the names of its class, and for
// nothing else. Also: `is_name_of`, `is_leaf`, `is_word`, `is_symbol`.
/// Returns whether a text is a leaf of documents of the class.
pub fn is_leaf_of(class: Class, text: &str) -> bool
    ensures { IsTrue result ↔ IsLeaf class text.now }
{
    match class {
        Class::Token => is_leaf(text),
        Class::Debug => is_debug_leaf(text),
    }
}

/// Returns whether a text is a name of documents of the class. The name of a tuple may also be empty.
#[tactic(auto, using(crate::proofs::Leaves::no_name_tested))]
pub fn is_name_of(class: Class, text: &str) -> bool
    ensures { IsTrue result ↔ IsName class text.now }
{
    match split_name(class, text.as_bytes()) {
        Some((_, after)) => after.is_empty(),
        None => false,
    }
}

// Whether a text is words, lifetimes, texts in quotes and `()` in a row.
fn is_debug_leaf(text: &str) -> bool
    ensures { IsTrue result ↔ IsDebugLeaf text.now }
{
    match split_front(Class::Debug, text.as_bytes()) {
        Some(front) => !front.text.is_empty() && front.rest.is_empty(),
        None => false,
    }
}
