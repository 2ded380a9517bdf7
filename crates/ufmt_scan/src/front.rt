//! The name or the leaf at the front of a text.
ghost use Rattle.std.specs.Prelude.{◌≡◌, ◌≢◌, [], List, ℕ, IfSome, false, option_map};
ghost use Rattle.ufmt_grammar.specs.declared.class.Class.TheVariants.{Token};
ghost use Rattle.ufmt_grammar.specs.Reading.{read_name};
ghost use Rattle.ufmt_scan.specs.Private.Fronts.{IsSplit, SplitsFront};

use crate::debug_leaf::{split_debug_quotes, split_debug_word, split_leaf};
use crate::leaf::split_word;
use ufmt_core::internal::text_from;
use ufmt_grammar::class::Class;

/// A leaf at the front of a text, which may be empty, and what follows it.
#[derive(Clone, Copy)]
pub(crate) struct Front<'a> {
    pub(crate) text: &'a str,
    /// Whether a block may have it as its name.
    pub(crate) is_name: bool,
    pub(crate) rest: &'a [u8],
}

/// The front, if it is a word in ASCII, as most are. It may be empty. `None` says nothing of the text:
/// `split_front` splits off any front.
#[inline(always)]
pub(crate) fn split_word_front(class: Class, input: &[u8]) -> Option<Front<'_>>
    ensures { IfSome result (λ front. IsSplit class input.now front) }
{
    match class {
        Class::Token => Some(split_token_word(input)),
        Class::Debug => split_debug_word(input),
    }
}

/// The front, if it is one text in quotes, in ASCII and without an escape. `None` says nothing of the
/// text. No front of a token document has quotes.
#[inline(always)]
pub(crate) fn split_quoted_front(class: Class, input: &[u8]) -> Option<Front<'_>>
    ensures front { IfSome result (λ front. IsSplit class input.now front) }
    ensures some { IfSome result (λ front. front.text.now ≢ []) }
    ensures no_name { IfSome result (λ front. front.is_name ≡ false) }
{
    match class {
        Class::Token => None,
        Class::Debug => split_debug_quotes(input),
    }
}

/// Splits off the longest name or leaf, or nothing. Returns `None` if it isn't a leaf: its quotes
/// aren't closed, or it isn't UTF-8.
#[inline(always)]
pub(crate) fn split_front(class: Class, input: &[u8]) -> Option<Front<'_>>
    ensures { SplitsFront class input.now result }
{
    match class {
        Class::Token => Some(split_token_word(input)),
        Class::Debug => split_leaf(input),
    }
}

#[inline(always)]
fn split_token_word(input: &[u8]) -> Front<'_>
    ensures { IsSplit Token input.now result }
{
    let (word, rest) = split_word(input);
    Front {
        text: text_from(word, 0),
        is_name: true,
        rest,
    }
}

/// Returns the name at the front of a text, as long as it may be, and what follows it.
#[inline(always)]
pub fn split_name(class: Class, input: &[u8]) -> Option<(&str, &[u8])>
    ensures { option_map (λ x. (x.0.now, x.1.now)) result ≡ read_name class input.now }
{
    match split_word_front(class, input) {
        Some(front) => front.name(),
        None => split_any_name(class, input),
    }
}

// The same, whichever leaf is at the front.
#[inline(always)]
fn split_any_name(class: Class, input: &[u8]) -> Option<(&str, &[u8])>
    ensures { option_map (λ x. (x.0.now, x.1.now)) result ≡ read_name class input.now }
{
    split_front(class, input)?.name()
}

impl<'a> Front<'a> {
    // The front as a name, and what follows it.
    #[inline(always)]
    fn name(self) -> Option<(&'a str, &'a [u8])>
        ensures { (class : Class) (t : List ℕ) → IsSplit class t self.entry
            → option_map (λ x. (x.0.now, x.1.now)) result ≡ read_name class t }
    {
        if self.is_name && !self.text.is_empty() {
            Some((self.text, self.rest))
        } else {
            None
        }
    }
}
