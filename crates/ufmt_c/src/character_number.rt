//! Characters by their numbers, as Rust writes those that aren't shown: `\u{200b}`.
ghost use Rattle.std.specs.Prelude.{◌≡◌, ◌≢◌, ◌<◌, ◌++◌, ℕ, List, MatchOption, codes};
ghost use Rattle.std.specs.Char.{IsScalar, digit_char};
ghost use Rattle.std.specs.Char.Escape.{escape_unicode};
ghost use Rattle.ufmt_grammar.specs.Reading.{strip};
ghost use Rattle.ufmt_scan.specs.Rest.{now_of};
ghost use Rattle.ufmt_c.specs.Private.CharacterNumbers.{digit_at, high_digits, low_digits, number_from};

use ufmt_scan::internal::{digit_value, strip_byte, strip_two};

// One more than the greatest number of a character.
const CHARACTERS: u32 = 0x11_0000;

/// The character at the front that is written by its number, and what follows it.
pub(crate) fn split_numbered(input: &[u8]) -> Option<(char, &[u8])>
    ensures { MatchOption result ((c : ℕ) (rest : List ℕ) → IsScalar c → input.now ≢ escape_unicode c ++ rest)
        (λ x. IsScalar x.0 × (input.now ≡ escape_unicode x.0 ++ x.1.now)) }
{
    let digits = strip_opening(input)?;
    let character = char::from_u32(number_at_front(digits))?;
    match strip_number(character as u32, input) {
        Some(after) => Some((character, after)),
        None => None,
    }
}

// What follows the beginning of such a character.
fn strip_opening(input: &[u8]) -> Option<&[u8]>
    ensures { now_of result ≡ strip (codes "\\u{") input.now }
{
    let brace = strip_two(*b"\\u", input)?;
    strip_byte(b'{', brace)
}

// The number of the digits at the front, up to a brace, or up to what is too large for a character.
#[tactic(auto, using(crate::proofs::CharacterNumbers::no_digits, crate::proofs::CharacterNumbers::digits_end, crate::proofs::CharacterNumbers::digit_read))]
fn number_at_front(digits: &[u8]) -> u32
    ensures { result ≡ number_from 0 digits.now }
{
    let mut number = 0;
    let mut rest = digits;
    'digits: while let Some((digit, after)) = rest.split_first() {
        if *digit == b'}' || number >= CHARACTERS {
            return number;
        }
        number = number * 16 + digit_value(*digit);
        rest = after;
    }
    number
}

// What follows the character with this number, if it is written so at the front.
#[tactic(auto, using(crate::proofs::CharacterNumbers::stripped_on, crate::proofs::CharacterNumbers::not_stripped, crate::proofs::CharacterNumbers::number_parts))]
fn strip_number(number: u32, input: &[u8]) -> Option<&[u8]>
    ensures { now_of result ≡ strip (escape_unicode number) input.now }
{
    let digits = strip_opening(input)?;
    let low = strip_high_digits(number, digits)?;
    let brace = strip_low_digits(number, low)?;
    strip_byte(b'}', brace)
}

// What follows the first three of six digits, as far as the number has them.
#[tactic(auto, using(crate::proofs::CharacterNumbers::stripped_on, crate::proofs::CharacterNumbers::not_stripped))]
fn strip_high_digits(number: u32, input: &[u8]) -> Option<&[u8]>
    ensures { now_of result ≡ strip (high_digits number) input.now }
{
    let second = strip_digit(0x10_0000, number, input)?;
    let third = strip_digit(0x1_0000, number, second)?;
    strip_digit(0x1000, number, third)
}

// What follows the last three.
#[tactic(auto, using(crate::proofs::CharacterNumbers::stripped_on, crate::proofs::CharacterNumbers::not_stripped))]
fn strip_low_digits(number: u32, input: &[u8]) -> Option<&[u8]>
    ensures { now_of result ≡ strip (low_digits number) input.now }
{
    let second = strip_digit(0x100, number, input)?;
    let third = strip_digit(0x10, number, second)?;
    strip_digit(1, number, third)
}

// What follows the digit at a place that is worth so much. A number has no zeros at its front.
fn strip_digit(worth: u32, number: u32, input: &[u8]) -> Option<&[u8]>
    requires { 0 < worth }
    ensures { now_of result ≡ strip (digit_at worth number) input.now }
{
    if worth > 1 && number < worth {
        return Some(input);
    }
    strip_byte(hexadecimal_digit(number / worth % 16), input)
}

fn hexadecimal_digit(digit: u32) -> u8
    requires { digit < 16 }
    ensures { result ≡ digit_char digit }
{
    if digit < 10 {
        b'0' + digit as u8
    } else {
        b'a' + (digit - 10) as u8
    }
}
