//! Characters as they are written between quotes, and in apostrophes.
ghost use Rattle.std.specs.Prelude.{◌≡◌, ◌≢◌, ◌++◌, ℕ, List, MatchOption, encode_utf8};
ghost use Rattle.std.specs.Char.{IsScalar};
ghost use Rattle.ufmt_core.specs.Quoted.{IsQuote, escaped, quoted_char};

use ufmt_scan::internal::{character_len, split_escaped, strip_byte};

// The character that the bytes are, if they are one in UTF-8.
fn only_character(bytes: &[u8]) -> Option<char>
    ensures { MatchOption result ((c : ℕ) → IsScalar c → bytes.now ≢ encode_utf8 c)
        (λ c. IsScalar c × (bytes.now ≡ encode_utf8 c)) }
{
    match str::from_utf8(bytes) {
        Err(_) => None,
        Ok(text) => match text.chars().next() {
            None => None,
            Some(character) => {
                if character.len_utf8() == bytes.len() {
                    Some(character)
                } else {
                    None
                }
            }
        },
    }
}

// The character at the front in UTF-8, and what follows it.
fn split_utf8(input: &[u8]) -> Option<(char, &[u8])>
    ensures { MatchOption result ((c : ℕ) (rest : List ℕ) → IsScalar c → input.now ≢ encode_utf8 c ++ rest)
        (λ x. IsScalar x.0 × (input.now ≡ encode_utf8 x.0 ++ x.1.now)) }
{
    let lead = *input.first()?;
    let (front, after) = input.split_at_checked(character_len(lead))?;
    match only_character(front) {
        Some(character) => Some((character, after)),
        None => None,
    }
}

/// The character at the front, as it is written between two of these quotes, and what follows it. `quote` is a
/// quotation mark or apostrophe.
pub fn split_character(quote: u8, input: &[u8]) -> Option<(char, &[u8])>
    requires { IsQuote quote }
    ensures { MatchOption result ((c : ℕ) (rest : List ℕ) → IsScalar c → input.now ≢ escaped quote c ++ rest)
        (λ x. IsScalar x.0 × (input.now ≡ escaped quote x.0 ++ x.1.now)) }
{
    match split_escaped(quote, input) {
        None => None,
        Some((byte, after)) => {
            if byte < 128 {
                Some((char::from(byte), after))
            } else {
                split_utf8(input)
            }
        }
    }
}

/// The character at the front with its apostrophes, and what follows it.
pub fn split_quoted_char(input: &[u8]) -> Option<(char, &[u8])>
    ensures { MatchOption result ((c : ℕ) (rest : List ℕ) → IsScalar c → input.now ≢ quoted_char c ++ rest)
        (λ x. IsScalar x.0 × (input.now ≡ quoted_char x.0 ++ x.1.now)) }
{
    let inside = strip_byte(b'\'', input)?;
    match split_character(b'\'', inside) {
        None => None,
        Some(front) => match strip_byte(b'\'', front.1) {
            None => None,
            Some(after) => Some((front.0, after)),
        },
    }
}
