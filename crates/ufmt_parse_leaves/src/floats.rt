//! Floats, exactly as `{:?}` prints them.
ghost use Rattle.std.specs.Prelude.{◌≡◌, ◌≤◌, ◌≢◌, ◌^◌, length, List, ℕ, T, true, false, drop, take, IfOk, IfErr, IfSome, IsErrOf, IsTrue, MatchOption, None, Some, IsAscii};
ghost use Rattle.std.specs.Float.Parse.{parse_float};
ghost use Rattle.core.specs.Float.{float_with_sign};
ghost use lib.Ieee.{binary32, binary64, fits, neg, round};
ghost use Rattle.ufmt_core.specs.Document.{leaf};
ghost use Rattle.ufmt_core.specs.FloatText.{float_text};
ghost use Rattle.ufmt_float.specs.Shortest.{IsAboveZero};
ghost use Rattle.ufmt_parser.specs.Needs.{need};
ghost use Rattle.ufmt_parser.specs.Next.{IsNotNext, NextLeaves};
ghost use Rattle.ufmt_parser.specs.Taking.{IsTaken, open_blocks, rest};
ghost use Rattle.ufmt_parse_leaves.specs.Values.{IsFloatOf};
ghost use Rattle.ufmt_parse_leaves.specs.Private.FloatBytes.{after_float, float_len, is_float_byte};

use crate::plain_floats::split_plain;
use core::dec2flt::from_decimal;
use ufmt_core::internal::text_from;
use ufmt_float::DebugText;
use ufmt_parser::mode::ParseMode;
use ufmt_parser::need::Need;
use ufmt_parser::parser::{Fault, Parser};

/// A float type that std reads.
pub trait Float: ufmt_float::Float {
    /// Returns the float that the text is read as, if it is one.
    fn read(text: &str) -> Option<Self>
    where
        Self: Sized,
        ensures { MatchOption result (parse_float Self.format text.now ≡ None)
            (λ x. parse_float Self.format text.now ≡ Some (Self.value x)) };

    /// Returns the float nearest to `digits / 10 ^ places`, if it is above 0 and finite.
    fn nearest(digits: u64, places: u64) -> Option<Self>
    where
        Self: Sized,
        ensures { IfSome result (λ x. IsAboveZero (Self.value x) × (float_with_sign false (Self.value x) ≡ Self.value x)
            × (Self.value x ≡ round Self.format false digits (10 ^ places))) };

    /// Returns the float with the other sign.
    fn negated(self) -> Self
        ensures { Self.value result ≡ neg (Self.value self) };

    /// Shows that a float is one of its format.
    fn prove_float(self)
        ensures { T (fits Self.format (Self.value self)) };
}

impl Float for f32 {
    #[inline(always)]
    fn read(text: &str) -> Option<f32> {
        text.parse().ok()
    }

    #[inline(always)]
    fn nearest(digits: u64, places: u64) -> Option<f32> {
        let size: f32 = from_decimal(digits, 0, places);
        if 0.0 < size && size < f32::INFINITY {
            Some(size)
        } else {
            None
        }
    }

    #[inline(always)]
    fn negated(self) -> f32 {
        -self
    }

    #[inline(always)]
    fn prove_float(self) {}
}

impl Float for f64 {
    #[inline(always)]
    fn read(text: &str) -> Option<f64> {
        text.parse().ok()
    }

    #[inline(always)]
    fn nearest(digits: u64, places: u64) -> Option<f64> {
        let size: f64 = from_decimal(digits, 0, places);
        if 0.0 < size && size < f64::INFINITY {
            Some(size)
        } else {
            None
        }
    }

    #[inline(always)]
    fn negated(self) -> f64 {
        -self
    }

    #[inline(always)]
    fn prove_float(self) {}
}

// Whether the byte may be in the text of a float.
#[inline(always)]
pub(crate) fn is_float_byte(byte: u8) -> bool
    ensures { result ≡ is_float_byte byte }
{
    byte.is_ascii_digit() || matches!(byte, b'-' | b'.' | b'e' | b'N' | b'a' | b'i' | b'n' | b'f')
}

// The bytes at the front that may be in the text of a float, and what follows them.
fn split_front(input: &[u8]) -> (&[u8], &[u8])
    ensures front { result.0.now ≡ take (float_len input.now) input.now }
    ensures after { result.1.now ≡ after_float input.now }
{
    let mut len = 0;
    let mut rest = input;
    'bytes: while let Some((&byte, after)) = rest.split_first() {
        if !is_float_byte(byte) {
            break;
        }
        len += 1;
        rest = after;
    }
    (&input[..len], rest)
}

// Returns the float that prints as this text, if one does.
fn read_exactly<F: Float>(text: &str) -> Option<F>
    ensures { MatchOption result ((x : F) → IsFloatOf F.format (F.value x) → text.now ≢ float_text F.format true (F.value x))
        (λ x. IsFloatOf F.format (F.value x) × (text.now ≡ float_text F.format true (F.value x))) }
{
    match F::read(text) {
        None => None,
        Some(x) => {
            x.prove_float();
            if DebugText::of(x).as_bytes() == text.as_bytes() {
                Some(x)
            } else {
                None
            }
        }
    }
}

// The float whose text the bytes at the front are, and what follows them.
fn split_float<F: Float>(input: &[u8]) -> Option<(F, &[u8])>
    ensures { MatchOption result ((x : F) → IsFloatOf F.format (F.value x) → take (float_len input.now) input.now ≢ float_text F.format true (F.value x))
        (λ x. IsFloatOf F.format (F.value x.0)
        × (take (float_len input.now) input.now ≡ float_text F.format true (F.value x.0)) × (after_float input.now ≡ x.1.now)) }
{
    if let Some(plain) = split_plain::<F>(input) {
        return Some(plain);
    }
    let (front, after) = split_front(input);
    match read_exactly::<F>(text_from(front, 0)) {
        Some(value) => Some((value, after)),
        None => None,
    }
}

/// The float at the front. Only the text that `{:?}` prints of it is taken.
pub fn parse_float<F: Float, M: ParseMode>(parser: &mut Parser<'_, M>) -> Result<F, Fault>
    ensures taken { IfOk result (λ v. IsTaken M.mode parser.old (leaf (float_text F.format true (F.value v))) parser.new) }
    ensures only { IfOk result (λ _. (v : F) → IsFloatOf F.format (F.value v)
        → NextLeaves M.mode parser.old (leaf (float_text F.format true (F.value v))) parser.new) }
    ensures none { IfErr result (λ fault. fault ≡ Fault.NotText → (v : F) → IsFloatOf F.format (F.value v)
        → IsNotNext M.mode parser.old (leaf (float_text F.format true (F.value v)))) }
    ensures stays { IsErrOf result Fault.NotText
        → (rest parser.new ≡ rest parser.old) × (need parser.new ≡ Need.Number) }
    ensures memory { IfErr result (λ fault. fault ≡ Fault.NotText) }
    ensures blocks { IfOk result (λ _. open_blocks parser.new ≡ open_blocks parser.old) }
    ensures shrinks { length (rest parser.new) ≤ length (rest parser.old) }
{
    match split_float::<F>(parser.rest()) {
        Some(taken) => {
            parser.skip_to(taken.1);
            Ok(taken.0)
        }
        None => Err(parser.refuse(Need::Number)),
    }
}
