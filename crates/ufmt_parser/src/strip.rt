//! What is around the entries of a block, stripped from the front of a text.
ghost use Rattle.std.specs.Prelude.{◌≡◌, None, MatchOption};
ghost use Rattle.ufmt_core.specs.Layout.{ending, frame, lead};
ghost use Rattle.ufmt_grammar.specs.Reading.{strip};
ghost use Rattle.ufmt_parser.specs.Taking.{setting_in};
ghost use Rattle.ufmt_scan.specs.Rest.{now_of};

use ufmt_core::layout::{Count, Kind, Mode};
use ufmt_scan::internal::{
    setting_in, strip_byte, strip_closing, strip_eight, strip_first_lead, strip_four,
    strip_to_line, strip_two,
};

/// What follows a piece, which may be empty.
//
// A piece is a constant here, mostly a name, so what is left are a test of the length and a test of each
// word. In the scanner's loops, where some pieces are known at run time, it would be too much code.
#[inline(always)]
pub(crate) fn strip_piece<'a>(piece: &str, input: &'a [u8]) -> Option<&'a [u8]>
    ensures { now_of result ≡ strip piece.now input.now }
{
    let piece = piece.as_bytes();
    if input.len() < piece.len() {
        return None;
    }
    let (piece, input) = skip_eight(piece, input)?;
    let (piece, input) = skip_eight(piece, input)?;
    let (piece, input) = skip_eight(piece, input)?;
    let (piece, input) = skip_four(piece, input)?;
    let (piece, input) = skip_two(piece, input)?;
    strip_few(piece, input)
}

// Skips eight bytes of both, if the piece is so long and the input has them.
#[inline(always)]
fn skip_eight<'p, 'a>(piece: &'p [u8], input: &'a [u8]) -> Option<(&'p [u8], &'a [u8])>
    ensures { MatchOption result (strip piece.now input.now ≡ None)
        (λ x. strip x.0.now x.1.now ≡ strip piece.now input.now) }
{
    let Some((word, piece_left)) = piece.split_first_chunk::<8>() else {
        return Some((piece, input));
    };
    Some((piece_left, strip_eight(*word, input)?))
}

// The same with four bytes.
#[inline(always)]
fn skip_four<'p, 'a>(piece: &'p [u8], input: &'a [u8]) -> Option<(&'p [u8], &'a [u8])>
    ensures { MatchOption result (strip piece.now input.now ≡ None)
        (λ x. strip x.0.now x.1.now ≡ strip piece.now input.now) }
{
    let Some((word, piece_left)) = piece.split_first_chunk::<4>() else {
        return Some((piece, input));
    };
    Some((piece_left, strip_four(*word, input)?))
}

// The same with two bytes.
#[inline(always)]
fn skip_two<'p, 'a>(piece: &'p [u8], input: &'a [u8]) -> Option<(&'p [u8], &'a [u8])>
    ensures { MatchOption result (strip piece.now input.now ≡ None)
        (λ x. strip x.0.now x.1.now ≡ strip piece.now input.now) }
{
    let Some((word, piece_left)) = piece.split_first_chunk::<2>() else {
        return Some((piece, input));
    };
    Some((piece_left, strip_two(*word, input)?))
}

// What follows a piece of any length. A long name has more than one byte left.
#[inline(always)]
fn strip_few<'a>(piece: &[u8], input: &'a [u8]) -> Option<&'a [u8]>
    ensures { now_of result ≡ strip piece.now input.now }
{
    match piece {
        [] => Some(input),
        [byte] => strip_byte(*byte, input),
        _ => input.strip_prefix(piece),
    }
}

/// What follows the lead of an entry, in so many blocks.
#[inline(always)]
pub(crate) fn strip_lead(
    mode: Mode,
    open_blocks: u8,
    kind: Kind,
    count: Count,
    input: &[u8],
) -> Option<&[u8]>
    ensures { now_of result ≡ strip (lead (frame mode kind) (setting_in mode open_blocks) count) input.now }
{
    let entry = setting_in(mode, open_blocks);
    match count {
        Count::Zero => strip_first_lead(kind, entry, input),
        Count::One | Count::Several => strip_to_line(mode.later_lead(), entry, input),
    }
}

/// What follows the end of a block, in so many others.
#[inline(always)]
#[tactic(auto, using(ufmt_scan::proofs::Strips::stripping))]
pub(crate) fn strip_ending(
    mode: Mode,
    open_blocks: u8,
    kind: Kind,
    count: Count,
    input: &[u8],
) -> Option<&[u8]>
    ensures { now_of result ≡ strip (ending (frame mode kind) (setting_in mode open_blocks) count) input.now }
{
    // Both bytes are compared as one word.
    if let (Mode::Plain, Kind::Struct, Count::One | Count::Several) = (mode, kind, count) {
        return strip_two(*b" }", input);
    }
    let line = match count {
        Count::Zero => input,
        Count::One | Count::Several => { strip_to_line("", setting_in(mode, open_blocks), input)? }
    };
    strip_closing(mode, kind, count, line)
}
