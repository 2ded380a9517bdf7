//! What is around the entries of a block, stripped from the front of a text.
ghost use Rattle.std.specs.Prelude.{◌≡◌, ◌≢◌, ◌∷◌, ◌++◌, [], MatchBool};
ghost use Rattle.ufmt_core.specs.Layout.{frame, lead, line_start};
ghost use Rattle.ufmt_core.specs.declared.layout.Count.TheVariants.{Zero};
ghost use Rattle.ufmt_grammar.specs.Leaves.{begins_with, is_spaced};
ghost use Rattle.ufmt_grammar.specs.Reading.{strip};
ghost use Rattle.ufmt_scan.specs.Depth.{setting_in};
ghost use Rattle.ufmt_scan.specs.Rest.{now_of};

use ufmt_core::layout::{Count, Kind, Mode, Setting};

const ONE_INDENT: [u8; 4] = *b"    ";

const TWO_INDENTS: [u8; 8] = *b"        ";

/// Returns the mode and depth at which a document is laid out in so many blocks.
#[inline(always)]
pub fn setting_in(mode: Mode, open_blocks: u8) -> Setting
    ensures { result ≡ setting_in mode open_blocks }
{
    let depth = match mode {
        Mode::Plain => 0,
        Mode::Pretty => open_blocks,
    };
    Setting { mode, depth }
}

/// Returns whether the input begins with this byte.
#[inline(always)]
pub fn begins_with(byte: u8, input: &[u8]) -> bool
    ensures { result ≡ begins_with byte input.now }
{
    match input.split_first() {
        Some((&first, _)) => first == byte,
        None => false,
    }
}

/// Returns whether a space comes next, and no closing brace after it.
#[inline(always)]
pub fn is_spaced(input: &[u8]) -> bool
    ensures { result ≡ is_spaced input.now }
{
    match input.split_first() {
        Some((b' ', after)) => !begins_with(b'}', after),
        _ => false,
    }
}

/// Returns what follows this byte, if the input begins with it.
#[inline(always)]
pub fn strip_byte(byte: u8, input: &[u8]) -> Option<&[u8]>
    ensures { now_of result ≡ strip (byte ∷ []) input.now }
{
    let (first, rest) = input.split_first()?;
    if *first == byte { Some(rest) } else { None }
}

/// Returns what follows these two bytes, if the input begins with them. They are compared as one word.
#[inline(always)]
pub fn strip_two(word: [u8; 2], input: &[u8]) -> Option<&[u8]>
    ensures { now_of result ≡ strip word input.now }
{
    let (front, rest) = input.split_first_chunk::<2>()?;
    if same_two(*front, word) {
        Some(rest)
    } else {
        None
    }
}

#[inline(always)]
fn same_two(bytes: [u8; 2], others: [u8; 2]) -> bool
    ensures { MatchBool result (bytes ≡ others) (bytes ≢ others) }
{
    u16::from_le_bytes(bytes) == u16::from_le_bytes(others)
}

/// Returns what follows these four bytes, as `strip_two` does.
#[inline(always)]
pub fn strip_four(word: [u8; 4], input: &[u8]) -> Option<&[u8]>
    ensures { now_of result ≡ strip word input.now }
{
    let (front, rest) = input.split_first_chunk::<4>()?;
    if same_four(*front, word) {
        Some(rest)
    } else {
        None
    }
}

#[inline(always)]
fn same_four(bytes: [u8; 4], others: [u8; 4]) -> bool
    ensures { MatchBool result (bytes ≡ others) (bytes ≢ others) }
{
    u32::from_le_bytes(bytes) == u32::from_le_bytes(others)
}

/// Returns what follows these eight bytes, as `strip_two` does.
#[inline(always)]
pub fn strip_eight(word: [u8; 8], input: &[u8]) -> Option<&[u8]>
    ensures { now_of result ≡ strip word input.now }
{
    let (front, rest) = input.split_first_chunk::<8>()?;
    if same_eight(*front, word) {
        Some(rest)
    } else {
        None
    }
}

#[inline(always)]
fn same_eight(bytes: [u8; 8], others: [u8; 8]) -> bool
    ensures { MatchBool result (bytes ≡ others) (bytes ≢ others) }
{
    u64::from_le_bytes(bytes) == u64::from_le_bytes(others)
}

/// What follows a piece, which may be empty.
#[inline(always)]
pub(crate) fn strip_piece<'a>(piece: &str, input: &'a [u8]) -> Option<&'a [u8]>
    ensures { now_of result ≡ strip piece.now input.now }
{
    match piece.as_bytes() {
        [] => Some(input),
        [byte] => strip_byte(*byte, input),
        [first, second] => strip_two([*first, *second], input),
        longer => input.strip_prefix(longer),
    }
}

/// Returns what follows a piece and the indentation of a line, if the input begins with both.
#[inline(always)]
#[tactic(auto, using(crate::proofs::Strips::stripping))]
pub fn strip_to_line<'a>(piece: &str, line: Setting, input: &'a [u8]) -> Option<&'a [u8]>
    ensures { now_of result ≡ strip (piece.now ++ line_start line.mode line.depth) input.now }
{
    let mut rest = strip_piece(piece, input)?;
    let mut indents = line.indents();
    'pairs: while indents >= 2 {
        rest = strip_eight(TWO_INDENTS, rest)?;
        indents -= 2;
    }
    if indents == 1 {
        rest = strip_four(ONE_INDENT, rest)?;
    }
    Some(rest)
}

/// Returns what follows the lead of a block's first entry, which is laid out in this mode and depth.
#[inline(always)]
#[tactic(auto, using(crate::proofs::Strips::stripping))]
pub fn strip_first_lead(kind: Kind, entry: Setting, input: &[u8]) -> Option<&[u8]>
    ensures { now_of result ≡ strip (lead (frame entry.mode kind) entry Zero) input.now }
{
    let (bracket, space) = kind.start(entry.mode);
    let start = strip_piece(space, strip_piece(bracket, input)?)?;
    strip_to_line(entry.mode.line_feed(), entry, start)
}

// The bracket that ends a block of each kind.
static CLOSING_BRACKETS: [u8; 5] = *b"]}}))";

/// Returns what follows the closing bracket of a block with this many entries, and a space or comma
/// before the bracket.
#[inline(always)]
pub fn strip_closing(mode: Mode, kind: Kind, count: Count, input: &[u8]) -> Option<&[u8]>
    ensures { now_of result ≡ strip ((frame mode kind).closing count) input.now }
{
    let bracket = match (mode, kind, count) {
        (_, Kind::Struct | Kind::Tuple | Kind::Unnamed, Count::Zero) => return Some(input),
        (Mode::Plain, Kind::Struct, _) => strip_byte(b' ', input)?,
        (Mode::Plain, Kind::Unnamed, Count::One) => strip_byte(b',', input)?,
        _ => input,
    };
    strip_byte(CLOSING_BRACKETS[kind as usize], bracket)
}
