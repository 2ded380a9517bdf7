//! The values of a text: where the next one begins.
ghost use Rattle.std.specs.Prelude.{◌≡◌, ◌<◌, ◌≤◌, ◌+◌, ◌-◌, ◌&&◌, ℕ, MatchOption, drop, length, slice_index_or, None, Some, IsNone, IfSome, true};
ghost use Rattle.ufmt.specs.Leaves.{is_name_byte, is_opening};
ghost use Rattle.ufmt_values.specs.Values.{before_bracket, brace_start, is_after_name, is_in_struct, is_named, run_start, tuple_start, value_from, value_start};
ghost use Rattle.ufmt_values.specs.FoundValues.{IsValue, IsValueAt};
ghost use Rattle.ufmt_values.specs.Unclosed.{HasNoMore, IsUnclosed, is_closing};
ghost use Rattle.ufmt_values.specs.Private.WithoutEntries.{closing_of, is_without_entries};

use crate::search::{Closing, Opening, len_before_first, len_through_last};
use ufmt::class::Class;
use ufmt::layout::Mode;
use ufmt_grammar::internal::ByteClass;
use ufmt_scan::convert::other_mode;
use ufmt_scan::internal::begins_with;
use ufmt_scan::{FrontText, begins_with_field, front_text};

/// Returns a place at or after which no value begins, given that none begins at or after `end`. After a try that failed it is where
/// the last closing bracket ends, which is searched for once.
pub fn values_end(text: &[u8], end: usize, has_failed: bool) -> usize
    requires { (place : ℕ) → end ≤ place → HasNoMore text.now place }
    ensures { (place : ℕ) → result ≤ place → HasNoMore text.now place }
{
    if has_failed && end == text.len() {
        closed_len(text)
    } else {
        end
    }
}

// How many bytes there are up to the last closing bracket, and with it.
fn closed_len(text: &[u8]) -> usize
    ensures { IsUnclosed (drop result text.now) }
{
    len_through_last::<Closing>(text)
}

/// Returns the first opening bracket at or after `at`, or `None` if no value begins there. None begins at or after `end`.
pub fn next_bracket(text: &[u8], end: usize, at: usize) -> Option<usize>
    requires end { (place : ℕ) → end ≤ place → HasNoMore text.now place }
    requires within { at ≤ length text.now }
    ensures { MatchOption result (HasNoMore text.now at)
        (λ bracket. (bracket ≡ at + before_bracket (drop at text.now))
        × (bracket < length text.now) × (at ≤ bracket)) }
{
    if end <= at {
        return None;
    }
    let bracket = at + before_bracket(&text[at..]);
    if bracket < text.len() {
        Some(bracket)
    } else {
        None
    }
}

/// How many bytes come before the first opening bracket, or in all.
pub fn before_bracket(text: &[u8]) -> usize
    ensures len { result ≡ before_bracket text.now }
    ensures within { result ≤ length text.now }
{
    len_before_first::<Opening>(text)
}

/// Returns where a value with this bracket would begin: at the bracket, or at a name before it that
/// begins at `low` or after it.
pub fn value_start(to: Mode, text: &[u8], low: usize, bracket: usize) -> usize
    requires low { low ≤ bracket }
    requires within { bracket < length text.now }
    ensures start { result ≡ value_start to text.now low bracket }
    ensures low { low ≤ result }
    ensures before { result ≤ bracket }
{
    match text[bracket] {
        b'{' => brace_start(to, text, low, bracket),
        b'(' => tuple_start(text, low, bracket),
        _ => bracket,
    }
}

// Where a struct, a map or a set with this brace begins.
fn brace_start(to: Mode, text: &[u8], low: usize, bracket: usize) -> usize
    requires low { low ≤ bracket }
    requires within { bracket < length text.now }
    ensures start { result ≡ brace_start to text.now low bracket }
    ensures low { low ≤ result }
    ensures before { result ≤ bracket }
{
    if is_after_name(text, low, bracket) && is_in_struct(to, &text[bracket + 1..]) {
        run_start(text, low, bracket - 1)
    } else {
        bracket
    }
}

// Where a tuple with this bracket begins.
fn tuple_start(text: &[u8], low: usize, bracket: usize) -> usize
    requires low { low ≤ bracket }
    requires within { bracket < length text.now }
    ensures start { result ≡ tuple_start text.now low bracket }
    ensures low { low ≤ result }
    ensures before { result ≤ bracket }
{
    let start = run_start(text, low, bracket);
    if is_named(text, start, bracket) {
        start
    } else {
        bracket
    }
}

/// Whether a name and a space come before this bracket.
pub fn is_after_name(text: &[u8], low: usize, bracket: usize) -> bool
    requires low { low ≤ bracket }
    requires within { bracket < length text.now }
    ensures is { result ≡ is_after_name text.now low bracket }
    ensures some { result ≡ true → low < bracket }
{
    if low == bracket || text[bracket - 1] != b' ' {
        return false;
    }
    let start = run_start(text, low, bracket - 1);
    is_named(text, start, bracket - 1)
}

// Whether these bytes after a brace are those of a struct in this mode.
fn is_in_struct(to: Mode, after: &[u8]) -> bool
    ensures { result ≡ is_in_struct to after.now }
{
    match to {
        Mode::Pretty => begins_with(b' ', after),
        Mode::Plain => match after.strip_prefix(b"\n    ") {
            Some(line) => begins_with_field(Class::Debug, line),
            None => false,
        },
    }
}

/// Returns where the longest run of name bytes begins that ends at `end`.
pub fn run_start(text: &[u8], low: usize, end: usize) -> usize
    requires low { low ≤ end }
    requires within { end ≤ length text.now }
    ensures start { result ≡ run_start text.now low end }
    ensures low { low ≤ result }
    ensures before { result ≤ end }
{
    let mut start = end;
    'bytes: while start > low {
        if !is_name_byte(text[start - 1]) {
            return start;
        }
        start -= 1;
    }
    start
}

// Whether a run of bytes of a name is a name.
fn is_named(text: &[u8], start: usize, end: usize) -> bool
    requires { end ≤ length text.now }
    ensures { result ≡ is_named text.now start end }
{
    start < end && text[end - 1] != b':'
}

/// Returns where the value with this bracket begins, and the value, or `None` if there is none.
pub fn value_at(to: Mode, text: &[u8], low: usize, bracket: usize) -> Option<(usize, FrontText)>
    requires low { low ≤ bracket }
    requires within { bracket < length text.now }
    requires opens { is_opening (slice_index_or text.now bracket 0) ≡ true }
    ensures { IsValueAt to text.now low bracket result }
{
    if is_without_entries(to, text[bracket], &text[bracket + 1..]) {
        return None;
    }
    let start = value_start(to, text, low, bracket);
    let value = value_from(to, &text[start..])?;
    Some((start, value))
}

// Whether no block with entries has this bracket, by the bytes after it. So a leaf with calls, as
// `f()g()`, isn't read from each of them on.
fn is_without_entries(to: Mode, bracket: u8, after: &[u8]) -> bool
    ensures { result ≡ is_without_entries to bracket after.now }
{
    match to {
        Mode::Pretty => begins_with(closing_of(bracket), after),
        Mode::Plain => !begins_with(b'\n', after),
    }
}

// The bracket that closes this one.
fn closing_of(bracket: u8) -> u8
    ensures { result ≡ closing_of bracket }
{
    match bracket {
        b'(' => b')',
        b'[' => b']',
        _ => b'}',
    }
}

/// Returns the value at the front, if a block with entries is there in the mode other than `to`.
pub fn value_from(to: Mode, text: &[u8]) -> Option<FrontText>
    ensures { IsValue to text.now result }
{
    let front = front_text(Class::Debug, other_mode(to), text)?;
    if front.has_entries { Some(front) } else { None }
}

#[inline(always)]
pub fn is_opening(byte: u8) -> bool
    ensures { result ≡ is_opening byte }
{
    byte == b'(' || byte == b'[' || byte == b'{'
}

#[inline(always)]
pub fn is_closing(byte: u8) -> bool
    ensures { result ≡ is_closing byte }
{
    byte == b')' || byte == b']' || byte == b'}'
}

#[inline(always)]
pub fn is_name_byte(byte: u8) -> bool
    ensures { result ≡ is_name_byte byte }
{
    ByteClass::Name.contains(byte)
}
