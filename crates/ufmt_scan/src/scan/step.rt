//! Which event comes next in a text.
ghost use Rattle.std.specs.Prelude.{◌≡◌, ◌≢◌, ◌<◌, ◌≤◌, ◌++◌, ◌∷◌, [], IfOk, length, suc, ℕ};
ghost use Rattle.ufmt_core.specs.Layout.{entry_depth, line_start, next, later_lead};
ghost use Rattle.ufmt_grammar.specs.Reading.{parse_map, read, read_without_name};
ghost use Rattle.ufmt_scan.specs.Private.Fronts.{IsSplit};
ghost use Rattle.ufmt_scan.specs.Private.Level.{budget_of, entry_of, setting_at, Level};
ghost use Rattle.ufmt_scan.specs.Private.Scanning.{Scanned, ScansOn, Steps, StripsBracket, after, prefixed, scan_block, scan_front, scan_further, earlier, entries, fields, first_stage, kind_of, later, scan_rest, scan_stage, turn_of, scan_turn, value_of, Stage};
ghost use Rattle.ufmt_scan.specs.Rest.{now_of};
ghost use Rattle.ufmt_scan.specs.Scan.{event_now, events_of};

use super::event::{Event, ScanError, Sink};
use crate::front::{Front, split_front, split_name, split_quoted_front, split_word_front};
use crate::leaf::split_quotes;
use crate::level::{Level, strip_only_dots};
use crate::strip::{strip_closing, strip_piece, strip_to_line};
use ufmt_core::layout::{COLON, Count, INDENT, Kind, Mode, OPENING_BRACE, OPENING_BRACKET};
use ufmt_grammar::class::Class;

/// What comes next in an open block, by what was read of it, and what may follow then:
///
/// | Stage | Read so far | Comes next | May follow |
/// |---|---|---|---|
/// | `BracesFirst` | `{` | the first entry of a set, or key of a map | `:`, `,` or `}` |
/// | `KeyLater` | `{`, pairs, `,` | a key | `:` |
/// | `ListFirst` | `[` | the first entry | `,` or `]` |
/// | `ListLater` | `[`, entries, `,` | an entry | `,` or `]` |
/// | `SetLater` | `{`, entries, `,` | an entry | `,` or `}` |
/// | `ValueFirst` | `{`, a key, `:` | the first value | `,` or `}` |
/// | `ValueLater` | `{`, pairs, `,`, a key, `:` | a value | `,` or `}` |
/// | `TupleFirst` | a name, `(` | the first field | `,` or `)` |
/// | `TupleLater` | a name, `(`, fields, `,` | a field | `,` or `)` |
/// | `UnnamedFirst` | `(` | the first field | `,`, also before `)` |
/// | `UnnamedLater` | `(`, fields, `,` | a field | `,` or `)` |
/// | `FieldFirst` | a name, `{` | the first field's name, `:` and its value | `,` or `}` |
/// | `FieldLater` | a name, `{`, fields, `,` | a field's name, `:` and its value | `,` or `}` |
///
/// In pretty mode a comma comes before each closing bracket. In a struct of a debug document, dots and
/// `}` may follow a comma: they are in place of its last fields.
#[derive(Clone, Copy)]
pub(super) enum Stage {
    // A colon may follow the first two, and a field's name comes at the last two. Each two are
    // adjacent, so that one comparison finds them.
    BracesFirst,
    KeyLater,
    ListFirst,
    ListLater,
    SetLater,
    ValueFirst,
    ValueLater,
    TupleFirst,
    TupleLater,
    UnnamedFirst,
    UnnamedLater,
    FieldFirst,
    FieldLater,
}

// For each stage: the kind of its block, how many entries came before, and the next entry's stage.
// `BracesFirst` is here as for a set.
static STAGES: [(Kind, Count, Stage); 13] = [
    (Kind::Braces, Count::Zero, Stage::SetLater),
    (Kind::Braces, Count::Several, Stage::KeyLater),
    (Kind::Brackets, Count::Zero, Stage::ListLater),
    (Kind::Brackets, Count::Several, Stage::ListLater),
    (Kind::Braces, Count::Several, Stage::SetLater),
    (Kind::Braces, Count::Zero, Stage::KeyLater),
    (Kind::Braces, Count::Several, Stage::KeyLater),
    (Kind::Tuple, Count::Zero, Stage::TupleLater),
    (Kind::Tuple, Count::Several, Stage::TupleLater),
    (Kind::Unnamed, Count::Zero, Stage::UnnamedLater),
    (Kind::Unnamed, Count::Several, Stage::UnnamedLater),
    (Kind::Struct, Count::Zero, Stage::FieldLater),
    (Kind::Struct, Count::Several, Stage::FieldLater),
];

impl Stage {
    /// The first entry of a block of this kind.
    #[inline(always)]
    pub(super) fn first(kind: Kind) -> Stage
        ensures { result ≡ first_stage kind }
    {
        match kind {
            Kind::Brackets => Stage::ListFirst,
            Kind::Braces => Stage::BracesFirst,
            Kind::Struct => Stage::FieldFirst,
            Kind::Tuple => Stage::TupleFirst,
            Kind::Unnamed => Stage::UnnamedFirst,
        }
    }

    /// The kind of the block, and how many entries it has with this one.
    #[inline(always)]
    pub(super) fn kind_and_count(self) -> (Kind, Count)
        ensures kind { result.0 ≡ kind_of self }
        ensures count { result.1 ≡ next (earlier self) }
    {
        let (kind, earlier, _) = STAGES[self as usize];
        (kind, earlier.next())
    }

    /// The value of this key.
    #[inline(always)]
    pub(super) fn value(self) -> Stage
        ensures { result ≡ value_of self }
    {
        match self {
            Stage::BracesFirst => Stage::ValueFirst,
            _ => Stage::ValueLater,
        }
    }

    /// The entry after this one.
    #[inline(always)]
    pub(super) fn later(self) -> Stage
        ensures { result ≡ later self }
    {
        STAGES[self as usize].2
    }
}

// `K` names a copy of a function, here and below. What follows a word and what follows another front are two
// copies. So each copy is called in one place only, and is part of its scan's loop.
struct WordFront;

struct OtherFront;

// What comes next in a block that opens or continues, if one does, and the rest of the text.
type Step<'a> = (Option<Stage>, &'a [u8]);

#[inline(always)]
fn emit<S: Sink>(event: Event<&str>, sink: &mut S) -> Result<(), ScanError<S::Error>>
    ensures { (there left : Scanned) → there ≡ prefixed (event_now event.entry ∷ []) left
        → ScansOn S.took S.stopped result sink.old sink.new there (λ _. left) }
{
    match sink.event(event) {
        Ok(()) => Ok(()),
        Err(e) => Err(ScanError::Sink(e)),
    }
}

/// Emits a field's name and the colon after it. Returns what follows.
#[inline(always)]
pub(super) fn field_name<'a, S: Sink, K>(
    class: Class,
    input: &'a [u8],
    sink: &mut S,
) -> Result<&'a [u8], ScanError<S::Error>>
    ensures emitted { (level : Level) → level.class ≡ class
        → ScansOn S.took S.stopped result sink.old sink.new (scan_turn (fields level) input.now)
        (λ rest. scan_turn (entries level) rest.now) }
    ensures within { IfOk result (λ rest. length rest.now ≤ length input.now) }
{
    let Some((name, rest)) = split_name(class, input) else {
        return Err(ScanError::NotText);
    };
    let Some(rest) = strip_piece(COLON, rest) else {
        return Err(ScanError::NotText);
    };
    emit(Event::FieldName(name), sink)?;
    Ok(rest)
}

/// Emits a leaf, an empty block, or the name and the opening of a block.
#[inline(always)]
pub(super) fn begin<'a, S: Sink, K>(
    level: Level,
    input: &'a [u8],
    sink: &mut S,
) -> Result<Step<'a>, ScanError<S::Error>>
    ensures { Steps S.took S.stopped result sink.old sink.new (length input.now)
        (parse_map events_of (read level.class (setting_at level) (budget_of level) input.now))
        (after level) }
{
    if let Some(front) = split_word_front(level.class, input) {
        return begin_split::<S, (K, WordFront)>(level, input, front, sink);
    }
    if let Some(front) = split_quoted_front(level.class, input) {
        emit(Event::Leaf(front.text), sink)?;
        return Ok((None, front.rest));
    }
    begin_other::<S, K>(level, input, sink)
}

// The same, whichever leaf is at the front. A call returns the front in memory. So the front is a
// variable here: one of `begin` would be cleared for each text.
#[inline(always)]
fn begin_other<'a, S: Sink, K>(
    level: Level,
    input: &'a [u8],
    sink: &mut S,
) -> Result<Step<'a>, ScanError<S::Error>>
    ensures { Steps S.took S.stopped result sink.old sink.new (length input.now)
        (parse_map events_of (read level.class (setting_at level) (budget_of level) input.now))
        (after level) }
{
    match split_front(level.class, input) {
        Some(front) => begin_split::<S, (K, OtherFront)>(level, input, front, sink),
        None => Err(ScanError::NotText),
    }
}

// The same for a text whose front was split off. The front may be empty.
#[inline(always)]
fn begin_split<'a, S: Sink, K>(
    level: Level,
    input: &'a [u8],
    front: Front<'a>,
    sink: &mut S,
) -> Result<Step<'a>, ScanError<S::Error>>
    requires { IsSplit level.class input.now front }
    ensures { Steps S.took S.stopped result sink.old sink.new (length input.now)
        (parse_map events_of (read level.class (setting_at level) (budget_of level) input.now))
        (after level) }
{
    if front.text.is_empty() {
        begin_without_name::<S, K>(level, input, sink)
    } else {
        begin_front::<S, K>(level, front, sink)
    }
}

// The same for a text that begins with a leaf, which may be the name of a block.
#[inline(always)]
fn begin_front<'a, S: Sink, K>(
    level: Level,
    front: Front<'a>,
    sink: &mut S,
) -> Result<Step<'a>, ScanError<S::Error>>
    requires { front.text.now ≢ [] }
    ensures { Steps S.took S.stopped result sink.old sink.new (suc (length front.entry.rest.now))
        (scan_front level front.entry.is_name front.entry.text.now front.entry.rest.now)
        (after level) }
{
    if front.is_name {
        if let Some(rest) = level.strip_lead(Kind::Tuple, front.rest) {
            emit(Event::Open(Kind::Tuple, front.text), sink)?;
            return Ok((Some(Stage::TupleFirst), rest));
        }
        if let Some(rest) = strip_only_dots(level.class, front.rest) {
            emit(Event::OnlyDots(front.text), sink)?;
            return Ok((None, rest));
        }
        if let Some(rest) = level.strip_lead(Kind::Struct, front.rest) {
            emit(Event::Open(Kind::Struct, front.text), sink)?;
            return Ok((Some(Stage::FieldFirst), rest));
        }
    }
    emit(Event::Leaf(front.text), sink)?;
    Ok((None, front.rest))
}

// The same for a text that begins with no such leaf.
#[inline(always)]
fn begin_without_name<'a, S: Sink, K>(
    level: Level,
    input: &'a [u8],
    sink: &mut S,
) -> Result<Step<'a>, ScanError<S::Error>>
    ensures { Steps S.took S.stopped result sink.old sink.new (length input.now)
        (parse_map events_of (read_without_name level.class (setting_at level) (entry_of level) input.now))
        (after level) }
{
    if let Some((kind, rest)) = strip_bracket(input) {
        begin_block::<S, K>(level, kind, rest, sink)
    } else if let Some(rest) = strip_piece("()", input) {
        emit(Event::Leaf("()"), sink)?;
        Ok((None, rest))
    } else if let Some(rest) = level.strip_lead(Kind::Unnamed, input) {
        emit(Event::Open(Kind::Unnamed, ""), sink)?;
        Ok((Some(Stage::UnnamedFirst), rest))
    } else if let Some((text, rest)) = split_quotes(level.class, input) {
        emit(Event::Leaf(text), sink)?;
        Ok((None, rest))
    } else {
        Err(ScanError::NotText)
    }
}

// The kind of a list, a set or a map by its bracket, and what follows the bracket.
#[inline(always)]
fn strip_bracket(input: &[u8]) -> Option<(Kind, &[u8])>
    ensures { (level : Level) → StripsBracket level input.now result }
{
    if let Some(rest) = strip_piece(OPENING_BRACKET, input) {
        Some((Kind::Brackets, rest))
    } else {
        Some((Kind::Braces, strip_piece(OPENING_BRACE, input)?))
    }
}

// Emits an empty list, set or map, or the opening of one, after its bracket.
#[inline(always)]
fn begin_block<'a, S: Sink, K>(
    level: Level,
    kind: Kind,
    input: &'a [u8],
    sink: &mut S,
) -> Result<Step<'a>, ScanError<S::Error>>
    ensures { Steps S.took S.stopped result sink.old sink.new (suc (length input.now))
        (scan_block level kind input.now) (after level) }
{
    if let Some(rest) = strip_closing(level.mode, kind, Count::Zero, input) {
        emit(Event::Empty(kind), sink)?;
        Ok((None, rest))
    } else if let Some(rest) = level.strip_lead(kind, input) {
        emit(Event::Open(kind, ""), sink)?;
        Ok((Some(Stage::first(kind)), rest))
    } else {
        Err(ScanError::NotText)
    }
}

/// Emits what follows the entry, key or value at this stage of a block.
#[inline(always)]
pub(super) fn after_document<'a, S: Sink, K>(
    level: Level,
    stage: Stage,
    input: &'a [u8],
    sink: &mut S,
) -> Result<Step<'a>, ScanError<S::Error>>
    requires { level.open_blocks < 255 }
    ensures { Steps S.took S.stopped result sink.old sink.new (suc (length input.now))
        (scan_stage level stage input.now) (after level) }
{
    if let Stage::BracesFirst | Stage::KeyLater = stage {
        if let Some(rest) = strip_piece(COLON, input) {
            emit(Event::Colon, sink)?;
            return Ok((Some(stage.value()), rest));
        }
        if let Stage::KeyLater = stage {
            return Err(ScanError::NotText);
        }
    }
    after_entry::<S, K>(level, stage, input, sink)
}

// Emits what follows an entry, a pair or a field.
#[inline(always)]
fn after_entry<'a, S: Sink, K>(
    level: Level,
    stage: Stage,
    input: &'a [u8],
    sink: &mut S,
) -> Result<Step<'a>, ScanError<S::Error>>
    requires { level.open_blocks < 255 }
    ensures { Steps S.took S.stopped result sink.old sink.new (suc (length input.now))
        (scan_rest (turn_of level stage) level (kind_of stage) (next (earlier stage)) input.now)
        (after level) }
{
    let rest_of_lead = between(level.mode);
    // The block's indentation comes first, whether the block ends or another entry comes.
    let Some(line) = strip_to_line(level.mode.trail(), level.setting(), input) else {
        return Err(ScanError::NotText);
    };
    if let Some(start) = strip_piece(rest_of_lead, line) {
        return next_entry::<S, K>(level, stage, start, sink);
    }
    let (kind, count) = stage.kind_and_count();
    let Some(end) = strip_closing(level.mode, kind, count, line) else {
        return Err(ScanError::NotText);
    };
    emit(Event::Close(kind, count), sink)?;
    Ok((None, end))
}

// Emits what separates two entries, and then the end of the block if it ends in dots.
#[inline(always)]
fn next_entry<'a, S: Sink, K>(
    level: Level,
    stage: Stage,
    input: &'a [u8],
    sink: &mut S,
) -> Result<Step<'a>, ScanError<S::Error>>
    ensures { Steps S.took S.stopped result sink.old sink.new (suc (length input.now))
        (scan_further level stage input.now) (after level) }
{
    emit(Event::Next, sink)?;
    if let Some(end) = strip_dots(level, stage, input) {
        emit(Event::Dots, sink)?;
        return Ok((None, end));
    }
    Ok((Some(stage.later()), input))
}

// What follows the dots and the end of a block, if the block ends in dots. Only structs of debug
// documents do.
#[inline(always)]
fn strip_dots(level: Level, stage: Stage, input: &[u8]) -> Option<&[u8]>
    ensures { now_of result ≡ (turn_of level stage).dots input.now }
{
    match (level.class, stage) {
        (Class::Debug, Stage::FieldFirst | Stage::FieldLater) => level.strip_dots(input),
        _ => None,
    }
}

// What separates two entries, after the indentation of their block.
#[inline(always)]
fn between(mode: Mode) -> &'static str
    ensures { (k : ℕ) → k < 255
        → line_start mode k ++ result.now ≡ later_lead mode (entry_depth mode k) }
{
    match mode {
        Mode::Plain => Mode::Plain.later_lead(),
        Mode::Pretty => INDENT,
    }
}
