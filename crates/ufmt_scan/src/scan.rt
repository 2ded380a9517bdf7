//! Scans a text in either mode, and emits its events to a sink.
ghost use Rattle.std.specs.Prelude.{◌≡◌, ◌<◌, ◌≤◌, [], IfOk, List, Some, length};
ghost use Rattle.ufmt_core.specs.Layout.{layout, setting};
ghost use Rattle.ufmt_grammar.specs.Reading.{parse_map, read};
ghost use Rattle.ufmt_scan.specs.Private.Scanning.{ScansOn, kind_of, scan_next, scan_ends, scan_begun, scan_left, open_stages, Stage};
ghost use Rattle.ufmt_scan.specs.Private.FrontScan.{ScansFront};
ghost use Rattle.ufmt_scan.specs.Scan.{Scans, events_of};

mod event;
mod step;

use crate::level::Level;
use crate::markers::{ClassType, DebugClass, TokenClass};
use crate::mode::{ParseMode, PlainText, PrettyText};
pub use event::{Event, ScanError, Sink};
use step::{Stage, after_document, begin, field_name};
use ufmt_core::layout::{Kind, Mode};
use ufmt_grammar::class::Class;

// Promise (reading): `scan` passes a lawful sink the events of the document that the text prints, or a prefix
// of them.
/// Emits the events of the document of this class that has this text, in the text's order. Fails
/// with `NotText` only if no document of the class has this text; any other error is the sink's. The
/// sink may have taken events then.
pub fn scan<S: Sink>(
    class: Class,
    mode: Mode,
    input: &[u8],
    sink: &mut S,
) -> Result<(), ScanError<S::Error>>
    ensures { Scans S.took S.stopped class result sink.old sink.new (layout (setting mode 0))
        input.now }
{
    match (class, mode) {
        (Class::Token, Mode::Plain) => scan_in::<S, TokenClass, PlainText>(input, sink),
        (Class::Token, Mode::Pretty) => scan_in::<S, TokenClass, PrettyText>(input, sink),
        (Class::Debug, Mode::Plain) => scan_in::<S, DebugClass, PlainText>(input, sink),
        (Class::Debug, Mode::Pretty) => scan_in::<S, DebugClass, PrettyText>(input, sink),
    }
}

/// Emits the events of the document at the front of the input, as `scan` does of a whole text, and
/// returns how long the document's text is.
#[inline(always)]
pub(crate) fn scan_front<S: Sink>(
    class: Class,
    mode: Mode,
    input: &[u8],
    sink: &mut S,
) -> Result<usize, ScanError<S::Error>>
    ensures { ScansFront S.took S.stopped class mode input.now sink.old result sink.new }
{
    match (class, mode) {
        (Class::Token, Mode::Plain) => scan_front_in::<S, TokenClass, PlainText>(input, sink),
        (Class::Token, Mode::Pretty) => scan_front_in::<S, TokenClass, PrettyText>(input, sink),
        (Class::Debug, Mode::Plain) => scan_front_in::<S, DebugClass, PlainText>(input, sink),
        (Class::Debug, Mode::Pretty) => scan_front_in::<S, DebugClass, PrettyText>(input, sink),
    }
}

fn scan_front_in<S: Sink, C: ClassType, M: ParseMode>(
    input: &[u8],
    sink: &mut S,
) -> Result<usize, ScanError<S::Error>>
    ensures { ScansFront S.took S.stopped C.class M.mode input.now sink.old result sink.new }
{
    let rest = scan_document::<S, (C, M)>(C::class(), M::mode(), input, sink)?;
    Ok(input.len() - rest.len())
}

fn scan_in<S: Sink, C: ClassType, M: ParseMode>(
    input: &[u8],
    sink: &mut S,
) -> Result<(), ScanError<S::Error>>
    ensures { Scans S.took S.stopped C.class result sink.old sink.new (layout (setting M.mode 0))
        input.now }
{
    if scan_document::<S, (C, M)>(C::class(), M::mode(), input, sink)?.is_empty() {
        Ok(())
    } else {
        Err(ScanError::NotText)
    }
}

// How many blocks are open, and the stage of the innermost block. An array has the other stages,
// each at the number of blocks that were open with it. So this struct stays in registers.
#[derive(Clone, Copy)]
struct OpenBlocks {
    count: u8,
    innermost: Stage,
}

// Emits the events of the document at the front of the input, and returns what follows it. `K` names the
// copy of the code, here and below: there is one per sink, mode and class, in which brackets are constants.
#[inline(always)]
fn scan_document<'a, S: Sink, K>(
    class: Class,
    mode: Mode,
    input: &'a [u8],
    sink: &mut S,
) -> Result<&'a [u8], ScanError<S::Error>>
    ensures { ScansOn S.took S.stopped result sink.old sink.new
        (parse_map events_of (read class (setting mode 0) 255 input.now)) (λ rest. Some ([], rest.now)) }
{
    let mut outer = [Stage::ListFirst; 256];
    let mut blocks = OpenBlocks {
        count: 0,
        innermost: Stage::ListFirst,
    };
    let mut rest = input;
    'documents: loop {
        let begun = name_field::<S, K>(blocks, class, mode, rest, sink)?;
        let open_blocks = blocks.count;
        let (opened, after) = begin::<S, K>(
            Level {
                class,
                mode,
                open_blocks,
            },
            begun,
            sink,
        )?;
        rest = after;
        if let Some(innermost) = opened {
            outer[open_blocks as usize] = blocks.innermost;
            // No entry begins in the 256th block.
            let Some(count) = open_blocks.checked_add(1) else {
                return Err(ScanError::NotText);
            };
            blocks = OpenBlocks { count, innermost };
            continue 'documents;
        }
        let (left, after) = end_entries::<S, K>(blocks, &outer, class, mode, rest, sink)?;
        blocks = left;
        rest = after;
        if blocks.count == 0 {
            return Ok(rest);
        }
    }
}

/// Emits the events of the document at the front of the input, and returns what follows it. One copy of the
/// code serves all modes and classes. It is less code than four, and slower.
pub(crate) fn scan_once<'a, S: Sink>(
    class: Class,
    mode: Mode,
    input: &'a [u8],
    sink: &mut S,
) -> Result<&'a [u8], ScanError<S::Error>>
    ensures { ScansOn S.took S.stopped result sink.old sink.new
        (parse_map events_of (read class (setting mode 0) 255 input.now)) (λ rest. Some ([], rest.now)) }
{
    scan_document::<S, ()>(class, mode, input, sink)
}

// Emits the name of the next field, if the innermost block is a struct.
#[inline(always)]
fn name_field<'a, S: Sink, K>(
    blocks: OpenBlocks,
    class: Class,
    mode: Mode,
    input: &'a [u8],
    sink: &mut S,
) -> Result<&'a [u8], ScanError<S::Error>>
    requires { kind_of blocks.innermost ≡ Kind.Struct → 0 < blocks.count }
    ensures emitted { (outer : List Stage) → length outer ≡ 256
        → ScansOn S.took S.stopped result sink.old sink.new
        (scan_next class mode (open_stages blocks outer) input.now)
        (λ rest. scan_begun class mode (open_stages blocks outer) rest.now) }
    ensures within { IfOk result (λ rest. length rest.now ≤ length input.now) }
{
    match blocks.innermost {
        Stage::FieldFirst | Stage::FieldLater => field_name::<S, K>(class, input, sink),
        _ => Ok(input),
    }
}

// Emits the events from the end of an entry to the next entry, key or value. Blocks may end there.
// Returns the blocks that stay open, and what follows.
#[inline(always)]
fn end_entries<'a, S: Sink, K>(
    blocks: OpenBlocks,
    outer: &[Stage; 256],
    class: Class,
    mode: Mode,
    input: &'a [u8],
    sink: &mut S,
) -> Result<(OpenBlocks, &'a [u8]), ScanError<S::Error>>
    ensures emitted { ScansOn S.took S.stopped result sink.old sink.new
        (scan_ends class mode (open_stages blocks outer.now) input.now)
        (λ x. scan_left class mode (open_stages x.0 outer.now) x.1.now) }
    ensures within { IfOk result (λ x. length x.1.now ≤ length input.now) }
{
    let mut open = blocks;
    let mut rest = input;
    'ends: while let Some(open_blocks) = open.count.checked_sub(1) {
        let level = Level {
            class,
            mode,
            open_blocks,
        };
        let (next, after) = after_document::<S, K>(level, open.innermost, rest, sink)?;
        rest = after;
        if let Some(innermost) = next {
            let count = open.count;
            return Ok((OpenBlocks { count, innermost }, rest));
        }
        open = OpenBlocks {
            count: open_blocks,
            innermost: outer[open_blocks as usize],
        };
    }
    Ok((open, rest))
}
