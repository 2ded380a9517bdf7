//! The rest of a text, and what is taken from its front.
ghost use Rattle.std.specs.Prelude.{◌≡◌, ◌<◌, ◌≤◌, ◌-◌, length, MatchBool, false, not, suc, true};
ghost use Rattle.std.specs.Str.{bytes_eq};
ghost use Rattle.ufmt_core.specs.Layout.{ending, frame, lead};
ghost use Rattle.ufmt_core.specs.declared.layout.Count.TheVariants.{Zero};
ghost use Rattle.ufmt_core.specs.Document.{Document};
ghost use Rattle.ufmt_grammar.specs.Bytes.{ends_name};
ghost use Rattle.ufmt_parser.specs.Naming.{document_name, is_debug_name, is_past_name};
ghost use Rattle.ufmt_parser.specs.Needs.{KeepsDetail, detail_of, need};
ghost use Rattle.ufmt_parser.specs.Next.{IsNotNext, NextLeaves};
ghost use Rattle.ufmt_parser.specs.Taking.{Eats, open_blocks, rest, setting_in};

use crate::detail::Detail;
use crate::mode::ParseMode;
use crate::need::Need;
use crate::strip::{strip_ending, strip_lead, strip_piece};
use std::marker::PhantomData;
use ufmt_core::layout::{Count, Kind};
use ufmt_grammar::internal::ByteClass;
use ufmt_scan::internal::{begins_with, is_spaced};

/// Why a value isn't parsed.
#[derive(Clone, Copy, Drop)]
pub enum Fault {
    /// No value of the type prints so.
    NotText,
    OutOfMemory,
}

/// What is left of a text in the mode `M`, how many blocks are open there, and what is missing where a
/// call failed. In the mode `Detailed` also what is expected there in detail.
#[derive(Drop)]
pub struct Parser<'t, M> {
    rest: &'t [u8],
    open_blocks: u8,
    need: Need,
    // At the text's own lifetime, though names live longer: with two lifetimes no call of a closure on a parser is proved.
    detail: Detail<'t>,
    mode: PhantomData<M>,
}

impl<'t, M: ParseMode> Parser<'t, M> {
    /// A parser of the whole text.
    pub fn new(text: &'t [u8]) -> Parser<'t, M>
        ensures rest { rest result ≡ text.now }
        ensures outermost { open_blocks result ≡ 0 }
        ensures nothing { detail_of result ≡ Detail.Nothing }
    {
        Parser {
            rest: text,
            open_blocks: 0,
            need: Need::Punctuation,
            detail: Detail::Nothing,
            mode: PhantomData,
        }
    }

    /// How many bytes are left.
    pub fn len(&self) -> usize
        ensures { result ≡ length (rest self.now) }
    {
        self.rest.len()
    }

    /// Removes a piece from the front, if it is there. Returns whether it was.
    #[inline(always)]
    pub fn eat(&mut self, piece: &str) -> bool
        ensures eats { Eats piece.now (rest self.old) result (rest self.new) }
        ensures stays { result ≡ false → rest self.new ≡ rest self.old }
        ensures shrinks { length (rest self.new) ≤ length (rest self.old) }
        ensures blocks { open_blocks self.new ≡ open_blocks self.old }
        ensures counted { open_blocks self.old ≤ 255 }
    {
        let _blocks = self.open_blocks;
        match strip_piece(piece, self.rest) {
            Some(rest) => {
                self.rest = rest;
                true
            }
            None => false,
        }
    }

    /// Returns whether what comes next has this name, as a whole: `AB` isn't named `A`.
    #[inline(always)]
    pub fn is_named(&self, name: &str) -> bool
        requires { is_debug_name name.now ≡ true }
        ensures none { (d : Document) → bytes_eq (document_name d) name.now ≡ not result
            → IsNotNext M.mode self.now d }
        ensures only { (d : Document) (new : Parser M) → bytes_eq (document_name d) name.now ≡ not result
            → NextLeaves M.mode self.now d new }
    {
        match strip_piece(name, self.rest) {
            Some(after) => is_past_name(after),
            None => false,
        }
    }

    /// Removes what comes before an entry of the innermost block, which has this many entries before it.
    #[inline(always)]
    pub fn eat_lead(&mut self, kind: Kind, count: Count) -> bool
        ensures eats { Eats (lead (frame M.mode kind) (setting_in M.mode (open_blocks self.old)) count)
            (rest self.old) result (rest self.new) }
        ensures stays { result ≡ false → rest self.new ≡ rest self.old }
        ensures shrinks { length (rest self.new) ≤ length (rest self.old) }
        ensures blocks { open_blocks self.new ≡ open_blocks self.old }
        ensures counted { open_blocks self.old ≤ 255 }
    {
        match strip_lead(M::mode(), self.open_blocks, kind, count, self.rest) {
            Some(rest) => {
                self.rest = rest;
                true
            }
            None => false,
        }
    }

    /// Removes the end of the innermost block, which has this many entries.
    #[inline(always)]
    pub fn eat_ending(&mut self, kind: Kind, count: Count) -> bool
        requires { 0 < open_blocks self.old }
        ensures eats { Eats (ending (frame M.mode kind) (setting_in M.mode (open_blocks self.old - 1)) count)
            (rest self.old) result (rest self.new) }
        ensures stays { result ≡ false → rest self.new ≡ rest self.old }
        ensures shrinks { length (rest self.new) ≤ length (rest self.old) }
        ensures blocks { open_blocks self.new ≡ open_blocks self.old }
    {
        match strip_ending(M::mode(), self.open_blocks - 1, kind, count, self.rest) {
            Some(rest) => {
                self.rest = rest;
                true
            }
            None => false,
        }
    }

    /// Counts one block more. If that is one too many it returns false, and the parser is as it was.
    #[inline(always)]
    pub fn open_block(&mut self) -> bool
        ensures counts { MatchBool result
            ((open_blocks self.old < 255) × (open_blocks self.new ≡ suc (open_blocks self.old)))
            ((255 ≤ open_blocks self.old) × (open_blocks self.new ≡ open_blocks self.old)) }
        ensures rest { rest self.new ≡ rest self.old }
    {
        match self.open_blocks.checked_add(1) {
            Some(blocks) => {
                self.open_blocks = blocks;
                true
            }
            None => false,
        }
    }

    /// Counts one block less.
    #[inline(always)]
    pub fn close_block(&mut self)
        requires { 0 < open_blocks self.old }
        ensures blocks { open_blocks self.new ≡ open_blocks self.old - 1 }
        ensures rest { rest self.new ≡ rest self.old }
    {
        self.open_blocks -= 1;
    }

    /// What is left of the text.
    #[inline(always)]
    pub fn rest(&self) -> &'t [u8]
        ensures rest { result.now ≡ rest self.now }
        ensures counted { open_blocks self.now ≤ 255 }
    {
        // The proof sees from this that the count is a `u8`.
        let _counted = self.open_blocks;
        self.rest
    }

    /// Records what is missing, and returns the fault to fail with: `Err(parser.refuse(Need::Number))`. A parser that fails
    /// with `Fault::NotText` without this call says that punctuation is missing, or what an earlier failure recorded.
    #[must_use]
    #[inline(always)]
    pub fn refuse(&mut self, missing: Need) -> Fault
        ensures fault { result ≡ Fault.NotText }
        ensures needs { need self.new ≡ missing }
        ensures detail { KeepsDetail M.keeps_detail self.old Detail.Nothing self.new }
        ensures rest { rest self.new ≡ rest self.old }
        ensures blocks { open_blocks self.new ≡ open_blocks self.old }
    {
        self.refuse_in_detail(missing, Detail::Nothing)
    }

    /// The same, and records what is expected in detail if the mode is `Detailed`.
    #[must_use]
    #[inline(always)]
    pub fn refuse_in_detail(&mut self, missing: Need, detail: Detail<'t>) -> Fault
        ensures fault { result ≡ Fault.NotText }
        ensures needs { need self.new ≡ missing }
        ensures detail { KeepsDetail M.keeps_detail self.old detail.entry self.new }
        ensures rest { rest self.new ≡ rest self.old }
        ensures blocks { open_blocks self.new ≡ open_blocks self.old }
    {
        self.need = missing;
        self.note(detail);
        Fault::NotText
    }

    /// Records what is expected next in detail, for calls that fail without `refuse`, if the mode is `Detailed`.
    #[inline(always)]
    pub fn note(&mut self, detail: Detail<'t>)
        ensures detail { KeepsDetail M.keeps_detail self.old detail.entry self.new }
        ensures needs { need self.new ≡ need self.old }
        ensures rest { rest self.new ≡ rest self.old }
        ensures blocks { open_blocks self.new ≡ open_blocks self.old }
    {
        if M::keeps_detail() {
            self.detail = detail;
        }
    }

    /// What is missing where a call failed.
    pub fn need(&self) -> Need
        ensures { result ≡ need self.now }
    {
        self.need
    }

    /// What is expected in detail where a call failed, if the mode is `Detailed`. It is `Nothing` in other modes.
    pub fn detail(&self) -> Detail<'t>
        ensures { result ≡ detail_of self.now }
    {
        self.detail
    }

    /// Moves to this rest of the text.
    #[inline(always)]
    pub fn skip_to(&mut self, after: &'t [u8])
        ensures rest { rest self.new ≡ after.now }
        ensures blocks { open_blocks self.new ≡ open_blocks self.old }
    {
        self.rest = after;
    }

    /// Removes the end of a block in brackets or braces that has no entries.
    #[inline(always)]
    pub fn eat_empty_ending(&mut self, kind: Kind) -> bool
        ensures eats { Eats (ending (frame M.mode kind) (setting_in M.mode (open_blocks self.old)) Zero)
            (rest self.old) result (rest self.new) }
        ensures stays { result ≡ false → rest self.new ≡ rest self.old }
        ensures shrinks { length (rest self.new) ≤ length (rest self.old) }
        ensures blocks { open_blocks self.new ≡ open_blocks self.old }
        ensures counted { open_blocks self.old ≤ 255 }
    {
        match strip_ending(M::mode(), self.open_blocks, kind, Count::Zero, self.rest) {
            Some(rest) => {
                self.rest = rest;
                true
            }
            None => false,
        }
    }
}

// Whether a name before this text is over: no more bytes of it come, and no `()`.
#[inline(always)]
fn is_past_name(after: &[u8]) -> bool
    ensures { result ≡ is_past_name after.now }
{
    match after.split_first() {
        None => true,
        Some((b':', after)) => is_spaced(after),
        Some((b'(', after)) => !begins_with(b')', after),
        Some((&first, _)) => ends_name(first),
    }
}

// Whether the byte comes after a name: a space, a comma or a bracket. The compiler would make of a `match` two
// tests of bits and some comparisons.
#[inline(always)]
fn ends_name(byte: u8) -> bool
    ensures { result ≡ ends_name byte }
{
    ByteClass::AfterName.contains(byte)
}
