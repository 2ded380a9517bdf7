//! The one builder of lists, sets, maps, structs and tuples.
ghost use Rattle.std.specs.Prelude.{◌≡◌, ◌↔◌, [], is_ok, true, Err, IfErr, IfOk, IsOk, IsTrue, MatchBool, OnOk};
ghost use Rattle.std.specs.Borrow.{sem, follows};
ghost use mir.Syntax.{named};
ghost use Rattle.ufmt_core.specs.contracts.formatter.Formatter as formatter;
ghost use Rattle.ufmt_core.specs.contracts.formatter.builder.Builder as builder;
ghost use Rattle.ufmt_core.specs.Layout.{Kind};
ghost use Rattle.ufmt_core.specs.Formatter.{Prints};
ghost use Rattle.ufmt_core.specs.BuilderView.{WritesEnding, EndsEntry, IsInside, IsOpen, WritesOpening, dots_ending_of, ending_of, field_lead_of, inner_formatter, lead_of, Lent};
ghost use Rattle.ufmt_core.specs.Builder.{EntryLoan, LendsAfter, LendsForEntry, OpeningLoan, view_of, abandoned, lent};

use crate::formatter::Formatter;
use crate::layout::{Count, Kind, Mode, Setting};
use crate::write::uWrite;

// The states of a builder, and the calls between them. An entry of a map has three calls.
//
//     Open ── begin ──▶ Lent ── end ──▶ Open
//     Open ── begin ──▶ Lent ── lend_for_value ──▶ LentValue ── end ──▶ Open
//     each of these ── finish, or a call that fails ──▶ Closed

/// Which of its calls a builder takes next.
#[derive(Clone, Copy)]
pub(crate) enum Status {
    /// An entry, or `finish`.
    Open,
    /// The formatter is lent for an entry, in a map for its key. Only the matching second call.
    Lent,
    /// The formatter is lent for the value of a map's entry. Only the matching second call.
    LentValue,
    /// No call.
    Closed,
}

/// Marks whether a builder is a list's, a set's, a map's, a struct's or a tuple's.
pub trait BlockKind: Drop {
    /// The kind of the block, which gives the brackets around its entries.
    ghost kind: { Self → Kind };

    fn kind(&self) -> Kind
        ensures { result ≡ kind self.now };
}

/// Writes a block, entry by entry. `DebugList`, `DebugSet`, `DebugMap`, `DebugStruct` and `DebugTuple`
/// are this type, each with its own marker.
#[derive(Drop)]
pub struct Builder<'f, W, K> {
    pub(crate) formatter: &'f mut Formatter<W>,
    marker: K,
    outer: Setting,
    count: Count,
    status: Status,
}

impl<W: uWrite> Formatter<W> {
    /// Writes the opening, and changes to the mode and depth of the entries.
    #[inline(always)]
    pub(crate) fn open<'f, K: BlockKind>(
        &'f mut self,
        opening: &str,
        marker: K,
    ) -> Result<Builder<'f, W, K>, W::Error>
        ensures* loan { sem 𝓛 (OpeningLoan W.row W.seen self.entry result opening.now) }
        ensures opening { IfOk result
            (λ b. WritesOpening W.seen self.old self.entry.ghost_name (K.kind marker) opening.now
            (view_of K.kind b)) }
    {
        let outer = self.setting;
        self.write_str(opening)?;
        if matches!(outer.mode, Mode::Pretty) {
            self.setting = outer.inside();
        }
        Ok(Builder {
            formatter: self,
            marker,
            outer,
            count: Count::Zero,
            status: Status::Open,
        })
    }
}

impl<W: uWrite, K: BlockKind> Builder<'_, W, K> {
    /// Writes the text before an entry, and lends the formatter for it.
    #[inline(always)]
    pub(crate) fn begin(&mut self) -> Result<&mut Formatter<W>, W::Error>
        requires { IsInside (view_of K.kind self.old) }
        ensures* loan { sem 𝓛 (LendsForEntry W.row K.row (view_of K.kind) W.seen self.entry result) }
        ensures lead { IfOk result
            (λ f. Prints W.seen self.old.formatter.now (lead_of (view_of K.kind self.old)) true
            f.now) }
    {
        let written = self.formatter.write_lead(self.marker.kind(), self.count);
        self.lend_or_close(written, Status::Lent)
    }

    /// Writes the text before the value of a struct's field, and lends the formatter for the value.
    // Out of line: fields of all types share one copy.
    #[inline(never)]
    pub(crate) fn begin_named(&mut self, name: &str) -> Result<&mut Formatter<W>, W::Error>
        requires { IsInside (view_of K.kind self.old) }
        ensures* loan { sem 𝓛 (LendsAfter W.row K.row (view_of K.kind) W.seen self.entry result
            (field_lead_of name.now (view_of K.kind self.old))) }
        ensures lead { IfOk result
            (λ f. Prints W.seen self.old.formatter.now
            (field_lead_of name.now (view_of K.kind self.old)) true f.now) }
    {
        let kind = self.marker.kind();
        let written = self.formatter.write_field_lead(kind, self.count, name);
        self.lend_or_close(written, Status::Lent)
    }

    /// `reset_setting` and then `end`, of a formatter that was lent to a caller.
    #[inline(always)]
    pub(crate) fn reset_and_end(&mut self, outcome: Result<(), W::Error>) -> Result<(), W::Error>
        ensures end { EndsEntry W.seen outcome (view_of K.kind self.old) result (is_ok result)
            (view_of K.kind self.new) }
        ensures is_open { OnOk result (IsOpen (view_of K.kind self.new)) }
    {
        self.reset_setting();
        self.end(outcome)
    }

    /// Writes the text after an entry if its `fmt` returned `Ok`, else returns its error.
    #[inline(always)]
    pub(crate) fn end(&mut self, outcome: Result<(), W::Error>) -> Result<(), W::Error>
        requires { IsInside (view_of K.kind self.old) }
        ensures end { EndsEntry W.seen outcome (view_of K.kind self.old) result (is_ok result)
            (view_of K.kind self.new) }
        ensures is_open { OnOk result (IsOpen (view_of K.kind self.new)) }
    {
        let ended = match outcome {
            Ok(()) => self.formatter.write_trail(),
            Err(error) => Err(error),
        };
        self.advance_or_close(ended, Status::Open, self.count.next())
    }

    /// Writes the end of the block. Also on `Err` the builder is then closed, and mode and depth are
    /// those from before it.
    #[inline(always)]
    pub fn finish(&mut self) -> Result<(), W::Error>
        requires { IsOpen (view_of K.kind self.old) }
        ensures { WritesEnding W.seen (view_of K.kind self.old) (ending_of (view_of K.kind self.old))
            (is_ok result) (view_of K.kind self.new) }
    {
        let kind = self.marker.kind();
        self.close();
        self.formatter.write_ending(kind, self.count)
    }

    /// `finish` of a struct of which not all fields are shown.
    #[inline(always)]
    pub(crate) fn finish_with_dots(&mut self) -> Result<(), W::Error>
        ensures { WritesEnding W.seen (view_of K.kind self.old)
            (dots_ending_of (view_of K.kind self.old)) (is_ok result)
            (view_of K.kind self.new) }
    {
        self.close();
        self.formatter.write_dots_ending(self.count)
    }

    /// Whether entries may follow. They may until `finish` or a call that fails, and not between the
    /// halves of an entry. The formatter of an open builder is at the mode and depth of the entries.
    pub fn is_open(&self) -> bool
        ensures { IsTrue result ↔ IsOpen (view_of K.kind self.now) }
    {
        matches!(self.status, Status::Open) && self.formatter.setting == self.outer.inside()
    }

    /// Lends the formatter if the outcome is `Ok`, else closes the builder.
    #[inline(always)]
    pub(crate) fn lend_or_close(
        &mut self,
        outcome: Result<(), W::Error>,
        status: Status,
    ) -> Result<&mut Formatter<W>, W::Error>
        ensures* loan { sem 𝓛 (EntryLoan W.row K.row self.entry result status
            (λ last. last ≡ abandoned self.old)) }
        ensures lent { IfOk result (λ f. (f.now ≡ self.old.formatter.now) × IsOk outcome) }
        ensures error { IfErr result (λ e. outcome ≡ Err e) }
    {
        self.advance_or_close(outcome, status, self.count)?;
        Ok(self.lend())
    }

    #[inline(always)]
    fn lend(&mut self) -> &mut Formatter<W>
        ensures* loan { sem 𝓛 (follows
            (builder.the_row (record { mir = named 0; lft = [] }) W.row K.row)
            (formatter.the_row W.row) self.entry.ghost_name result.ghost_name
            (lent self.old.status self.old)) }
        ensures same { result.now ≡ self.old.formatter.now }
    {
        &mut *self.formatter
    }

    /// Sets the formatter to the mode and depth of the entries, whatever the borrower left.
    #[inline(always)]
    pub(crate) fn reset_setting(&mut self)
        ensures { self.new ≡ lent self.old.status self.old (inner_formatter (view_of K.kind self.old)) }
    {
        self.formatter.setting = self.outer.inside();
    }

    // Sets this status and count if the outcome is `Ok`, else closes the builder.
    #[inline(always)]
    fn advance_or_close(
        &mut self,
        outcome: Result<(), W::Error>,
        status: Status,
        count: Count,
    ) -> Result<(), W::Error>
        ensures outcome { result ≡ outcome }
        ensures advanced { MatchBool (is_ok outcome)
            (self.new ≡ record self.old { count = count; status = status })
            (self.new ≡ abandoned self.old) }
    {
        if outcome.is_ok() {
            self.count = count;
            self.status = status;
        } else {
            self.close();
        }
        outcome
    }

    // Closes the builder, and restores the mode and depth from before it.
    #[inline(always)]
    fn close(&mut self)
        ensures { self.new ≡ abandoned self.old }
    {
        self.formatter.setting = self.outer;
        self.status = Status::Closed;
    }
}
