//! The builder of tuples.
ghost use Rattle.std.specs.Prelude.{◌≡◌, is_ok, true, IfOk, OnOk};
ghost use Rattle.std.specs.Borrow.{sem};
ghost use Rattle.ufmt_core.specs.Layout.{tuple_kind};
ghost use Rattle.ufmt_core.specs.Formatter.{Prints};
ghost use Rattle.ufmt_core.specs.BuilderView.{WritesEntry, EndsEntry, IsLent, IsOpen, WritesOpening, entry_text, lead_of, Lent};
ghost use Rattle.ufmt_core.specs.Builder.{LendsForUnnamedField, OpeningLoan, kind_of_tuple, tuple_view};

mod by_count;
mod whole;

use crate::formatter::Formatter;
use crate::formatter::builder::{BlockKind, Builder};
use crate::layout::Kind;
use crate::uDebug;
use crate::write::uWrite;
pub use whole::UnnamedFields;

/// Writes a tuple, field by field.
pub type DebugTuple<'f, W> = Builder<'f, W, TupleBlock>;

/// Marks the builder of a tuple, and whether its name is empty.
#[derive(Clone, Copy)]
pub struct TupleBlock {
    is_unnamed: bool,
}

impl BlockKind for TupleBlock {
    ghost kind = { kind_of_tuple };

    fn kind(&self) -> Kind {
        if self.is_unnamed {
            Kind::Unnamed
        } else {
            Kind::Tuple
        }
    }
}

impl TupleBlock {
    fn with_name(name: &str) -> TupleBlock
        ensures { kind_of_tuple result ≡ tuple_kind name.now }
    {
        TupleBlock {
            is_unnamed: name.is_empty(),
        }
    }
}

impl<W: uWrite> Formatter<W> {
    /// Writes the name, which may be empty, and begins a tuple. On `Err` there is no builder, and mode
    /// and depth are as before.
    pub fn debug_tuple<'f>(&'f mut self, name: &str) -> Result<DebugTuple<'f, W>, W::Error>
        ensures* loan { sem 𝓛 (OpeningLoan W.row W.seen self.entry result name.now) }
        ensures opening { IfOk result
            (λ b. WritesOpening W.seen self.old self.entry.ghost_name (tuple_kind name.now) name.now
            (tuple_view b)) }
        ensures is_open { IfOk result (λ b. IsOpen (tuple_view b)) }
    {
        self.open(name, TupleBlock::with_name(name))
    }
}

impl<W: uWrite> DebugTuple<'_, W> {
    /// Writes one field. On `Err` a prefix of it was written, and the builder is closed.
    // Out of line, as a struct's `field` is.
    #[inline(never)]
    pub fn field<D: uDebug>(&mut self, value: &D) -> Result<(), W::Error>
        requires { IsOpen (tuple_view self.old) }
        ensures entry { WritesEntry W.seen (tuple_view self.old)
            (entry_text (D.document value.now))
            (is_ok result) (tuple_view self.new) }
        ensures is_open { OnOk result (IsOpen (tuple_view self.new)) }
    {
        let outcome = value.fmt(self.begin_field()?);
        self.end(outcome)
    }

    /// Writes the text before a field, and lends the formatter for it. On `Err` the builder is
    /// closed.
    // Out of line, as a struct's `field` is.
    #[inline(never)]
    pub fn begin_field(&mut self) -> Result<&mut Formatter<W>, W::Error>
        requires { IsOpen (tuple_view self.old) }
        ensures* loan { sem 𝓛 (LendsForUnnamedField W.row W.seen self.entry result) }
        ensures lead { IfOk result
            (λ f. Prints W.seen self.old.formatter.now (lead_of (tuple_view self.old)) true
            f.now) }
    {
        self.begin()
    }

    /// Writes what follows a field whose `fmt` had this outcome, or passes an `Err` on. The lent
    /// formatter may be left at any mode and depth.
    pub fn end_field(&mut self, outcome: Result<(), W::Error>) -> Result<(), W::Error>
        requires { IsLent (tuple_view self.old) }
        ensures end { EndsEntry W.seen outcome (tuple_view self.old) result (is_ok result)
            (tuple_view self.new) }
        ensures is_open { OnOk result (IsOpen (tuple_view self.new)) }
    {
        self.reset_and_end(outcome)
    }
}
