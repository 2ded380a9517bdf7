//! The builder of lists, and the calls that lists and sets share.
ghost use Rattle.std.specs.Prelude.{List, codes, is_ok, map, true, IfOk, OnOk};
ghost use Rattle.std.specs.Borrow.{sem};
ghost use Rattle.std.specs.Iterator.{AlwaysYields, IsFiniteIterable};
ghost use Rattle.ufmt_core.specs.Layout.{Brackets};
ghost use Rattle.ufmt_core.specs.Document.{Document, documents, list_of};
ghost use Rattle.ufmt_core.specs.Formatter.{LaysOut, Prints};
ghost use Rattle.ufmt_core.specs.BuilderView.{WritesEntries, WritesEntry, EndsEntry, IsLent, IsOpen, WritesOpening, entry_text, lead_of, Lent};
ghost use Rattle.ufmt_core.specs.Builder.{LendsForEntry, OpeningLoan, view_of, list_view};

use crate::formatter::Formatter;
use crate::formatter::builder::{BlockKind, Builder};
use crate::layout::{Kind, OPENING_BRACKET};
use crate::uDebug;
use crate::write::uWrite;

/// Writes a list, entry by entry.
pub type DebugList<'f, W> = Builder<'f, W, ListBlock>;

/// Marks the builder of a list.
#[derive(Clone, Copy)]
pub struct ListBlock;

impl BlockKind for ListBlock {
    ghost kind = { λ _. Brackets };

    #[inline(always)]
    fn kind(&self) -> Kind {
        Kind::Brackets
    }
}

/// A block of items: a list or a set.
pub trait Items {}

impl Items for ListBlock {}

impl<W: uWrite> Formatter<W> {
    /// Writes `[` and begins a list. On `Err` there is no builder, and mode and depth are as before.
    #[inline(always)]
    pub fn debug_list<'f>(&'f mut self) -> Result<DebugList<'f, W>, W::Error>
        ensures* loan { sem 𝓛 (OpeningLoan W.row W.seen self.entry result (codes "[")) }
        ensures opening { IfOk result
            (λ b. WritesOpening W.seen self.old self.entry.ghost_name Brackets (codes "[")
            (list_view b)) }
        ensures is_open { IfOk result (λ b. IsOpen (list_view b)) }
    {
        self.open(OPENING_BRACKET, ListBlock)
    }

    /// Writes a whole list. On `Err` a prefix of it was written. Mode and depth are as before.
    pub fn list_of<T: uDebug>(&mut self, items: &[T]) -> Result<(), W::Error>
        ensures { LaysOut W.seen self.old (list_of (documents (map T.document items.now)))
            (is_ok result) self.new }
    {
        let mut list = self.debug_list()?;
        list.entries(items.iter())?;
        list.finish()
    }
}

impl<W: uWrite, K: BlockKind + Items> Builder<'_, W, K> {
    // Promise (printing): A builder call that fails or finishes closes the builder, and brings back mode and
    // depth. Other calls leave it open, or lend the formatter. Also: `DebugMap::entry`, `DebugStruct::field`,
    // `DebugTuple::field`, `Builder::finish`.
    /// Writes one entry. On `Err` a prefix of it was written, and the builder is closed.
    #[inline(always)]
    pub fn entry<D: uDebug>(&mut self, entry: &D) -> Result<(), W::Error>
        requires { IsOpen (view_of K.kind self.old) }
        ensures entry { WritesEntry W.seen (view_of K.kind self.old)
            (entry_text (D.document entry.now)) (is_ok result) (view_of K.kind self.new) }
        ensures is_open { OnOk result (IsOpen (view_of K.kind self.new)) }
    {
        let outcome = entry.fmt(self.begin()?);
        self.end(outcome)
    }

    // Promise (printing): `entries` writes what `entry` writes of each item. Also: `DebugMap::entries`.
    /// Writes an entry for each item, in order, and takes no item after a failure.
    #[inline(always)]
    pub fn entries<D: uDebug + Drop, I: IntoIterator<Item = D>>(
        &mut self,
        entries: I,
    ) -> Result<(), W::Error>
    where
        I::IntoIter: Drop,
        requires is_open { IsOpen (view_of K.kind self.old) }
        requires ends { IsFiniteIterable I.into_iter_gives I.IntoIter.can_next I.IntoIter.remaining
            entries }
        ensures entries { WritesEntries W.seen I.into_iter_gives I.IntoIter.next_gives
            (λ x. entry_text (D.document x)) entries (view_of K.kind self.old)
            (is_ok result) (view_of K.kind self.new) }
        ensures is_open { OnOk result (IsOpen (view_of K.kind self.new)) }
    {
        for entry in entries {
            self.entry(&entry)?;
        }
        Ok(())
    }

    /// Writes the text before an entry, and lends the formatter for it. On `Err` the builder is
    /// closed.
    #[inline(always)]
    pub fn begin_entry(&mut self) -> Result<&mut Formatter<W>, W::Error>
        requires { IsOpen (view_of K.kind self.old) }
        ensures* loan { sem 𝓛 (LendsForEntry W.row K.row (view_of K.kind) W.seen self.entry result) }
        ensures lead { IfOk result
            (λ f. Prints W.seen self.old.formatter.now (lead_of (view_of K.kind self.old))
            true f.now) }
    {
        self.begin()
    }

    /// Writes the text after an entry if its `fmt` returned `Ok`, else returns its error. The lent
    /// formatter may be left at any mode and depth.
    #[inline(always)]
    pub fn end_entry(&mut self, outcome: Result<(), W::Error>) -> Result<(), W::Error>
        requires { IsLent (view_of K.kind self.old) }
        ensures end { EndsEntry W.seen outcome (view_of K.kind self.old) result (is_ok result)
            (view_of K.kind self.new) }
        ensures is_open { OnOk result (IsOpen (view_of K.kind self.new)) }
    {
        self.reset_and_end(outcome)
    }
}

/// Writes the items as a list, for `fmt` of the standard library's lists other than slices.
pub(crate) fn fmt_list<D: uDebug + Drop, I: IntoIterator<Item = D> + Drop, W: uWrite>(
    items: I,
    f: &mut Formatter<W>,
) -> Result<(), W::Error>
where
    I::IntoIter: Drop,
    requires { IsFiniteIterable I.into_iter_gives I.IntoIter.can_next I.IntoIter.remaining items }
    ensures { (ds : List Document)
        → ((it : I.IntoIter) → I.into_iter_gives items it
        → AlwaysYields I.IntoIter.next_gives D.document it ds)
        → LaysOut W.seen f.old (list_of (documents ds)) (is_ok result) f.new }
{
    let mut list = f.debug_list()?;
    list.entries(items)?;
    list.finish()
}
