//! The builder of maps.
ghost use Rattle.std.specs.Prelude.{◌≡◌, List, codes, is_ok, map, true, Err, IfErr, IfOk, OnErr, OnOk};
ghost use Rattle.std.specs.Borrow.{sem};
ghost use Rattle.std.specs.Iterator.{AlwaysYields, IsFiniteIterable};
ghost use Rattle.ufmt_core.specs.Layout.{Braces};
ghost use Rattle.ufmt_core.specs.Document.{Document, map_of, pairs_of};
ghost use Rattle.ufmt_core.specs.Formatter.{LaysOut, Prints};
ghost use Rattle.ufmt_core.specs.BuilderView.{WritesEntries, WritesEntry, EndsEntry, IsLent, IsLentForValue, IsOpen, WritesOpening, inner_formatter, lead_of, pair_text, Lent, LentValue};
ghost use Rattle.ufmt_core.specs.Builder.{LendsForKey, LendsForValue, OpeningLoan, map_view};

use crate::formatter::Formatter;
use crate::formatter::builder::{BlockKind, Builder, Status};
use crate::layout::{COLON, Kind, OPENING_BRACE};
use crate::uDebug;
use crate::write::uWrite;

/// Writes a map, entry by entry.
pub type DebugMap<'f, W> = Builder<'f, W, MapBlock>;

/// Marks the builder of a map.
#[derive(Clone, Copy)]
pub struct MapBlock;

impl BlockKind for MapBlock {
    ghost kind = { λ _. Braces };

    fn kind(&self) -> Kind {
        Kind::Braces
    }
}

impl<W: uWrite> Formatter<W> {
    /// Writes `{` and begins a map. On `Err` there is no builder, and mode and depth are as before.
    pub fn debug_map<'f>(&'f mut self) -> Result<DebugMap<'f, W>, W::Error>
        ensures* loan { sem 𝓛 (OpeningLoan W.row W.seen self.entry result (codes "{")) }
        ensures opening { IfOk result
            (λ b. WritesOpening W.seen self.old self.entry.ghost_name Braces (codes "{")
            (map_view b)) }
        ensures is_open { IfOk result (λ b. IsOpen (map_view b)) }
    {
        self.open(OPENING_BRACE, MapBlock)
    }

    /// Writes a whole map. On `Err` a prefix of it was written. Mode and depth are as before.
    pub fn map_of<K: uDebug, V: uDebug>(&mut self, pairs: &[(K, V)]) -> Result<(), W::Error>
        ensures { LaysOut W.seen self.old
            (map_of (pairs_of (map (λ p. (K.document p.0, V.document p.1)) pairs.now)))
            (is_ok result) self.new }
    {
        let mut map = self.debug_map()?;
        for pair in pairs {
            map.entry(&pair.0, &pair.1)?;
        }
        map.finish()
    }
}

impl<W: uWrite> DebugMap<'_, W> {
    /// Writes one entry, `key: value`. On `Err` a prefix of it was written, and the builder is
    /// closed.
    pub fn entry<K: uDebug, V: uDebug>(&mut self, key: &K, value: &V) -> Result<(), W::Error>
        requires { IsOpen (map_view self.old) }
        ensures entry { WritesEntry W.seen (map_view self.old)
            (pair_text (K.document key.now) (V.document value.now)) (is_ok result)
            (map_view self.new) }
        ensures is_open { OnOk result (IsOpen (map_view self.new)) }
    {
        let key_outcome = key.fmt(self.begin()?);
        let outcome = value.fmt(self.lend_for_value(key_outcome)?);
        self.end(outcome)
    }

    /// Writes an entry for each pair, in order, and takes no pair after a failure.
    pub fn entries<K: uDebug + Drop, V: uDebug + Drop, I: IntoIterator<Item = (K, V)>>(
        &mut self,
        entries: I,
    ) -> Result<(), W::Error>
    where
        I::IntoIter: Drop,
        requires is_open { IsOpen (map_view self.old) }
        requires ends { IsFiniteIterable I.into_iter_gives I.IntoIter.can_next I.IntoIter.remaining
            entries }
        ensures entries { WritesEntries W.seen I.into_iter_gives I.IntoIter.next_gives
            (λ x. pair_text (K.document x.0) (V.document x.1)) entries (map_view self.old)
            (is_ok result) (map_view self.new) }
        ensures is_open { OnOk result (IsOpen (map_view self.new)) }
    {
        for (key, value) in entries {
            self.entry(&key, &value)?;
        }
        Ok(())
    }

    /// Writes the text before an entry, and lends the formatter for its key. On `Err` the builder is
    /// closed.
    pub fn begin_entry(&mut self) -> Result<&mut Formatter<W>, W::Error>
        requires { IsOpen (map_view self.old) }
        ensures* loan { sem 𝓛 (LendsForKey W.row W.seen self.entry result) }
        ensures lead { IfOk result
            (λ f. Prints W.seen self.old.formatter.now (lead_of (map_view self.old)) true f.now) }
    {
        self.begin()
    }

    /// Writes `: ` and lends the formatter for the value, if the key's `fmt` returned `Ok`. Else returns
    /// its error. The formatter that was lent for the key may be left at any mode and depth.
    pub fn begin_value(
        &mut self,
        outcome: Result<(), W::Error>,
    ) -> Result<&mut Formatter<W>, W::Error>
        requires { IsLent (map_view self.old) }
        ensures* loan { sem 𝓛 (LendsForValue W.row W.seen self.entry outcome result) }
        ensures colon { IfOk result
            (λ f. Prints W.seen (inner_formatter (map_view self.old)) (codes ": ") true f.now) }
        ensures error { IfErr outcome (λ e. result ≡ Err e) }
    {
        self.reset_setting();
        self.lend_for_value(outcome)
    }

    #[inline(always)]
    fn lend_for_value(
        &mut self,
        outcome: Result<(), W::Error>,
    ) -> Result<&mut Formatter<W>, W::Error>
        ensures* loan { sem 𝓛 (LendsForValue W.row W.seen self.entry outcome result) }
        ensures colon { IfOk result
            (λ f. Prints W.seen self.old.formatter.now (codes ": ") true f.now) }
        ensures error { IfErr outcome (λ e. result ≡ Err e) }
    {
        let written = match outcome {
            Ok(()) => self.formatter.write_str(COLON),
            Err(error) => Err(error),
        };
        self.lend_or_close(written, Status::LentValue)
    }

    /// Writes the text after an entry if its value's `fmt` returned `Ok`, else returns its error. The
    /// lent formatter may be left at any mode and depth.
    pub fn end_entry(&mut self, outcome: Result<(), W::Error>) -> Result<(), W::Error>
        requires { IsLentForValue (map_view self.old) }
        ensures end { EndsEntry W.seen outcome (map_view self.old) result (is_ok result)
            (map_view self.new) }
        ensures is_open { OnOk result (IsOpen (map_view self.new)) }
    {
        self.reset_and_end(outcome)
    }
}

/// Writes the pairs as a map, for `fmt` of the standard library's maps.
pub(crate) fn fmt_map<
    K: uDebug + Drop,
    V: uDebug + Drop,
    I: IntoIterator<Item = (K, V)> + Drop,
    W: uWrite,
>(pairs: I, f: &mut Formatter<W>) -> Result<(), W::Error>
where
    I::IntoIter: Drop,
    requires { IsFiniteIterable I.into_iter_gives I.IntoIter.can_next I.IntoIter.remaining pairs }
    ensures { (ps : List (Document × Document))
        → ((it : I.IntoIter) → I.into_iter_gives pairs it
        → AlwaysYields I.IntoIter.next_gives (λ x. (K.document x.0, V.document x.1)) it ps)
        → LaysOut W.seen f.old (map_of (pairs_of ps)) (is_ok result) f.new }
{
    let mut map = f.debug_map()?;
    map.entries(pairs)?;
    map.finish()
}
