//! The builder of sets.
ghost use Rattle.std.specs.Prelude.{List, codes, is_ok, map, IfOk};
ghost use Rattle.std.specs.Borrow.{sem};
ghost use Rattle.std.specs.Iterator.{AlwaysYields, IsFiniteIterable};
ghost use Rattle.ufmt_core.specs.Layout.{Braces};
ghost use Rattle.ufmt_core.specs.Document.{Document, documents, set_of};
ghost use Rattle.ufmt_core.specs.Formatter.{LaysOut};
ghost use Rattle.ufmt_core.specs.BuilderView.{IsOpen, WritesOpening};
ghost use Rattle.ufmt_core.specs.Builder.{OpeningLoan, set_view};

use crate::formatter::Formatter;
use crate::formatter::builder::{BlockKind, Builder};
use crate::layout::{Kind, OPENING_BRACE};
use crate::list::Items;
use crate::uDebug;
use crate::write::uWrite;

/// Writes a set, entry by entry, with the calls of a list.
pub type DebugSet<'f, W> = Builder<'f, W, SetBlock>;

/// Marks the builder of a set.
#[derive(Clone, Copy)]
pub struct SetBlock;

impl BlockKind for SetBlock {
    ghost kind = { λ _. Braces };

    fn kind(&self) -> Kind {
        Kind::Braces
    }
}

impl Items for SetBlock {}

impl<W: uWrite> Formatter<W> {
    /// Writes `{` and begins a set. On `Err` there is no builder, and mode and depth are as before.
    pub fn debug_set<'f>(&'f mut self) -> Result<DebugSet<'f, W>, W::Error>
        ensures* loan { sem 𝓛 (OpeningLoan W.row W.seen self.entry result (codes "{")) }
        ensures opening { IfOk result
            (λ b. WritesOpening W.seen self.old self.entry.ghost_name Braces (codes "{")
            (set_view b)) }
        ensures is_open { IfOk result (λ b. IsOpen (set_view b)) }
    {
        self.open(OPENING_BRACE, SetBlock)
    }

    /// Writes a whole set. On `Err` a prefix of it was written. Mode and depth are as before.
    pub fn set_of<T: uDebug>(&mut self, items: &[T]) -> Result<(), W::Error>
        ensures { LaysOut W.seen self.old (set_of (documents (map T.document items.now)))
            (is_ok result) self.new }
    {
        let mut set = self.debug_set()?;
        set.entries(items.iter())?;
        set.finish()
    }
}

/// Writes the items as a set, for `fmt` of the standard library's sets.
pub(crate) fn fmt_set<D: uDebug + Drop, I: IntoIterator<Item = D> + Drop, W: uWrite>(
    items: I,
    f: &mut Formatter<W>,
) -> Result<(), W::Error>
where
    I::IntoIter: Drop,
    requires { IsFiniteIterable I.into_iter_gives I.IntoIter.can_next I.IntoIter.remaining items }
    ensures { (ds : List Document)
        → ((it : I.IntoIter) → I.into_iter_gives items it
        → AlwaysYields I.IntoIter.next_gives D.document it ds)
        → LaysOut W.seen f.old (set_of (documents ds)) (is_ok result) f.new }
{
    let mut set = f.debug_set()?;
    set.entries(items)?;
    set.finish()
}
