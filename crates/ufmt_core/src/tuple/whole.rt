//! A whole tuple in one call. `fields!` is made of these calls, and a user may call them too.
ghost use Rattle.std.specs.Prelude.{◌≡◌, ℕ, List, is_ok, true};
ghost use Rattle.std.specs.Str.{bytes_eq};
ghost use Rattle.ufmt_core.specs.Alike.{SameDocuments};
ghost use Rattle.ufmt_core.specs.Document.{Documents, first_document, no_documents, tuple_of};
ghost use Rattle.ufmt_core.specs.Formatter.{LaysOut};
ghost use Rattle.ufmt_core.specs.BuilderView.{WritesEnding, IsOpen, remaining_entries, tail_of};
ghost use Rattle.ufmt_core.specs.Builder.{tuple_view};

use crate::formatter::Formatter;
use crate::tuple::DebugTuple;
use crate::uDebug;
use crate::write::uWrite;

/// The fields of a tuple that are left to write: the next one and those after it, or `()`.
pub trait UnnamedFields<'a> {
    /// The fields' documents.
    ghost documents: { Self → Documents };

    /// Writes the fields and the end of the tuple.
    fn finish<W: uWrite>(&self, builder: &mut DebugTuple<W>) -> Result<(), W::Error>
        requires { IsOpen (tuple_view builder.old) }
        ensures { WritesEnding W.seen (tuple_view builder.old)
            (tail_of (tuple_view builder.old) (remaining_entries (documents self.now)))
            (is_ok result)
            (tuple_view builder.new) };
}

impl<'a> UnnamedFields<'a> for () {
    ghost documents = { λ _. no_documents };

    #[inline(never)]
    fn finish<W: uWrite>(&self, builder: &mut DebugTuple<W>) -> Result<(), W::Error> {
        builder.finish()
    }
}

impl<'a, D: uDebug, R: UnnamedFields<'a>> UnnamedFields<'a> for (&'a D, R) {
    ghost documents = { λ c. first_document (D.document c.0.now) (R.documents c.1) };

    fn finish<W: uWrite>(&self, builder: &mut DebugTuple<W>) -> Result<(), W::Error> {
        builder.field(self.0)?;
        self.1.finish(builder)
    }
}

impl<W: uWrite> Formatter<W> {
    /// Writes a whole tuple, whose fields are a chain `(value, (value, .. ()))` of references. On
    /// `Err` a prefix of it was written. Mode and depth are as before.
    pub fn tuple_of<'a, F: UnnamedFields<'a>>(
        &mut self,
        name: &str,
        fields: &F,
    ) -> Result<(), W::Error>
        ensures lays_out { LaysOut W.seen self.old (tuple_of name.now (F.documents fields.now))
            (is_ok result) self.new }
        ensures alike { (other : List ℕ) (others : Documents) → bytes_eq other name.now ≡ true
            → SameDocuments others (F.documents fields.now)
            → LaysOut W.seen self.old (tuple_of other others) (is_ok result) self.new }
    {
        let mut builder = self.debug_tuple(name)?;
        fields.finish(&mut builder)
    }
}
