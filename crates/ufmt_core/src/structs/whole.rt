//! A whole struct in one call. `fields!` is made of these calls, and a user may call them too.
ghost use Rattle.std.specs.Prelude.{◌≡◌, ℕ, List, is_ok, true};
ghost use Rattle.std.specs.Str.{bytes_eq};
ghost use Rattle.ufmt_core.specs.Alike.{SameFields};
ghost use Rattle.ufmt_core.specs.Document.{Fields, first_field, leaf, no_fields, non_exhaustive_of, struct_of};
ghost use Rattle.ufmt_core.specs.Formatter.{LaysOut};
ghost use Rattle.ufmt_core.specs.BuilderView.{IsOpen, WritesAll, WritesEnding, remaining_fields, tail_of};
ghost use Rattle.ufmt_core.specs.Builder.{struct_view};

use crate::formatter::Formatter;
use crate::structs::DebugStruct;
use crate::uDebug;
use crate::write::uWrite;

/// The fields of a struct that are left to write: the next one and those after it, or `()`.
pub trait NamedFields<'a> {
    /// The fields' names and documents.
    ghost fields: { Self → Fields };

    /// Writes the fields and the end of the struct. `write` and then the end would cost more.
    #[inline(always)]
    fn finish<W: uWrite>(&self, builder: &mut DebugStruct<W>) -> Result<(), W::Error>
        requires { IsOpen (struct_view builder.old) }
        ensures { WritesEnding W.seen (struct_view builder.old)
            (tail_of (struct_view builder.old) (remaining_fields (fields self.now))) (is_ok result)
            (struct_view builder.new) };

    /// Writes the fields.
    #[inline(always)]
    fn write<W: uWrite>(&self, builder: &mut DebugStruct<W>) -> Result<(), W::Error>
        requires { IsOpen (struct_view builder.old) }
        ensures { WritesAll W.seen (struct_view builder.old) (remaining_fields (fields self.now))
            (is_ok result) (struct_view builder.new) };
}

impl<'a> NamedFields<'a> for () {
    ghost fields = { λ _. no_fields };

    // Not inlined, like `begin_named`: all structs share one copy.
    #[inline(never)]
    fn finish<W: uWrite>(&self, builder: &mut DebugStruct<W>) -> Result<(), W::Error> {
        builder.finish()
    }

    #[inline(always)]
    fn write<W: uWrite>(&self, _builder: &mut DebugStruct<W>) -> Result<(), W::Error> {
        Ok(())
    }
}

impl<'a, D: uDebug, R: NamedFields<'a>> NamedFields<'a> for (&'a str, &'a D, R) {
    ghost fields = { λ c. first_field c.0.now (D.document c.1.now) (R.fields c.2) };

    #[inline(always)]
    fn finish<W: uWrite>(&self, builder: &mut DebugStruct<W>) -> Result<(), W::Error> {
        builder.field(self.0, self.1)?;
        self.2.finish(builder)
    }

    #[inline(always)]
    fn write<W: uWrite>(&self, builder: &mut DebugStruct<W>) -> Result<(), W::Error> {
        builder.field(self.0, self.1)?;
        self.2.write(builder)
    }
}

impl<W: uWrite> Formatter<W> {
    // Promise (printing): Calls for whole values and builders write each name and each value once, in its
    // place. Also: `Formatter::list_of`, `Formatter::set_of`, `Formatter::map_of`, `Formatter::struct_of`,
    // `Formatter::tuple_of`.
    /// Writes a name alone, as of a variant without fields.
    #[inline(always)]
    pub fn name_alone(&mut self, name: &str) -> Result<(), W::Error>
        ensures lays_out { LaysOut W.seen self.old (leaf name.now) (is_ok result) self.new }
        ensures alike { (other : List ℕ) → bytes_eq other name.now ≡ true
            → LaysOut W.seen self.old (leaf other) (is_ok result) self.new }
    {
        self.write_str(name)
    }

    /// Writes a whole struct, whose fields are a chain `(name, value, (name, value, .. ()))` of
    /// references. On `Err` a prefix of it was written. Mode and depth are as before.
    #[inline(always)]
    pub fn struct_of<'a, F: NamedFields<'a>>(
        &mut self,
        name: &str,
        fields: &F,
    ) -> Result<(), W::Error>
        ensures lays_out { LaysOut W.seen self.old (struct_of name.now (F.fields fields.now)) (is_ok result)
            self.new }
        ensures alike { (other : List ℕ) (others : Fields) → bytes_eq other name.now ≡ true
            → SameFields others (F.fields fields.now)
            → LaysOut W.seen self.old (struct_of other others) (is_ok result) self.new }
    {
        let mut builder = self.debug_struct(name)?;
        fields.finish(&mut builder)
    }

    // Promise (printing): A struct that hides fields ends in dots. In pretty mode they are on a line of their
    // own, at the depth of the fields, without a comma. Also: `DebugStruct::finish_non_exhaustive`.
    /// `struct_of` of a struct that has more fields, which aren't shown: it ends in `..`.
    #[inline(always)]
    pub fn non_exhaustive_of<'a, F: NamedFields<'a>>(
        &mut self,
        name: &str,
        fields: &F,
    ) -> Result<(), W::Error>
        ensures lays_out { LaysOut W.seen self.old (non_exhaustive_of name.now (F.fields fields.now))
            (is_ok result) self.new }
        ensures alike { (other : List ℕ) (others : Fields) → bytes_eq other name.now ≡ true
            → SameFields others (F.fields fields.now)
            → LaysOut W.seen self.old (non_exhaustive_of other others) (is_ok result) self.new }
    {
        let mut builder = self.debug_struct(name)?;
        fields.write(&mut builder)?;
        builder.finish_non_exhaustive()
    }
}
