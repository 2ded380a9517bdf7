//! The builder of structs.
ghost use Rattle.std.specs.Prelude.{is_ok, true, IfOk, OnOk};
ghost use Rattle.std.specs.Borrow.{sem};
ghost use Rattle.ufmt_core.specs.Layout.{Struct};
ghost use Rattle.ufmt_core.specs.Formatter.{Prints};
ghost use Rattle.ufmt_core.specs.BuilderView.{WritesEntry, WritesEnding, EndsEntry, IsLent, IsOpen, WritesOpening, dots_ending_of, field_lead_of, field_text, Lent};
ghost use Rattle.ufmt_core.specs.Builder.{LendsForField, OpeningLoan, struct_view};

/// The chain of fields that `struct_of` and `non_exhaustive_of` take.
macro_rules! field_chain {
    () => { () };
    ($name:ident: $value:ident, $($rest:tt)*) => { ($name, $value, field_chain!($($rest)*)) };
}

mod by_count;
mod non_exhaustive_by_count;
mod whole;

use crate::formatter::Formatter;
use crate::formatter::builder::{BlockKind, Builder};
use crate::layout::Kind;
use crate::uDebug;
use crate::write::uWrite;
pub use whole::NamedFields;

/// Writes a struct, field by field.
pub type DebugStruct<'f, W> = Builder<'f, W, StructBlock>;

/// Marks the builder of a struct.
#[derive(Clone, Copy)]
pub struct StructBlock;

impl BlockKind for StructBlock {
    ghost kind = { λ _. Struct };

    #[inline(always)]
    fn kind(&self) -> Kind {
        Kind::Struct
    }
}

impl<W: uWrite> Formatter<W> {
    /// Writes the name, which may be empty, and begins a struct. On `Err` there is no builder, and mode
    /// and depth are as before.
    #[inline(always)]
    pub fn debug_struct<'f>(&'f mut self, name: &str) -> Result<DebugStruct<'f, W>, W::Error>
        ensures* loan { sem 𝓛 (OpeningLoan W.row W.seen self.entry result name.now) }
        ensures opening { IfOk result
            (λ b. WritesOpening W.seen self.old self.entry.ghost_name Struct name.now
            (struct_view b)) }
        ensures is_open { IfOk result (λ b. IsOpen (struct_view b)) }
    {
        self.open(name, StructBlock)
    }
}

impl<W: uWrite> DebugStruct<'_, W> {
    /// Writes one field, `name: value`. On `Err` a prefix of it was written, and the builder is
    /// closed.
    // Out of line: fields of the same type share one copy.
    #[inline(never)]
    pub fn field<D: uDebug>(&mut self, name: &str, value: &D) -> Result<(), W::Error>
        requires { IsOpen (struct_view self.old) }
        ensures entry { WritesEntry W.seen (struct_view self.old)
            (field_text name.now (D.document value.now)) (is_ok result) (struct_view self.new) }
        ensures is_open { OnOk result (IsOpen (struct_view self.new)) }
    {
        let outcome = value.fmt(self.begin_named(name)?);
        self.end(outcome)
    }

    /// Writes the text before a field's value, and lends the formatter for the value. On `Err` the
    /// builder is closed.
    #[inline(always)]
    pub fn begin_field(&mut self, name: &str) -> Result<&mut Formatter<W>, W::Error>
        requires { IsOpen (struct_view self.old) }
        ensures* loan { sem 𝓛 (LendsForField W.row W.seen self.entry result name.now) }
        ensures lead { IfOk result
            (λ f. Prints W.seen self.old.formatter.now
            (field_lead_of name.now (struct_view self.old)) true f.now) }
    {
        self.begin_named(name)
    }

    /// Writes the text after a field if its value's `fmt` returned `Ok`, else returns its error. The
    /// lent formatter may be left at any mode and depth.
    #[inline(always)]
    pub fn end_field(&mut self, outcome: Result<(), W::Error>) -> Result<(), W::Error>
        requires { IsLent (struct_view self.old) }
        ensures end { EndsEntry W.seen outcome (struct_view self.old) result (is_ok result)
            (struct_view self.new) }
        ensures is_open { OnOk result (IsOpen (struct_view self.new)) }
    {
        self.reset_and_end(outcome)
    }

    /// Writes `..` in place of the fields that aren't shown, and the end of the struct. Also on `Err` the
    /// builder is then closed, and mode and depth are those from before it.
    #[inline(always)]
    pub fn finish_non_exhaustive(&mut self) -> Result<(), W::Error>
        requires { IsOpen (struct_view self.old) }
        ensures { WritesEnding W.seen (struct_view self.old) (dots_ending_of (struct_view self.old))
            (is_ok result) (struct_view self.new) }
    {
        self.finish_with_dots()
    }
}
