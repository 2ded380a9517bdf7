//! `uDebug` of what was read of a cell: `CellValue`, `RefCellValue`, `Ref` and `RefMut`. No contract sees what is in a
//! cell, so a cell has no document; what was read has one.
ghost use Rattle.std.specs.Prelude.{[], ◌∷◌};
ghost use Rattle.std.specs.RefCell.{ref_mut_value, ref_value};
ghost use Rattle.ufmt_core.specs.declared.core_impls.cells.RefCellValue.TheVariants.{Borrowed, Held};
ghost use Rattle.ufmt_core.specs.Document.{leaf};
ghost use Rattle.ufmt_core.specs.ValueDocuments.{named, named_struct};

use crate::formatter::Formatter;
use crate::uDebug;
use crate::write::uWrite;
use std::cell::{Cell, Ref, RefCell, RefMut};

/// What a `Cell` held when it was read. Prints as Rust prints the cell.
#[derive(Clone, Copy)]
pub struct CellValue<T>(pub T);

impl<T: Copy> CellValue<T> {
    /// Reads the cell.
    pub fn of(cell: &Cell<T>) -> CellValue<T> {
        CellValue(cell.get())
    }
}

/// Prints a struct `Cell` with one field.
impl<T: uDebug> uDebug for CellValue<T> {
    ghost document = { λ c. named_struct "Cell" (("value", T.document c.0) ∷ []) };

    fn fmt<W: uWrite>(&self, f: &mut Formatter<W>) -> Result<(), W::Error> {
        f.struct_1("Cell", "value", &self.0)
    }
}

/// What a `RefCell` held when it was read. Prints as Rust prints the cell.
#[derive(Drop)]
pub enum RefCellValue<'a, T> {
    /// The value, which stays borrowed.
    Held(Ref<'a, T>),
    /// The value couldn't be borrowed.
    Borrowed,
}

impl<'a, T> RefCellValue<'a, T> {
    /// Reads the cell. The cell stays borrowed as long as what was read is there.
    pub fn of(cell: &'a RefCell<T>) -> RefCellValue<'a, T> {
        match cell.try_borrow() {
            Ok(value) => RefCellValue::Held(value),
            Err(_) => RefCellValue::Borrowed,
        }
    }
}

/// Prints a struct `RefCell` with one field, `<borrowed>` if the value couldn't be borrowed.
impl<T: uDebug> uDebug for RefCellValue<'_, T> {
    ghost document = { elim [
      | Held r ↦ named_struct "RefCell" (("value", T.document (ref_value r)) ∷ [])
      | Borrowed ↦ named_struct "RefCell" (("value", named "<borrowed>") ∷ [])
    ] };

    fn fmt<W: uWrite>(&self, f: &mut Formatter<W>) -> Result<(), W::Error> {
        match self {
            RefCellValue::Held(value) => f.struct_1("RefCell", "value", value),
            RefCellValue::Borrowed => f.struct_1("RefCell", "value", &Unquoted("<borrowed>")),
        }
    }
}

/// Prints the borrowed value.
impl<T: uDebug> uDebug for Ref<'_, T> {
    ghost document = { λ r. T.document (ref_value r) };

    fn fmt<W: uWrite>(&self, f: &mut Formatter<W>) -> Result<(), W::Error> {
        (**self).fmt(f)
    }
}

/// Prints the borrowed value.
impl<T: uDebug> uDebug for RefMut<'_, T> {
    ghost document = { λ r. T.document (ref_mut_value r) };

    fn fmt<W: uWrite>(&self, f: &mut Formatter<W>) -> Result<(), W::Error> {
        (**self).fmt(f)
    }
}

// A text that prints without quotes.
#[derive(Clone, Copy)]
struct Unquoted(&'static str);

impl uDebug for Unquoted {
    ghost document = { λ t. leaf t.0.now };

    fn fmt<W: uWrite>(&self, f: &mut Formatter<W>) -> Result<(), W::Error> {
        f.write_str(self.0)
    }
}
