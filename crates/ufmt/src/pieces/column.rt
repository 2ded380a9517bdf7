//! A mark around a mark: what that writes, in a column.
ghost use Rattle.std.specs.Prelude.{◌≡◌, [], ◌∷◌, is_ok};
ghost use Rattle.ufmt_core.specs.Formatter.{Prints, setting_of};
ghost use Rattle.ufmt.specs.Column.{missing};
ghost use Rattle.ufmt.specs.Pieces.{column, pieces_text};
ghost use Rattle.ufmt.specs.declared.column.Align.TheVariants.{Left};

use super::Mark;
use crate::column::{Align, Column};
use ufmt_core::{Formatter, uWrite};

/// Writes a value by another mark, padded to a column. What that mark writes is counted, up to the width and without its own
/// padding, and written: at the left before it is counted, else after it.
#[derive(Clone, Copy, Drop)]
pub struct InColumn<M> {
    pub mark: M,
    pub column: Column,
}

impl<T, M: Mark<T>> Mark<T> for InColumn<M> {
    ghost pieces = { λ m x. column m.column (M.pieces m.mark x) ∷ [] };

    fn print_value<W: uWrite>(&self, value: &T, f: &mut Formatter<W>) -> Result<(), W::Error> {
        if let Align::Left = self.column.align {
            return self.print_at_left(value, f);
        }
        let missing = self.missing(value, f);
        let before = self.column.align.fills_before(missing);
        self.column.write_fills(f, before)?;
        self.mark.print_value(value, f)?;
        self.column.write_fills(f, missing - before)
    }

    // What is in a column has its width, or more: the fills needn't be counted.
    fn missing_characters<W: uWrite>(&self, value: &T, f: &Formatter<W>, width: usize) -> usize {
        let missing = self.mark.missing_characters(value, f, width);
        missing.min(width.saturating_sub(self.column.width))
    }
}

impl<M> InColumn<M> {
    // Before the value no fills are needed, so it needn't be counted yet. If the writer refuses it, it never
    // is.
    fn print_at_left<T, W: uWrite>(&self, value: &T, f: &mut Formatter<W>) -> Result<(), W::Error>
    where
        M: Mark<T>,
        requires { self.now.column.align ≡ Left }
        ensures { Prints W.seen f.old
            (pieces_text (setting_of f.old)
            (column self.now.column (M.pieces self.now.mark value.now) ∷ [])) (is_ok result) f.new }
    {
        self.mark.print_value(value, f)?;
        let missing = self.missing(value, f);
        self.column.write_fills(f, missing)
    }

    // How many characters what the mark writes is short of the width.
    fn missing<T, W: uWrite>(&self, value: &T, f: &Formatter<W>) -> usize
    where
        M: Mark<T>,
        ensures { result ≡ missing self.now.column
            (pieces_text (setting_of f.now) (M.pieces self.now.mark value.now)) }
    {
        if self.column.width == 0 {
            return 0;
        }
        self.mark.missing_characters(value, f, self.column.width)
    }
}
