//! `pieces!`: a line of pieces as one value, which prints in one call.
ghost use Rattle.std.specs.Prelude.{[], ◌∷◌, ◌++◌, List, map, is_ok};
ghost use Rattle.ufmt_core.specs.Formatter.{Prints, setting_of};
ghost use Rattle.ufmt.specs.Pieces.{Piece, each, pieces_text, preceded, text};

mod column;
mod marks;

pub use column::InColumn;
pub use marks::{Debug, Decimals, Display, Hex, InRadix, Mark, Marked, Pretty, Zeros};
use ufmt_core::{Formatter, uWrite};

/// Pieces in a row, as a value: a text, a value with its mark, the items of a slice, nothing, or two
/// lines, one after the other. `ufmt` 0.2.0 has no such values.
pub trait Line {
    /// The pieces.
    ghost pieces: { Self → List Piece };

    // Promise (lines): A line prints the texts of its pieces in order. If it returns `Err`, it has written a
    // prefix of that. `uwriteln!` adds a line feed. Also: `laws::all_pieces`, `laws::line_of_all_pieces`,
    // `laws::numbers::uwrite_numbers`, `laws::numbers::line_of_numbers`, `laws::line_feed_comes_last`.
    /// Writes the pieces one after another, in the formatter's mode and from its depth. On `Err` a
    /// prefix of their text was written. Mode, depth and the writer's identity are as before.
    fn print<W: uWrite>(&self, f: &mut Formatter<W>) -> Result<(), W::Error>
        ensures { Prints W.seen f.old (pieces_text (setting_of f.old) (pieces self.now))
            (is_ok result) f.new };
}

/// No piece.
impl Line for () {
    ghost pieces = { λ _. [] };

    fn print<W: uWrite>(&self, _f: &mut Formatter<W>) -> Result<(), W::Error> {
        Ok(())
    }
}

/// The first line, and then the second.
impl<A: Line, B: Line> Line for (A, B) {
    ghost pieces = { λ c. A.pieces c.0 ++ B.pieces c.1 };

    #[inline(always)]
    fn print<W: uWrite>(&self, f: &mut Formatter<W>) -> Result<(), W::Error> {
        self.0.print(f)?;
        self.1.print(f)
    }
}

/// A text as it is: one piece.
#[derive(Clone, Copy, Drop)]
pub struct Text<'a>(pub &'a str);

impl Line for Text<'_> {
    ghost pieces = { λ t. text t.0.now ∷ [] };

    #[inline(always)]
    fn print<W: uWrite>(&self, f: &mut Formatter<W>) -> Result<(), W::Error> {
        f.write_str(self.0)
    }
}

/// The items of a slice, by one mark, with a text between them.
#[derive(Clone, Copy, Drop)]
pub struct Each<'a, T, M> {
    pub items: &'a [T],
    pub mark: M,
    pub between: &'a str,
}

impl<T, M: Mark<T>> Line for Each<'_, T, M> {
    ghost pieces = { λ e. each e.between.now (map (M.pieces e.mark) e.items.now) ∷ [] };

    fn print<W: uWrite>(&self, f: &mut Formatter<W>) -> Result<(), W::Error> {
        match self.items.split_first() {
            None => Ok(()),
            Some((first, rest)) => {
                self.mark.print_value(first, f)?;
                self.print_rest(rest, f)
            }
        }
    }
}

impl<T, M: Mark<T>> Each<'_, T, M> {
    // Writes each of these items, with the text before it.
    fn print_rest<W: uWrite>(&self, rest: &[T], f: &mut Formatter<W>) -> Result<(), W::Error>
        ensures { Prints W.seen f.old
            (pieces_text (setting_of f.old)
            (preceded self.now.between.now (map (M.pieces self.now.mark) rest.now)))
            (is_ok result) f.new }
    {
        for item in rest {
            f.write_str(self.between)?;
            self.mark.print_value(item, f)?;
        }
        Ok(())
    }
}

/// Makes a line of pieces, as one value: `line_into(buffer, &pieces!(text "n = ", debug n))?`.
///
/// A piece is `text e` for a `&str`, or `display e`, `debug e`, `pretty e`, `hex e with options`,
/// `bin e with options`, `oct e with options`, `zeros e to width` or `fixed e to decimals` for a value, each
/// of which may be followed by `in column`. The items of a slice are `each debug e between s`,
/// `each hex e with options between s` or `each e by mark between s`; `s` is a `&str`, and `mark` a `Mark`
/// of your own. An expression before `with`, `to`, `in`, `by` or `between` is a name, a literal, or in
/// parentheses.
///
/// Each value is evaluated once and in order, before the first piece is written. `uwrite!` evaluates a
/// value after the piece before it is written.
#[macro_export]
macro_rules! pieces {
    ($($pieces:tt)*) => { $crate::next_piece!(keep_piece [] $($pieces)*) };
}
