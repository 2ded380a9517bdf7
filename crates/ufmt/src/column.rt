//! Columns: texts padded to a width that counts characters.
ghost use Rattle.std.specs.Prelude.{◌≡◌, is_ok};
ghost use Rattle.ufmt_core.specs.Formatter.{Prints, writer_of};
ghost use Rattle.ufmt.specs.Column.{fills, fills_before};
ghost use Rattle.ufmt.specs.Private.Counting.{left_after};

mod counter;

use crate::pad::pad;
pub(crate) use counter::{CharacterCounter, WidthReached};
use ufmt_core::{Formatter, uWrite};

/// Where a text is within its column.
#[derive(Clone, Copy)]
pub enum Align {
    /// Before the fills.
    Left,
    /// Between the fills. Of an odd number, one more comes after the text.
    Center,
    /// After the fills.
    Right,
}

/// A width in characters, and the character that fills what a text leaves of it. A text of the width
/// or more is written as it is.
#[derive(Clone, Copy)]
pub struct Column {
    pub width: usize,
    pub align: Align,
    pub fill: char,
}

impl Align {
    // How many of `count` fills come before the text.
    pub(crate) fn fills_before(self, count: usize) -> usize
        ensures { result ≡ fills_before self count }
    {
        match self {
            Align::Left => 0,
            Align::Center => count / 2,
            Align::Right => count,
        }
    }
}

impl Column {
    // Writes so many fills. Spaces are the usual fill, so they come many in a piece.
    pub(crate) fn write_fills<W: uWrite>(
        &self,
        f: &mut Formatter<W>,
        count: usize,
    ) -> Result<(), W::Error>
        ensures { Prints W.seen f.old (fills self.now count) (is_ok result) f.new }
    {
        if self.fill == ' ' {
            pad::<W, b' '>(f, &[b' '; 64], count)
        } else {
            self.write_each_fill(f, count)
        }
    }

    // One piece for each fill.
    fn write_each_fill<W: uWrite>(&self, f: &mut Formatter<W>, count: usize) -> Result<(), W::Error>
        ensures { Prints W.seen f.old (fills self.now count) (is_ok result) f.new }
    {
        for _fill in 0..count {
            f.write_char(self.fill)?;
        }
        Ok(())
    }
}

// How many characters a text is short of the width of the counter that it was printed to.
pub(crate) fn missing_after(
    printed: Result<(), WidthReached>,
    counting: Formatter<CharacterCounter>,
) -> usize
    ensures { result ≡ left_after (is_ok printed) (writer_of counting) }
{
    match printed {
        Ok(()) => counting.into_inner().missing(),
        Err(WidthReached) => 0,
    }
}
