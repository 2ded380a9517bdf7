//! The message on a difference, in words that don't come from Rust.
ghost use Rattle.ufmt_c.specs.Differences.{message_pieces};

use ufmt::{Formatter, Line, pieces, uWrite};
use ufmt_snapshot::Difference;

/// Prints as the number of the line, and the line of both texts in quotation marks, or `none` of a text that
/// has fewer lines.
#[derive(Clone, Copy)]
pub(crate) struct Message<'a> {
    pub(crate) difference: Difference<'a>,
}

impl Line for Message<'_> {
    ghost pieces = { λ m. message_pieces m.difference };

    fn print<W: uWrite>(&self, f: &mut Formatter<W>) -> Result<(), W::Error> {
        let line = self.difference.line;
        match self.difference.given {
            Some(given) => match self.difference.stored {
                Some(stored) => pieces!(
                    text "line ", display line, text " differs\n given: ", debug given,
                    text "\nstored: ", debug stored
                )
                .print(f),
                None => pieces!(
                    text "line ", display line, text " differs\n given: ", debug given,
                    text "\nstored: ", text "none"
                )
                .print(f),
            },
            None => match self.difference.stored {
                Some(stored) => pieces!(
                    text "line ", display line, text " differs\n given: ", text "none",
                    text "\nstored: ", debug stored
                )
                .print(f),
                None => pieces!(
                    text "line ", display line, text " differs\n given: ", text "none",
                    text "\nstored: ", text "none"
                )
                .print(f),
            },
        }
    }
}
