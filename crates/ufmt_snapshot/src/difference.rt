//! The first line in which two texts differ.
ghost use Rattle.std.specs.Prelude.{◌≡◌, ◌↔◌, IsNone, IfSome};
ghost use Rattle.std.specs.Option.{option_copied};
ghost use Rattle.ufmt_snapshot.specs.Difference.{IsFirstDifference, difference_document, difference_pieces};
ghost use Rattle.ufmt_snapshot.specs.Private.LinesLeft.{CutsLine};

#[cfg(test)]
mod tests;

use ufmt::{Formatter, Line, fields, pieces, uDebug, uWrite};

/// The first line in which two texts differ. A text is cut into lines at each line feed, so `"a\n"` has
/// an empty second line.
#[derive(Clone, Copy)]
pub struct Difference<'a> {
    /// The number of the line, from 1 on.
    pub line: usize,
    /// The line of the given text, or `None` if it has fewer lines.
    pub given: Option<&'a str>,
    /// The line of the stored text, or `None` if it has fewer lines.
    pub stored: Option<&'a str>,
}

impl uDebug for Difference<'_> {
    ghost document = { difference_document };

    fn fmt<W: uWrite>(&self, f: &mut Formatter<W>) -> Result<(), W::Error> {
        fields!(
            f,
            self,
            Difference {
                line,
                given,
                stored
            }
        )
    }
}

/// Prints as a message of three lines. The two lines of the texts are in quotes, so that spaces at their
/// ends can be seen.
impl Line for Difference<'_> {
    ghost pieces = { difference_pieces };

    fn print<W: uWrite>(&self, f: &mut Formatter<W>) -> Result<(), W::Error> {
        pieces!(
            text "line ", display self.line, text " differs\n given: ", debug self.given,
            text "\nstored: ", debug self.stored
        )
        .print(f)
    }
}

// Promise (programs): Comparing two texts returns `None` if and only if they are equal. Otherwise it returns
// the first line that differs, with a message that has this line and the text. Also: `compare_pretty`.
/// Returns the first line in which two texts differ, or `None` if they are equal.
pub fn first_difference<'a>(given: &'a str, stored: &'a str) -> Option<Difference<'a>>
    ensures equal { IsNone result ↔ (given.now ≡ stored.now) }
    ensures first { IfSome result (λ d. IsFirstDifference given.now stored.now d) }
{
    let mut given_left = Some(given);
    let mut stored_left = Some(stored);
    let mut line = 1;
    loop {
        let (given_line, given_rest) = cut_line(given_left);
        let (stored_line, stored_rest) = cut_line(stored_left);
        if given_line != stored_line {
            return Some(Difference {
                line,
                given: given_line,
                stored: stored_line,
            });
        }
        if given_line.is_none() {
            return None;
        }
        given_left = given_rest;
        stored_left = stored_rest;
        line += 1;
    }
}

// Returns the first line of what is left of a text, and what is left after it. After the last line
// nothing is left.
fn cut_line(left: Option<&str>) -> (Option<&str>, Option<&str>)
    ensures { CutsLine (option_copied left.entry) (option_copied result.0) (option_copied result.1) }
{
    let Some(text) = left else {
        return (None, None);
    };
    match text.split_once('\n') {
        Some((line, rest)) => (Some(line), Some(rest)),
        None => (Some(text), None),
    }
}
