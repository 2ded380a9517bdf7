//! Numbers in a notation: hexadecimal, the digits of a radix, or decimal digits with zeros before them. The traits of
//! the three notations are built on this one, so a number has one `impl` for all of them.
ghost use Rattle.std.specs.Prelude.{◌≡◌, List, ℕ, IsTrue, is_ok};
ghost use Rattle.ufmt_core.specs.Formatter.{Prints};

mod core_impls;
mod integers;
mod nonzero;
pub(crate) mod notation;

use notation::Notation;
use ufmt_core::{Formatter, uWrite};

/// A value that prints itself in a notation. Not for users: they implement the notation's own trait.
pub trait InNotation<N: Notation> {
    /// The value's text.
    ghost text: { Self → N → List ℕ };

    /// Writes the value's text. On `Err` a prefix of it was written.
    fn write_in<W: uWrite>(&self, f: &mut Formatter<W>, notation: N) -> Result<(), W::Error>
        requires { N.is_ascii notation }
        ensures { Prints W.seen f.old (text self.now notation) (is_ok result) f.new };

    /// Whether padding makes each text of the value exactly as long as the notation asks.
    fn pads_in(&self) -> bool
        ensures { IsTrue result → N.pads (text self.now) };
}
