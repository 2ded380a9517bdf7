//! `uDisplay`: values as a user reads them.
ghost use Rattle.std.specs.Prelude.{is_ok};
ghost use Rattle.ufmt_core.specs.Document.{Document};
ghost use Rattle.ufmt_core.specs.Formatter.{LaysOut};

mod core_impls;
mod floats;
mod integers;
mod nonzero;
mod std_impls;

use ufmt_core::{Formatter, uWrite};

/// A value that prints itself as Rust's `{}` would.
pub trait uDisplay {
    /// The document whose layout is the value's text.
    ghost display: { Self → Document };

    /// Appends the layout of the value's document in the formatter's mode and from its depth. On
    /// `Err` a prefix of the layout was appended. Mode, depth and the writer's identity are as before.
    fn fmt<W>(&self, f: &mut Formatter<W>) -> Result<(), W::Error>
    where
        W: uWrite,
        ensures { LaysOut W.seen f.old (display self.now) (is_ok result) f.new };
}
