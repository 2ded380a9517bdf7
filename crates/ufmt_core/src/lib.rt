#![tactic(auto, using(crate::specs::Formatter::lays_out))]

//! Formatting without `core::fmt`: writers, the formatter, its builders and the trait `uDebug`.
ghost use Rattle.std.specs.Prelude.{is_ok};
ghost use Rattle.ufmt_core.specs.Document.{Document};
ghost use Rattle.ufmt_core.specs.Formatter.{LaysOut};

mod ascii;
mod copying;
mod core_impls;
pub mod cursor;
mod formatter;
pub mod laws;
pub mod layout;
mod list;
mod map;
mod nonzero;
mod quoted;
mod set;
mod signed;
mod std_impls;
mod structs;
mod tuple;
mod tuple_impls;
mod unsigned;
mod write;

pub use core_impls::cells;
pub use cursor::{Cursor, Full};
pub use formatter::Formatter;
pub use list::DebugList;
pub use map::DebugMap;
pub use set::DebugSet;
pub use structs::{DebugStruct, NamedFields};
pub use tuple::{DebugTuple, UnnamedFields};
pub use write::uWrite;

/// What the crates beside this one call. It isn't for users: any version may change it.
pub mod internal {
    pub use crate::ascii::text_from;
    pub use crate::copying::put;
    pub use crate::quoted::{escape, unescaped_len};
    pub use crate::unsigned::{text_of_u64, text_of_u128};
}

/// A value that prints itself as Rust's `{:?}` and `{:#?}` would.
pub trait uDebug {
    /// The document whose layout is the value's text.
    ghost document: { Self → Document };

    // Promise (printing): A call that prints leaves the formatter's mode and depth, and the `identity` of its
    // writer, as they were. Also: `ufmt::uDisplay::fmt`.
    // Promise (headline): Part 3: `fmt` appends the layout of the value's document, in either mode and from
    // any depth, to a writer whose text is known. If it returns `Err`, it has appended a prefix. Also:
    // `ufmt::uDisplay::fmt`.
    /// Appends the layout of the value's document in the formatter's mode and from its depth. On
    /// `Err` a prefix of the layout was appended. Mode, depth and the writer's identity are as before.
    fn fmt<W>(&self, f: &mut Formatter<W>) -> Result<(), W::Error>
    where
        W: uWrite,
        ensures { LaysOut W.seen f.old (document self.now) (is_ok result) f.new };
}
