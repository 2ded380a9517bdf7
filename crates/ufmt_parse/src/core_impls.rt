//! What Rust has in `core`, a file for each family.

mod cells;
mod characters;
mod enums;
mod floats;
mod integers;
mod nonzero;
pub mod options;
mod primitives;
mod ranges;
mod tuples;
mod wrappers;
