//! `uDebug` of what Rust has in `core`, a file for each family. Numbers and tuples are in files beside this one.

pub mod cells;
mod enums;
mod floats;
mod primitives;
mod ranges;
mod references;
mod slices;
mod wrappers;
