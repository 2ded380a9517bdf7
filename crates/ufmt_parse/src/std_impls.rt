//! What Rust has in `alloc` and `std`, a file for each family.

pub mod boxes;
mod queues_and_slices;
mod shared;
mod sorted;
mod texts;
pub mod vectors;
