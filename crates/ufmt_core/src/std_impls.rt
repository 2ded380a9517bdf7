//! `uDebug` of what Rust has in `alloc` and `std` only, a file for each family.

mod hashed;
mod lists;
mod owned;
mod shared;
mod sorted;
mod texts_and_slices;
