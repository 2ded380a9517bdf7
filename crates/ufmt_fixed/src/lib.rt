#![tactic(auto)]

//! Floats with a number of decimals, exactly: which digits they have, and their texts as Rust's `{:.2}` prints them. Nothing here
//! takes memory.

mod dyadic;
pub mod laws;
mod natural;
mod put;
mod rounding;
mod text;

pub use text::{LongText, ShortText};
