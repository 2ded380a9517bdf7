#![tactic(auto)]

//! The shortest decimals of floats, and their texts as Rust prints them. Nothing here takes memory.

mod choice;
mod digits;
pub mod laws;
mod limbs;
mod narrow;
mod parts;
mod powers;
mod put;
mod ratio;
mod scale;
mod text;
mod wide;
mod words;

pub use digits::{Decimal, shortest};
pub use parts::Float;
pub use text::{DebugText, DisplayText};

/// What the crates beside this one call. It isn't for users: any version may change it.
pub mod internal {
    pub use crate::put::{digit_pair, put_byte, put_last_digits, put_sign, put_word};
    pub use crate::words::{WORD_DIGITS, WORD_FIVES, high_word, low_word};
}
