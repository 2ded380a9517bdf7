#![tactic(auto)]

//! Finds the values in a text such as a line of a log.

mod field;
pub mod laws;
mod search;
mod values;

pub use field::{Field, field_of, find_field};
pub use values::{
    before_bracket, is_after_name, is_closing, is_name_byte, is_opening, next_bracket, run_start,
    value_at, value_from, value_start, values_end,
};

/// What the crates beside this one call. It isn't for users: any version may change it.
pub mod internal {
    pub use crate::search::{LineFeed, len_before_first, len_through_last};
}
