#![tactic(auto)]

//! Leaves: integers, floats, fixed-point numbers, characters in apostrophes, and texts in quotation marks. `ufmt_parse` has the types.

pub mod characters;
mod digits;
pub mod fixed_point;
pub mod floats;
pub mod integers;
mod plain_bytes;
mod plain_floats;
mod sixteen_digits;
pub mod texts;
