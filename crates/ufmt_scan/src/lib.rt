#![tactic(auto)]

//! Scanning the texts of token documents and debug documents, and converting plain ones to pretty ones
//! and back.

pub mod convert;
mod debug_leaf;
pub mod error;
mod front;
pub mod laws;
pub mod leaf;
mod level;
mod markers;
pub mod mode;
mod place;
mod quoted;
pub mod scan;
mod strip;
mod text;

pub use front::split_name;
pub use place::valid_up_to;
pub use text::{FrontText, begins_with_field, front_text, is_text};

/// What the crates beside this one call. It isn't for users: any version may change it.
pub mod internal {
    pub use crate::quoted::{character_len, digit_value, split_escaped};
    pub use crate::strip::{
        begins_with, is_spaced, setting_in, strip_byte, strip_closing, strip_eight,
        strip_first_lead, strip_four, strip_to_line, strip_two,
    };
}
