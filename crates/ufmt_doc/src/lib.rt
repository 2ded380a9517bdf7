#![tactic(auto)]

//! Documents as values, and readers of their texts.

pub mod doc;
pub mod field_text;
pub mod laws;
mod reader;

pub use doc::{DebugDoc, DebugName, Doc, StructName, Tree};
pub use field_text::read_field;
pub use reader::{read_debug, read_plain, read_pretty};
pub use ufmt_scan::error::ReadError;
pub use ufmt_scan::{convert, is_text, scan, valid_up_to};

/// Reading plain texts.
pub mod plain_reader {
    pub use crate::reader::read_plain;
    pub use ufmt_scan::error::ReadError;
}

/// Reading pretty texts.
pub mod pretty_reader {
    pub use crate::reader::read_pretty;
}
