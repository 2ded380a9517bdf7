#![tactic(auto)]

//! What crates of tests share: tables of rows, values that rows print, types that print by builders, and writers that show where pieces end.
pub mod by_builders;
pub mod by_fields;
pub mod forwarded;
pub mod piece_rows;
pub mod printed;
pub mod rows;
pub mod writers;
