//! What there is once for each number of fields, from one to twelve. `x generate` writes the files in this folder.

mod field_parsers;
pub mod structs;
pub mod tuples;
