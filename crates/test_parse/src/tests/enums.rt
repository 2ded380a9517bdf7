//! Tests of enums: each shape of variant, structs in variants beside other values, and long names.
pub(super) mod shapes;
pub mod structs;
