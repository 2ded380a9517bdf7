//! Tests of what no clause says of the scanner, readers, conversions and documents: documents that no text makes, sinks
//! and writers that fail, and laws. Texts and what each call makes of them are rows of tools/data/rows.
mod classes;
mod laws;
mod leaves;
mod line_fields;
mod nested_lists;
mod normalize;
mod parts;
mod pieces;
mod quoted;
mod same_text;
mod scan;
mod shape;
mod to_writers;

use std::fmt::Debug;
use std::process::Abort;

// Checking an assert takes as long as checking twenty calls, so asserts are calls of these two.
// No other function is generic over the handle: checking that takes as long again.
pub fn same<T: PartialEq + Debug + Drop>(rt: &impl Abort, given: T, wanted: T, case: &str) {
    assert_eq!(rt; given, wanted, "{case}");
}

pub fn holds(rt: &impl Abort, condition: bool, case: &str) {
    assert!(rt; condition, "{case}");
}
