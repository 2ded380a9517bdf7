//! Asserts. Only a crate's own tests may take the handle that ends a test, so each crate of tests has these.
use std::fmt::Debug;
use std::process::Abort;
use test_rows::rows::Table;

// Checking an assert takes as long as checking twenty calls, so asserts are calls of these.
// No other function is generic over the handle: checking that takes as long again.
pub fn same<T: PartialEq + Debug + Drop>(rt: &impl Abort, given: T, wanted: T, case: &str) {
    assert_eq!(rt; given, wanted, "{case}");
}

/// Asserts that each row of the table is what is wanted of it.
pub fn has_wanted_rows(rt: &impl Abort, table: &Table) {
    let (given, wanted) = table.first_wrong_row();
    assert_eq!(rt; given, wanted);
}
