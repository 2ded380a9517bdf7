//! A test of an array of more than 32 items. Texts of collections are rows of tools/data/rows, and their pieces are tested in `blocks`.
use super::asserts::same;
use test_rows::rows::{Table, repeated};

// ufmt 0.2.0 has arrays of at most 32.
#[test]
fn an_array_of_40_prints_as_by_core_fmt(rt: HostRuntime) {
    let mut table = Table::new(rt.alloc());
    table.texts(&[7u64; 40]);
    let mut expected = Table::new(rt.alloc());
    expected.put_both(
        repeated(rt.alloc(), "[7", ", 7", 39, "]"),
        repeated(rt.alloc(), "[\n", "    7,\n", 40, "]"),
    );
    same(&rt, table.text(), expected.text(), "sevens");
}
