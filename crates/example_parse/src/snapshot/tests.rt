//! Tests of `print_alike` and `changes`, and a snapshot.
use super::*;
use std::process::Abort;
use std::test::Fail;
use ufmt_doc::Doc;
use ufmt_snapshot::assert_snapshot;

fn same(rt: &impl Abort, given: bool, wanted: bool, case: &str) {
    assert_eq!(rt; given, wanted, "{case}");
}

#[test]
fn print_alike_compares_texts(rt: HostRuntime) -> Result<(), Fail> {
    let alloc = rt.alloc();
    let empty_set = Doc::SetOf(Vec::new(alloc));
    let empty_map = Doc::MapOf(Vec::new(alloc));
    same(&rt, print_alike(alloc, &7u8, &7i64)?, true, "two types");
    same(&rt, print_alike(alloc, &7u8, &8u8)?, false, "two numbers");
    same(&rt, print_alike(alloc, &[1u8], &(1u8,))?, false, "brackets");
    same(
        &rt,
        print_alike(alloc, &empty_set, &empty_map)?,
        true,
        "empty braces",
    );
    Ok(())
}

const MEASUREMENT: Measurement = Measurement {
    channel: 3,
    celsius: -4,
};

#[test]
fn a_measurement_prints_as_stored(rt: HostRuntime) {
    assert_snapshot!(rt; &MEASUREMENT, "\
Measurement {
    channel: 3,
    celsius: -4,
}");
}

#[test]
fn changes_says_where_a_measurement_differs(rt: HostRuntime) {
    let same = changes(
        rt.alloc(),
        &MEASUREMENT,
        "Measurement {\n    channel: 3,\n    celsius: -4,\n}",
    );
    assert!(rt; matches!(same, Ok(None)));
    let shorter = changes(
        rt.alloc(),
        &MEASUREMENT,
        "Measurement {\n    channel: 3,\n}",
    );
    let wanted = "\
line 3 differs
 given: Some(\"    celsius: -4,\")
stored: Some(\"}\")
The given text, to be stored if it is right:
Measurement {
    channel: 3,
    celsius: -4,
}";
    assert_eq!(rt; shorter.ok().flatten().as_deref(), Some(wanted));
}
