//! Tests of `compare_pretty` and of `assert_snapshot!`.
use super::*;
use crate::assert_snapshot;

const STORED: &str = "\
[
    (
        1,
        \"a\",
    ),
]";

const MESSAGE: &str = "\
line 4 differs
 given: Some(\"        \\\"b\\\",\")
stored: Some(\"        \\\"a\\\",\")
The given text, to be stored if it is right:
[
    (
        1,
        \"b\",
    ),
]";

#[test]
fn compare_pretty_returns_a_message_where_texts_differ(rt: HostRuntime) {
    let same = compare_pretty(rt.alloc(), &[(1u8, "a")], STORED);
    assert!(rt; matches!(same, Ok(None)));
    let other = compare_pretty(rt.alloc(), &[(1u8, "b")], STORED);
    assert_eq!(rt; other.ok().flatten().as_deref(), Some(MESSAGE));
}

#[test]
fn assert_snapshot_takes_values_of_any_type(rt: HostRuntime) {
    assert_snapshot!(rt; &[(1u8, "a")], STORED);
    assert_snapshot!(rt; &7u8, "7");
    assert_snapshot!(rt; &"a\n", "\"a\\n\"");
}
