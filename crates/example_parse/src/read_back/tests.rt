//! Tests of `celsius`.
use super::*;
use example_print::Measurement;
use std::process::Abort;
use std::test::Fail;
use ufmt::plain_text;

fn same(rt: &impl Abort, given: Option<&str>, wanted: Option<&str>, line: &str) {
    assert_eq!(rt; given, wanted, "{line}");
}

#[test]
fn celsius_reads_back_what_was_printed(rt: HostRuntime) -> Result<(), Fail> {
    for (celsius_of, wanted) in [(-4, "-4"), (0, "0"), (i32::MIN, "-2147483648")] {
        let measurement = Measurement {
            channel: 3,
            celsius: celsius_of,
        };
        let line = plain_text(rt.alloc(), &measurement)?;
        let found = celsius(rt.alloc(), line.as_bytes())?;
        same(&rt, found.as_deref(), Some(wanted), &line);
    }
    Ok(())
}

#[test]
fn celsius_of_other_lines_fails_with_not_text(rt: HostRuntime) {
    for line in [
        "",
        "Measurement { channel: 3, celsius: }",
        "Measurement { channel: 3",
    ] {
        let refused = match celsius(rt.alloc(), line.as_bytes()) {
            Err(ReadError::NotText) => Some("not a text"),
            _ => None,
        };
        same(&rt, refused, Some("not a text"), line);
    }
}
