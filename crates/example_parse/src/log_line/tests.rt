//! Tests of `pretty_line` and `is_readable`.
use super::*;
use std::process::Abort;
use std::test::Fail;

const MEASUREMENT: &str = "Measurement { channel: 3, celsius: -4 }";

// Its pretty text has 637 bytes.
const LONG: &str = "[[[[[[[[[[[[1]]]]]]]]]]]]";

// Asserts what is returned for a line, and what the buffer then has.
fn same(rt: &impl Abort, line: &str, wanted: Result<&str, &str>) {
    let mut buffer = [b'#'; 256];
    let text = match pretty_line(line.as_bytes(), &mut buffer) {
        Ok(length) => {
            assert_eq!(rt; Ok(length), wanted.map(str::len), "{line}");
            wanted
        }
        Err(ScanError::NotText) => Err("not text"),
        Err(ScanError::Sink(Full)) => Err("full"),
    };
    assert_eq!(rt; text, wanted, "{line}");
    if let Ok(text) = wanted {
        assert!(rt; buffer.starts_with(text.as_bytes()), "{line}");
        assert!(rt;
            buffer.iter().skip(text.len()).all(|byte| *byte == b'#'),
            "{line}"
        );
    }
}

#[test]
fn pretty_line_writes_a_pretty_text_at_the_front(rt: HostRuntime) -> Result<(), Fail> {
    let rows = [
        (
            MEASUREMENT,
            Ok("Measurement {\n    channel: 3,\n    celsius: -4,\n}"),
        ),
        ("()", Ok("()")),
        ("[[]]", Ok("[\n    [],\n]")),
        ("Measurement { channel: 3", Err("not text")),
        (LONG, Err("full")),
    ];
    for (line, wanted) in rows {
        same(&rt, line, wanted);
    }
    Ok(())
}

#[test]
fn is_readable_is_true_only_of_plain_texts(rt: HostRuntime) {
    let readable = [
        "Measurement { channel: 3, celsius: -4 }",
        "[1, {}, ()]",
        "\"a\\n\"",
    ];
    for line in readable {
        assert!(rt; is_readable(line.as_bytes()), "{line}");
    }
    let others = [
        "",
        "Measurement { channel: 3, celsius: -4 } ",
        "Measurement {channel: 3}",
        "[1,2]",
        "\"a\n\"",
    ];
    for line in others {
        assert!(rt; !is_readable(line.as_bytes()), "{line}");
    }
}
