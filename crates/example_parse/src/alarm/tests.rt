//! Tests of `parse_alarm`.
use super::*;
use ufmt::plain_text;

const LINE: &str = "Alarm { node: 2, text: \"valve is \\\"open\\\"\" }";

#[test]
fn parse_alarm_returns_the_printed_alarm(rt: HostRuntime) {
    let printed = match parse_alarm(rt.alloc(), LINE.as_bytes()) {
        Ok(alarm) => plain_text(rt.alloc(), &alarm).ok(),
        Err(_) => None,
    };
    assert_eq!(rt; printed.as_deref(), Some(LINE));
}

#[test]
fn parse_alarm_fails_with_not_text_on_other_lines(rt: HostRuntime) {
    let rows = [
        ("", 0, Expected::Name),
        ("Alarm { node: 2 }", 15, Expected::Punctuation),
        ("Alarm { node: 65536, text: \"\" }", 14, Expected::Number),
        ("Alarm { node: 2, text: open }", 23, Expected::Text),
        ("Alarm { text: \"\", node: 2 }", 8, Expected::Name),
    ];
    for (line, at, expected) in rows {
        let error = parse_alarm(rt.alloc(), line.as_bytes()).err();
        assert_eq!(rt; error, Some(ParseError::NotText { at, expected }), "{line}");
    }
}
