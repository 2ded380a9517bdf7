//! Tests of `first_difference`, and of how a difference prints.
use super::*;
use std::alloc::{AllocError, Global};
use ufmt::write_line;

// What the line prints.
fn printed<L: Line>(alloc: Global, line: &L) -> Result<String, AllocError> {
    let mut text = String::new(alloc);
    write_line(&mut text, line)?;
    Ok(text)
}

// Two texts, and what a Rust function returns that compares their `split('\n')`.
const PAIRS: [(&str, &str, &str); 23] = [
    ("", "", "None"),
    ("a\nb\n", "a\nb\n", "None"),
    (
        "x\nb\nc",
        "a\nb\nc",
        "Some(Difference { line: 1, given: Some(\"x\"), stored: Some(\"a\") })",
    ),
    (
        "a\nx\nc",
        "a\nb\nc",
        "Some(Difference { line: 2, given: Some(\"x\"), stored: Some(\"b\") })",
    ),
    (
        "a\nb\nx",
        "a\nb\nc",
        "Some(Difference { line: 3, given: Some(\"x\"), stored: Some(\"c\") })",
    ),
    (
        "x\ny\nz",
        "a\nb\nc",
        "Some(Difference { line: 1, given: Some(\"x\"), stored: Some(\"a\") })",
    ),
    (
        "a\nb",
        "a\nb\nc",
        "Some(Difference { line: 3, given: None, stored: Some(\"c\") })",
    ),
    (
        "a\nb\nc\nd",
        "a\nb",
        "Some(Difference { line: 3, given: Some(\"c\"), stored: None })",
    ),
    (
        "a",
        "a\n",
        "Some(Difference { line: 2, given: None, stored: Some(\"\") })",
    ),
    (
        "a\n",
        "a",
        "Some(Difference { line: 2, given: Some(\"\"), stored: None })",
    ),
    (
        "",
        "\n",
        "Some(Difference { line: 2, given: None, stored: Some(\"\") })",
    ),
    (
        "",
        "a",
        "Some(Difference { line: 1, given: Some(\"\"), stored: Some(\"a\") })",
    ),
    (
        "a",
        "",
        "Some(Difference { line: 1, given: Some(\"a\"), stored: Some(\"\") })",
    ),
    (
        "\n\n",
        "\n",
        "Some(Difference { line: 3, given: Some(\"\"), stored: None })",
    ),
    (
        "ab",
        "a",
        "Some(Difference { line: 1, given: Some(\"ab\"), stored: Some(\"a\") })",
    ),
    (
        "a",
        "a\nb",
        "Some(Difference { line: 2, given: None, stored: Some(\"b\") })",
    ),
    (
        "α\nβ",
        "α\nγ",
        "Some(Difference { line: 2, given: Some(\"β\"), stored: Some(\"γ\") })",
    ),
    (
        "a\r\nb",
        "a\nb",
        "Some(Difference { line: 1, given: Some(\"a\\r\"), stored: Some(\"a\") })",
    ),
    (
        "a\rb",
        "a\r",
        "Some(Difference { line: 1, given: Some(\"a\\rb\"), stored: Some(\"a\\r\") })",
    ),
    (
        "\r",
        "\n",
        "Some(Difference { line: 1, given: Some(\"\\r\"), stored: Some(\"\") })",
    ),
    (
        "a ",
        "a",
        "Some(Difference { line: 1, given: Some(\"a \"), stored: Some(\"a\") })",
    ),
    (
        "a\n\nb",
        "a\nb",
        "Some(Difference { line: 2, given: Some(\"\"), stored: Some(\"b\") })",
    ),
    (
        "b\na",
        "a\na",
        "Some(Difference { line: 1, given: Some(\"b\"), stored: Some(\"a\") })",
    ),
];

#[test]
fn first_difference_finds_the_first_line_that_differs(rt: HostRuntime) {
    for (given, stored, wanted) in PAIRS {
        let found = printed(rt.alloc(), &pieces!(debug first_difference(given, stored)));
        assert_eq!(rt;
            found.as_deref().ok(),
            Some(wanted),
            "{given:?} and {stored:?}"
        );
    }
}

fn message_of(alloc: Global, given: &str, stored: &str) -> Result<String, AllocError> {
    match first_difference(given, stored) {
        Some(found) => printed(alloc, &found),
        None => Ok(String::new(alloc)),
    }
}

#[test]
fn a_difference_prints_as_a_message(rt: HostRuntime) {
    for (given, stored, wanted) in [
        (
            "a\nb ",
            "a\nb",
            "\
line 2 differs
 given: Some(\"b \")
stored: Some(\"b\")",
        ),
        (
            "\n\n\n\n\n\n\n\n\n\n\n",
            "\n\n\n\n\n\n\n\n\n\n",
            "\
line 12 differs
 given: Some(\"\")
stored: None",
        ),
    ] {
        let message = message_of(rt.alloc(), given, stored);
        assert_eq!(rt; message.as_deref().ok(), Some(wanted));
    }
}
