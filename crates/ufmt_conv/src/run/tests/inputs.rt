//! Tests of `run` on a table of inputs, with their outcomes and whole outputs.
use super::*;

// A plain text and the pretty text of the same document: nested blocks of each kind, and leaves in quotes, by
// themselves and in blocks.
const TEXTS: [(&str, &str); 20] = [
    ("[ab]", "[\n    ab,\n]"),
    (
        "Node { value: 1, next: Some(Node { value: 0, next: None }) }",
        "Node {\n    value: 1,\n    next: Some(\n        Node {\n            value: 0,\n            next: None,\n        },\n    ),\n}",
    ),
    (
        "{a: S { b: -1 }, c: ()}",
        "{\n    a: S {\n        b: -1,\n    },\n    c: (),\n}",
    ),
    ("S { x: y }", "S {\n    x: y,\n}"),
    ("{S { a: b }: c}", "{\n    S {\n        a: b,\n    }: c,\n}"),
    ("x", "x"),
    ("(x,)", "(\n    x,\n)"),
    ("n(x)", "n(\n    x,\n)"),
    ("[\"a, b\", 'c']", "[\n    \"a, b\",\n    'c',\n]"),
    ("\"\"", "\"\""),
    ("{\"k\": ()}", "{\n    \"k\": (),\n}"),
    ("{\"a\": \"b: c, d\"}", "{\n    \"a\": \"b: c, d\",\n}"),
    ("[\"]\", '}']", "[\n    \"]\",\n    '}',\n]"),
    ("\"\\u{1b}\"", "\"\\u{1b}\""),
    ("\"é\"", "\"é\""),
    ("'\"'", "'\"'"),
    ("\"'\"", "\"'\""),
    ("'\\''", "'\\''"),
    ("\"a\\\"b\\n\"", "\"a\\\"b\\n\""),
    ("\"\\u{7f}\"", "\"\\u{7f}\""),
];

// Inputs that are no plain text, and those that are no pretty text. They are empty, cut off, of the other mode, or with
// a space, comma or line feed too many or too few.
const NOT_PLAIN: [&str; 13] = [
    "",
    "\n",
    "[1,2]",
    "S { }",
    "n(1,)",
    "(1)",
    "{a: b, c}",
    "[1, ]",
    "[1",
    "a b",
    "[]\n\n",
    "[\n1]",
    "[\n    1,\n]",
];

const NOT_PRETTY: [&str; 9] = [
    "",
    "\n",
    "[\n   1,\n]",
    "[\n\t1,\n]",
    "[\n    1\n]",
    "[\n    1,\n]\n\n",
    "[\n    [\n        1,\n],\n]",
    "[\n1]",
    "[1]",
];

// Inputs that are no text of either mode: without quotes, in wrong quotes, or with quotes around a name.
const MISQUOTED: [&[u8]; 21] = [
    b"'''",
    b"\"\"\"",
    b"\"a",
    b"'ab'",
    b"''",
    b"\"\\x\"",
    b"\"\\u{41}\"",
    b"\"\\u{1B}\"",
    b"\"\\u{07f}\"",
    b"\"\\u{7F}\"",
    b"\"\\u{a}\"",
    b"'\\\"'",
    b"\"\\'\"",
    b"S { \"a\": b }",
    b"S {\n    \"a\": b,\n}",
    b"\"S\"(x)",
    b"\xc3\xa9",
    b"\"\t\"",
    b"\"\n\"",
    b"\"\x7f\"",
    b"\"\xff\"",
];

// Whether runs have this outcome and write exactly this: by one byte a call, by two and by all, as the input is and
// with a line feed after one that has none at its end.
fn are_right(
    alloc: Global,
    command: Command,
    input: &[u8],
    outcome: Result<(), Fault>,
    written: &[u8],
) -> Result<bool, AllocError> {
    let mut line = Vec::from_slice(alloc, input)?;
    if !input.ends_with(b"\n") {
        line.push(b'\n')?;
    }
    let wanted = [wanted(outcome); 3];
    Ok(
        rans_by_any(alloc, command, input, written) == wanted
            && rans_by_any(alloc, command, &line, written) == wanted,
    )
}

// Whether runs write the other text and a line feed.
fn are_converted(
    alloc: Global,
    command: Command,
    text: &str,
    other: &str,
) -> Result<bool, AllocError> {
    let mut written = String::from_str(alloc, other)?;
    written.push('\n')?;
    are_right(alloc, command, text.as_bytes(), Ok(()), written.as_bytes())
}

#[test]
fn texts_are_converted(rt: HostRuntime) {
    let readme = (README_PLAIN.trim_end(), README_PRETTY.trim_end());
    for (plain, pretty) in TEXTS.into_iter().chain([readme]) {
        let to_pretty = are_converted(rt.alloc(), Command::Pretty, plain, pretty);
        let to_plain = are_converted(rt.alloc(), Command::Plain, pretty, plain);
        same(&rt, (to_pretty, to_plain), (Ok(true), Ok(true)), plain);
    }
}

// Whether runs refuse the input, and write nothing.
fn are_refused(alloc: Global, command: Command, input: &[u8]) -> Result<bool, AllocError> {
    let fault = match command {
        Command::Plain => Fault::NotPretty,
        Command::Pretty | Command::Lengths => Fault::NotPlain,
    };
    are_right(alloc, command, input, Err(fault), b"")
}

#[test]
fn other_inputs_are_refused(rt: HostRuntime) {
    for input in NOT_PLAIN {
        let given = are_refused(rt.alloc(), Command::Pretty, input.as_bytes());
        same(&rt, given, Ok(true), input);
    }
    for input in NOT_PRETTY {
        let given = are_refused(rt.alloc(), Command::Plain, input.as_bytes());
        same(&rt, given, Ok(true), input);
    }
    for input in MISQUOTED {
        for command in [Command::Pretty, Command::Plain] {
            let given = are_refused(rt.alloc(), command, input);
            same(&rt, (input, given), (input, Ok(true)), "in wrong quotes");
        }
    }
}
