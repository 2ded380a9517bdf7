//! Lines and groups of lines, and their outputs: those of the model of `tools/lib/log_model/log_model.py`.
use super::*;

// Lines of which values of every length are made pretty, and the same made pretty. Made plain, they come back.
const LINES: [(&[u8], &[u8]); 41] = [
    (
        b"12:00 INFO got Reading { channel: 3, gain: 2 }",
        b"12:00 INFO got Reading {\n    channel: 3,\n    gain: 2,\n}",
    ),
    (
        b"a Pair(-1, Some(2))",
        b"a Pair(\n    -1,\n    Some(\n        2,\n    ),\n)",
    ),
    (b"list: [1, 2]", b"list: [\n    1,\n    2,\n]"),
    (
        b"nested [[1], []]",
        b"nested [\n    [\n        1,\n    ],\n    [],\n]",
    ),
    (
        b"set = {\"a b\", \"c\"}",
        b"set = {\n    \"a b\",\n    \"c\",\n}",
    ),
    (
        b"map = {\"k\": (1, 2), \"l\": (3, 4)}",
        b"map = {\n    \"k\": (\n        1,\n        2,\n    ),\n    \"l\": (\n        3,\n        4,\n    ),\n}",
    ),
    (
        b"node Node { value: 1, next: Some(Node { value: 0, next: None }) }",
        b"node Node {\n    value: 1,\n    next: Some(\n        Node {\n            value: 0,\n            next: None,\n        },\n    ),\n}",
    ),
    (
        b"said Said { text: \"a [b] \\\"c [d]\\\"\", end: ' ' }",
        b"said Said {\n    text: \"a [b] \\\"c [d]\\\"\",\n    end: ' ',\n}",
    ),
    (b"got [1, 2].", b"got [\n    1,\n    2,\n]."),
    (b"[1, 2]\r", b"[\n    1,\n    2,\n]\r"),
    (b"\t[1, 2]\tend", b"\t[\n    1,\n    2,\n]\tend"),
    (
        b"x=[1, 2], y=(3, 4); z",
        b"x=[\n    1,\n    2,\n], y=(\n    3,\n    4,\n); z",
    ),
    (
        b"key=Point { x: 1.5, y: -2.0 } other=1",
        b"key=Point {\n    x: 1.5,\n    y: -2.0,\n} other=1",
    ),
    (
        b"\x1b[3mpoint\x1b[0m=Point { x: 1, y: 2 }\x1b[0m",
        b"\x1b[3mpoint\x1b[0m=Point {\n    x: 1,\n    y: 2,\n}\x1b[0m",
    ),
    (
        b"Mutex { data: 0, poisoned: false, .. }: locked",
        b"Mutex {\n    data: 0,\n    poisoned: false,\n    ..\n}: locked",
    ),
    (
        b"(Sender { .. }, Receiver { .. })",
        b"(\n    Sender { .. },\n    Receiver { .. },\n)",
    ),
    (b"(a, [b, c]", b"(a, [\n    b,\n    c,\n]"),
    (
        b"[a, b] [c, d] [e, f]",
        b"[\n    a,\n    b,\n] [\n    c,\n    d,\n] [\n    e,\n    f,\n]",
    ),
    (
        b"[[a, b], (c, d)",
        b"[[\n    a,\n    b,\n], (\n    c,\n    d,\n)",
    ),
    (
        b"(a, (a, (a, (a, (a, (a, (a, [b, c] d",
        b"(a, (a, (a, (a, (a, (a, (a, [\n    b,\n    c,\n] d",
    ),
    (
        b"[[[[[[[[[f(), 'a', (\"[[[\", b)] c",
        b"[[[[[[[[[\n    f(),\n    'a',\n    (\n        \"[[[\",\n        b,\n    ),\n] c",
    ),
    (b"S [b, c]", b"S [\n    b,\n    c,\n]"),
    (b"\"a [b, c]", b"\"a [\n    b,\n    c,\n]"),
    (b"\xff [b, c] \xfe", b"\xff [\n    b,\n    c,\n] \xfe"),
    (
        b"\xc3\xa9: [\xc3\xa9, \"\xc3\xa9\"]",
        b"\xc3\xa9: [\n    \xc3\xa9,\n    \"\xc3\xa9\",\n]",
    ),
    (b"a {b, c}", b"a {\n    b,\n    c,\n}"),
    (b"a: {b: c, d: e}", b"a: {\n    b: c,\n    d: e,\n}"),
    (b"a{b: c, d: e}", b"a{\n    b: c,\n    d: e,\n}"),
    (b"{b: c, d: e}", b"{\n    b: c,\n    d: e,\n}"),
    (b"a  {b: c, d: e}", b"a  {\n    b: c,\n    d: e,\n}"),
    (
        b"f(3, 4)g(5, 6)",
        b"f(\n    3,\n    4,\n)g(\n    5,\n    6,\n)",
    ),
    (
        b"::f(1, 2) f:(1, 2)",
        b"::f(\n    1,\n    2,\n) f:(\n    1,\n    2,\n)",
    ),
    (b"[::1]:80(1, 2)", b"[::1]:80(\n    1,\n    2,\n)"),
    (
        b"call f() then [f(), g()]",
        b"call f() then [\n    f(),\n    g(),\n]",
    ),
    (b"[(Weak), [::1]:80]", b"[\n    (Weak),\n    [::1]:80,\n]"),
    (b"( [ { (1, 2) } ]", b"( [ { (\n    1,\n    2,\n) } ]"),
    (
        b"(\\' (\\' ', ) [1, 2]",
        b"(\\' (\\' ', ) [\n    1,\n    2,\n]",
    ),
    (b"[\"\\\"\", 'x']", b"[\n    \"\\\"\",\n    'x',\n]"),
    (
        b"x S { a: \"\\\"\", b: 1 } y",
        b"x S {\n    a: \"\\\"\",\n    b: 1,\n} y",
    ),
    (b"((((((1, 2)", b"((((((\n    1,\n    2,\n)"),
    (
        b"a [1, 2]b(3, 4)",
        b"a [\n    1,\n    2,\n]b(\n    3,\n    4,\n)",
    ),
];

// Lines that stay: without a value, with values of one leaf, and maps that would read as structs.
const OTHERS: [&[u8]; 31] = [
    b"",
    b" ",
    b"word",
    b"two words",
    b"[1,2]",
    b"[1",
    b"S { }",
    b"n(1,)",
    b"(1)",
    b"()",
    b"took f()",
    b"took (Weak)",
    b"{\"a\":1}",
    b"{}",
    b"}",
    b") ] }",
    b"[] {} ()",
    b"Once { .. }",
    b"S { ... }",
    b"[\"\\\"]",
    b"\xff\xfe",
    b"Ok(())",
    b"[12/40]",
    b"printf(3)",
    b"[ok]",
    b"Some(Some(1))",
    b"(1,)",
    b"Reading { channel: 3 }",
    b"S { a: [], .. }",
    b"a {b: c, d: e}",
    b"a {b: [c, d], e: {f, g}}",
];

// Lines, and the same with values of more than forty bytes made pretty. Made plain, they come back.
const BY_LENGTH: [(&[u8], &[u8]); 12] = [
    (b"x [1, 2] y", b"x [1, 2] y"),
    (b"x [1, 2] y", b"x [1, 2] y"),
    (
        b"x [1, 222222222222222222222222222222222] y",
        b"x [1, 222222222222222222222222222222222] y",
    ),
    (
        b"x [1, 2222222222222222222222222222222222] y",
        b"x [1, 2222222222222222222222222222222222] y",
    ),
    (
        b"x [1, 22222222222222222222222222222222222] y",
        b"x [1, 22222222222222222222222222222222222] y",
    ),
    (
        b"[aaaaaaaaaaaaaaaaaaaaaaaaaaaaaaaaaaaaaaaaaaaaaaaaaaaaaaaaaaaa]",
        b"[aaaaaaaaaaaaaaaaaaaaaaaaaaaaaaaaaaaaaaaaaaaaaaaaaaaaaaaaaaaa]",
    ),
    (
        b"Some(Some(\"b cb cb cb cb cb cb cb cb cb cb cb cb cb cb cb cb cb cb cb c\"))",
        b"Some(Some(\"b cb cb cb cb cb cb cb cb cb cb cb cb cb cb cb cb cb cb cb c\"))",
    ),
    (
        b"m {a: bbbbbbbbbbbbbbbbbbbbbbbbbbbbbbbbbbbbbbbbbbbbbbbbbb, c: d}",
        b"m {a: bbbbbbbbbbbbbbbbbbbbbbbbbbbbbbbbbbbbbbbbbbbbbbbbbb, c: d}",
    ),
    (
        b"m {1: bbbbbbbbbbbbbbbbbbbbbbbbbbbbbbbbbbbbbbbbbbbbbbbbbb, c: d}",
        b"m {1: bbbbbbbbbbbbbbbbbbbbbbbbbbbbbbbbbbbbbbbbbbbbbbbbbb, c: d}",
    ),
    (
        b"S { a: [1, 2], b: cccccccccccccccccccccccccccccccccccccccc } [1, 2]",
        b"S {\n    a: [\n        1,\n        2,\n    ],\n    b: cccccccccccccccccccccccccccccccccccccccc,\n} [1, 2]",
    ),
    (
        b"[1, 2] S { a: [1, 2], b: cccccccccccccccccccccccccccccccccccccccc }",
        b"[1, 2] S {\n    a: [\n        1,\n        2,\n    ],\n    b: cccccccccccccccccccccccccccccccccccccccc,\n}",
    ),
    (
        b"([1, 2], [3, 4], [5, 6], [7, 8], [9, 10], 11)",
        b"(\n    [\n        1,\n        2,\n    ],\n    [\n        3,\n        4,\n    ],\n    [\n        5,\n        6,\n    ],\n    [\n        7,\n        8,\n    ],\n    [\n        9,\n        10,\n    ],\n    11,\n)",
    ),
];

// Groups of lines, and the same with pretty texts made plain.
const GROUPS: [(&[u8], &[u8]); 27] = [
    (b"a [\n    1,\n]\nb", b"a [1]\nb"),
    (b"[\n    1,\n]\n[\n    2,\n]", b"[1]\n[2]"),
    (b"\n(\n    1,\n)\n\n", b"\n(1,)\n\n"),
    (b"a [\n\nb [\n    1,\n]", b"a [\n\nb [1]"),
    (b"a [\nword\nb [\n    1,\n]", b"a [\nword\nb [1]"),
    (b"a [\nS {\n    b: c,\n}\nend", b"a [\nS { b: c }\nend"),
    (b"a [\n    b [\n    1,\n]", b"a [\n    b [1]"),
    (b"a [\n    S {\n        b: 1,\n    },\n]", b"a [S { b: 1 }]"),
    (b"a [\n    1,\n] [\n    2,\n]", b"a [1] [2]"),
    (
        b"a [\n    1,\n], b=(\n    2,\n).\nend",
        b"a [1], b=(2).\nend",
    ),
    (b"  at\n  [\n    1,\n]", b"  at\n  [1]"),
    (b"\xff [\n    1,\n]\n\xfe", b"\xff [1]\n\xfe"),
    (
        b"a M {\n    b: c,\n    ..\n}\nend",
        b"a M { b: c, .. }\nend",
    ),
    (b"a=[\n    1,\n]\r", b"a=[1]\r"),
    (b"m {\n    a: b,\n}", b"m { a: b }"),
    (b"m {\n    1: b,\n}", b"m { 1: b }"),
    (b"m: {\n    a: b,\n}", b"m: {a: b}"),
    (b"m {\n    [\n        1,\n    ]: b,\n}", b"m {[1]: b}"),
    (b"m {\n    a,\n}", b"m {a}"),
    (b"m {\n    a.b: [\n        1,\n    ],\n}", b"m { a.b: [1] }"),
    (b"x{\n    a: b,\n}", b"x{a: b}"),
    (
        b"Some(\n    [\n        1,\n    ],\n) [1, 2] (\n    2,\n)",
        b"Some([1]) [1, 2] (2,)",
    ),
    (
        b"a {\nb {\nc(\nS {\n    d: e,\n}\n",
        b"a {\nb {\nc(\nS { d: e }\n",
    ),
    (
        b"x [\n    1,\n] b [\n    2,\n](\n    3,\n)",
        b"x [1] b [2](3,)",
    ),
    (
        b"a [\n    b {\nS {\n    c: [\n        1,\n    ],\n}\n",
        b"a [\n    b {\nS { c: [1] }\n",
    ),
    (b"  a [\n    1,\n]\n  b(\n    2,\n)", b"  a [1]\n  b(2)"),
    (b"x: {\n    a: b,\n}\nx  {\n    a,\n}", b"x: {a: b}\nx  {a}"),
];

// Groups of lines that stay as they are.
const OTHER_GROUPS: [&[u8]; 19] = [
    b"a [\n    b [\n        1,\n    ],\n]",
    b"a [",
    b"a [\n",
    b"a [\n    1,",
    b"a [\n    1,\nb",
    b"a [\n    1,\n}",
    b"a [\n    1\n]",
    b"a [\n  1,\n]",
    b"a [\n    1, 2,\n]",
    b"a [\n\n    1,\n]",
    b"a [\n]",
    b"a [\r\n    1,\r\n]\r",
    b"a [ \n    1,\n]",
    b"{\n    \"a\": 1,\n    \"b\": [2]\n}",
    b"[\n    [\n    1,\n    ],\n]",
    b"M {\n    a: 1,\n..\n}",
    b"M {\n    ..\n}",
    b"[\n    1,\n    ..\n]",
    b"{\n,(:,)",
];

// Whether a run over the lines, and over the lines and a line feed, writes this output.
fn is_written(
    alloc: Global,
    conversion: Conversion,
    line: &[u8],
    output: &[u8],
) -> Result<bool, AllocError> {
    let whole = ran_by(alloc, conversion, line, WHOLE, output);
    let mut ended = Vec::from_slice(alloc, line)?;
    ended.push(b'\n')?;
    let mut output = Vec::from_slice(alloc, output)?;
    output.push(b'\n')?;
    let by_line = ran_by(alloc, conversion, &ended, WHOLE, &output);
    let by_bytes = ran_by(alloc, conversion, &ended, 1, &output);
    let wanted = wanted(Ok(()));
    Ok(whole == wanted && by_line == wanted && by_bytes == wanted)
}

#[test]
fn values_are_made_pretty(rt: HostRuntime) {
    for (line, output) in LINES {
        let given = is_written(rt.alloc(), every_value(Mode::Pretty), line, output);
        same(&rt, (line, given), (line, Ok(true)), "a line");
    }
}

#[test]
fn long_values_are_made_pretty(rt: HostRuntime) {
    for (line, output) in BY_LENGTH {
        let conversion = Conversion {
            to: Mode::Pretty,
            longer_than: 40,
        };
        let given = is_written(rt.alloc(), conversion, line, output);
        same(&rt, (line, given), (line, Ok(true)), "a line");
    }
}

#[test]
fn lines_come_back(rt: HostRuntime) {
    for (line, output) in LINES.into_iter().chain(BY_LENGTH) {
        let given = is_written(rt.alloc(), every_value(Mode::Plain), output, line);
        same(&rt, (line, given), (line, Ok(true)), "a line");
    }
}

#[test]
fn other_lines_stay(rt: HostRuntime) {
    for line in OTHERS {
        for mode in [Mode::Pretty, Mode::Plain] {
            let given = is_written(rt.alloc(), every_value(mode), line, line);
            same(&rt, (line, given), (line, Ok(true)), "a line");
        }
    }
}

#[test]
fn groups_are_made_plain(rt: HostRuntime) {
    for (lines, output) in GROUPS {
        let given = is_written(rt.alloc(), every_value(Mode::Plain), lines, output);
        same(&rt, (lines, given), (lines, Ok(true)), "lines");
    }
}

#[test]
fn other_groups_stay(rt: HostRuntime) {
    for lines in OTHER_GROUPS {
        let given = is_written(rt.alloc(), every_value(Mode::Plain), lines, lines);
        same(&rt, (lines, given), (lines, Ok(true)), "lines");
    }
}

// A pretty text of every length is made plain.
#[test]
fn the_limit_is_for_pretty_texts_only(rt: HostRuntime) {
    let conversion = Conversion {
        to: Mode::Plain,
        longer_than: 1000,
    };
    let given = is_written(rt.alloc(), conversion, b"[\n    1,\n]", b"[1]");
    same(&rt, given, Ok(true), "a short group");
}
