//! Tests of fields of lines, as loggers write them. `tools/data/c/fields.txt` has more lines, which the library for C reads.
use super::same;
use test_rows::rows_of;
use ufmt::class::Class;
use ufmt_values::{field_of, find_field};

// A line, a field's name, and the text that a reader sees there, with its place.
const FIELDS: [(&str, &str, Option<(usize, &str)>); 9] = rows_of![
    "[12:00:00Z INFO  app] got Point { x: 1.5, y: -2e-7 }", "y" => Some((45, "-2e-7"));
    "from A { n: 1 } to B { m: 2, n: 3 }", "n" => Some((12, "1"));
    "A { n: [], n: 2 } B { n: 4 }", "n" => Some((25, "4"));
    "User { name: \"Ann { x: 1 }\", age: 40 }", "name" => Some((13, "\"Ann { x: 1 }\""));
    "S { x: 1, .. } and T { .. }", "x" => Some((7, "1"));
    "S { list: [] }", "list" => None;
    "[S { x: 1 }, S { x: 2 }]", "x" => None;
    "S { x: 1", "x" => None;
    "", "x" => None;
];

#[test]
fn fields_are_found(rt: HostRuntime) {
    for (line, name, wanted) in FIELDS {
        let wanted = wanted.map(|(start, text)| (start, text.as_bytes()));
        let found = find_field(Class::Debug, line.as_bytes(), name);
        let found = found.map(|field| (field.start, field.text));
        same(&rt, found, wanted, line);
        let text = field_of(Class::Debug, line.as_bytes(), name);
        same(&rt, text, wanted.map(|(_, text)| text), line);
    }
}

// A float is no leaf of a token text. No byte of a line need be UTF-8.
#[test]
fn fields_are_found_in_token_texts_and_past_other_bytes(rt: HostRuntime) {
    let line = b"\xff\x80{ S { x: 1.5 } T { x: 2 } \xc3";
    for (class, name, wanted) in rows_of![
        Class::Debug, "x" => Some(b"1.5".as_slice());
        Class::Token, "x" => Some(b"2".as_slice());
        Class::Token, "y" => None;
    ] {
        same(&rt, field_of(class, line, name), wanted, name);
    }
    let text = field_of(Class::Debug, b"\xffS { x: 1 }", "x");
    same(&rt, text, None, "x");
}
