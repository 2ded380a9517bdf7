//! Tests of structs of each number of fields. Tuples are rows of tools/data/rows.
use super::same;
use test_rows::rows_of;
use ufmt_parse::{
    ByType, ParseMode, Parser, PlainText, PrettyText, parse_struct_4, parse_struct_5,
    parse_struct_6, parse_struct_7, parse_struct_12,
};

/// What was parsed, and how many bytes were taken.
type Taken<T> = (Option<T>, usize);

// What this call takes of a struct `Row` with these fields, each parsed by its type.
macro_rules! by_types {
    ($call:ident $text:ident $($name:literal)+) => {{
        let mut parser: Parser<'_, M> = Parser::new($text.as_bytes());
        let row = $call((), &mut parser, "Row", $($name, &ByType),+);
        (row.ok(), $text.len() - parser.len())
    }};
}

fn four<M: ParseMode>(text: &str) -> Taken<(u8, bool, u8, u8)> {
    by_types!(parse_struct_4 text "a" "b" "c" "d")
}

fn five<M: ParseMode>(text: &str) -> Taken<(u8, bool, u8, u8, u8)> {
    by_types!(parse_struct_5 text "a" "b" "c" "d" "e")
}

fn six<M: ParseMode>(text: &str) -> Taken<(u8, bool, u8, u8, u8, u8)> {
    by_types!(parse_struct_6 text "a" "b" "c" "d" "e" "f")
}

fn seven<M: ParseMode>(text: &str) -> Taken<(u8, bool, u8, u8, u8, u8, u8)> {
    by_types!(parse_struct_7 text "a" "b" "c" "d" "e" "f" "g")
}

fn twelve<M: ParseMode>(text: &str) -> Taken<(u8, bool, u8, u8, u8, u8, u8, u8, u8, u8, u8, u8)> {
    by_types!(parse_struct_12 text "a" "b" "c" "d" "e" "f" "g" "h" "i" "j" "k" "l")
}

// Structs of fewer fields are what probe_model parses.
#[test]
fn structs_of_many_fields(rt: HostRuntime) {
    for (text, wanted) in rows_of![
        SEVEN => (Some((1, true, 3, 4, 5, 6, 7)), 51);
        "Row { a: 1, b: true, c: 3, d: 4, e: 5, f: 6, g: 700 }" => (None, 48);
        SIX => (None, 43);
        "Row { a: 1, b: true, c: 3, d: 4, e: 5, f: 6, g: 7, }" => (None, 49);
        "Row { a: 1, c: true, b: 3, d: 4, e: 5, f: 6, g: 7 }" => (None, 12);
        "Row" => (None, 3);
    ] {
        same(&rt, seven::<PlainText>(text), wanted, text);
    }
    for (text, wanted) in rows_of![
        "Row { a: 1, b: true, c: 3, d: 4, e: 5, f: 6, g: 7, h: 8, i: 9, j: 10, k: 11, l: 12 }"
            => (Some((1, true, 3, 4, 5, 6, 7, 8, 9, 10, 11, 12)), 84);
        "Row { a: 1, b: true, c: 3, d: 4, e: 5, f: 6, g: 7, h: 8, i: 9, j: 10, l: 12, k: 11 }" => (None, 70);
        "Row { a: 1, b: true, c: 3, d: 4, e: 5, f: 6, g: 7, h: 8, i: 9, j: 10, k: 11 }" => (None, 75);
    ] {
        same(&rt, twelve::<PlainText>(text), wanted, text);
    }
    let text =
        "Row {\n    a: 1,\n    b: true,\n    c: 3,\n    d: 4,\n    e: 5,\n    f: 6,\n    g: 7,\n    h: 8,\n    i: 9,\n    j: 10,\n    k: 11,\n    l: 12,\n}";
    let wanted = Some((1, true, 3, 4, 5, 6, 7, 8, 9, 10, 11, 12));
    let given = twelve::<PrettyText>(text);
    same(&rt, given, (wanted, text.len()), "pretty");
}

const FOUR: &str = "Row { a: 1, b: true, c: 3, d: 4 }";

const FIVE: &str = "Row { a: 1, b: true, c: 3, d: 4, e: 5 }";

const SIX: &str = "Row { a: 1, b: true, c: 3, d: 4, e: 5, f: 6 }";

const SEVEN: &str = "Row { a: 1, b: true, c: 3, d: 4, e: 5, f: 6, g: 7 }";

#[test]
fn each_call_takes_structs_of_its_number_of_fields(rt: HostRuntime) {
    let taken = Some((1, true, 3, 4));
    same(&rt, four::<PlainText>(FOUR), (taken, 33), FOUR);
    same(&rt, four::<PlainText>(FIVE), (None, 31), FIVE);
    let taken = Some((1, true, 3, 4, 5));
    same(&rt, five::<PlainText>(FIVE), (taken, 39), FIVE);
    same(&rt, five::<PlainText>(FOUR), (None, 31), FOUR);
    same(&rt, five::<PlainText>(SIX), (None, 37), SIX);
    let taken = Some((1, true, 3, 4, 5, 6));
    same(&rt, six::<PlainText>(SIX), (taken, 45), SIX);
    same(&rt, six::<PlainText>(FIVE), (None, 37), FIVE);
    same(&rt, six::<PlainText>(SEVEN), (None, 43), SEVEN);
}
