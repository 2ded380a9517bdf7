//! Tests of how an error prints: what is expected, what is found, the line, the column, and the name of the field or the key
//! before it. What errors of probe_model's types say is rows of tools/data/rows.
use super::{not_text, same};
use test_rows::printed::Displayed;
use test_rows::rows::Table;
use test_rows::{put_rows, rows_of};
use ufmt_parse::{Expected, ParseError, PlacedError, line_and_column};

#[test]
fn an_error_prints_what_is_expected_and_its_place(rt: HostRuntime) {
    let mut table = Table::new(rt.alloc());
    let number = not_text(15, Expected::Number);
    put_rows!(table;
        texts(&Displayed(number)) => "expected a number of the type at byte 15";
        texts(&number) => "NotText { at: 15, expected: Number }~\nNotText {\n    at: 15,\n    expected: Number,\n}";
        texts(&Displayed(ParseError::OutOfMemory)) => "out of memory";
        texts(&ParseError::OutOfMemory) => "OutOfMemory";
    );
    same(&rt, table.text(), Some(table.wanted()), "errors");
}

#[test]
fn an_error_in_its_text_prints_its_line_column_and_name(rt: HostRuntime) {
    let mut table = Table::new(rt.alloc());
    let text = "Mix {\n    channel: 256,\n    level: -4,\n}".as_bytes();
    let number = not_text(19, Expected::Number).in_text(text);
    let name = not_text(0, Expected::Name).in_text(text);
    put_rows!(table;
        texts(&Displayed(number)) => "expected a number of the type, found `256` at line 2 column 14, after `channel: `";
        plain(&number) => "NotText { line: 2, column: 14, expected: Number, found: Word(\"256\"), after: Some(\"channel\") }";
        texts(&Displayed(name)) => "expected a name of the type, found `Mix` at line 1 column 1";
        plain(&name) => "NotText { line: 1, column: 1, expected: Name, found: Word(\"Mix\"), after: None }";
        texts(&Displayed(ParseError::OutOfMemory.in_text(text))) => "out of memory";
        texts(&PlacedError::OutOfMemory) => "OutOfMemory";
    );
    same(&rt, table.text(), Some(table.wanted()), "errors");
}

#[test]
fn each_place_has_its_words(rt: HostRuntime) {
    let mut table = Table::new(rt.alloc());
    for (text, at, display) in rows_of![
        "", 0 => "expected a number of the type, found the end of the text at line 1 column 1";
        "ab\n", 2 => "expected a number of the type, found one last line feed at line 1 column 3";
        "ab\n\n", 2 => "expected a number of the type at line 1 column 3";
        "ab\r\n", 2 => "expected a number of the type at line 1 column 3";
        "{ sample: 3 }", 2 => "expected a number of the type, found `sample` at line 1 column 3";
        "-1.5e-3, 2", 0 => "expected a number of the type, found `-1.5e-3` at line 1 column 1";
        "größe_9)", 0 => "expected a number of the type, found `größe_9` at line 1 column 1";
        "\"a\"", 0 => "expected a number of the type at line 1 column 1";
        // A place past the end is the end.
        "level: ", 9 => "expected a number of the type, found the end of the text at line 1 column 8, after `level: `";
        // Lines and columns are counted from 1, and columns are characters, of one byte, two or three.
        "a\nb", 1 => "expected a number of the type at line 1 column 2";
        "a\n\nb", 3 => "expected a number of the type, found `b` at line 3 column 1";
        "µ€x", 5 => "expected a number of the type, found `x` at line 1 column 3";
        "a\r\nb", 2 => "expected a number of the type at line 1 column 3";
        // A name ends in a colon and a space, and is the longest run of letters, digits and underscores.
        "level: x", 6 => "expected a number of the type at line 1 column 7";
        "level: x", 7 => "expected a number of the type, found `x` at line 1 column 8, after `level: `";
        "level:  x", 8 => "expected a number of the type, found `x` at line 1 column 9";
        ": x", 2 => "expected a number of the type, found `x` at line 1 column 3";
        "\"a\": x", 5 => "expected a number of the type, found `x` at line 1 column 6";
        "a.b_9: x", 7 => "expected a number of the type, found `x` at line 1 column 8, after `b_9: `";
        "a: b: x", 6 => "expected a number of the type, found `x` at line 1 column 7, after `b: `";
        "{名: x", 6 => "expected a number of the type, found `x` at line 1 column 5, after `名: `";
    ] {
        let placed = not_text(at, Expected::Number).in_text(text.as_bytes());
        put_rows!(table; plain(&Displayed(placed)) => display;);
    }
    same(&rt, table.text(), Some(table.wanted()), "places");
    let place = line_and_column("µ€x".as_bytes(), 99);
    same(&rt, place, (1, 4), "past the end");
}

// A name is UTF-8. What comes before it needn't be.
#[test]
fn a_name_is_utf8(rt: HostRuntime) {
    let rows: [(&[u8], usize, Option<&str>); 4] = [
        (b"\xff\xfe: x", 4, None),
        (b"gr\xc3: x", 5, None),
        (b"\xb6gr\xc3\xb6\xc3\x9fe: x", 10, None),
        (b"\xff level: x", 9, Some("level")),
    ];
    for (text, at, wanted) in rows {
        let PlacedError::NotText { after, .. } = not_text(at, Expected::Number).in_text(text) else {
            return same(&rt, Some("out of memory"), wanted, "names");
        };
        same(&rt, after, wanted, "names");
    }
}

#[test]
fn each_kind_has_its_words(rt: HostRuntime) {
    let mut table = Table::new(rt.alloc());
    for (expected, debug, display) in rows_of![
        Expected::Name, "Name" => "a name of the type";
        Expected::Number, "Number" => "a number of the type";
        Expected::Character, "Character" => "a character in apostrophes";
        Expected::Text, "Text" => "a text in quotation marks";
        Expected::Punctuation, "Punctuation" => "punctuation";
        Expected::Order, "Order" => "keys in ascending order";
        Expected::Count, "Count" => "another number of values or blocks";
        Expected::End, "End" => "the end of the text";
    ] {
        put_rows!(table; texts(&expected) => debug; texts(&Displayed(expected)) => display;);
    }
    same(&rt, table.text(), Some(table.wanted()), "kinds");
}
