//! Tests of what an error says of a type in detail: the field, the enum or the range of numbers that was expected.
use super::enums::structs::Order;
use super::same;
use example_parse::{Mix, Switch};
use std::alloc::Global;
use std::num::NonZeroU8;
use test_rows::printed::Displayed;
use test_rows::rows::Table;
use test_rows::{put_rows, rows_of};
use ufmt_parse::{Detail, DetailedError, ParseError, PlacedError, parse, parse_pretty, uParse};

// Parses the text, and says in detail why it isn't one of the type.
fn explain<T: uParse<Global>>(alloc: Global, text: &str) -> DetailedError<'_> {
    match parse::<T, Global>(alloc, text.as_bytes()) {
        Ok(_) => of_no_memory(),
        Err(error) => error.in_text_of::<T, Global>(alloc, text.as_bytes()),
    }
}

fn of_no_memory<'a>() -> DetailedError<'a> {
    DetailedError {
        placed: PlacedError::OutOfMemory,
        detail: Detail::Nothing,
    }
}

#[test]
fn an_error_names_what_is_expected(rt: HostRuntime) {
    let alloc = rt.alloc();
    let mut table = Table::new(alloc);
    for (text, display) in rows_of![
        "Sat { channel: 3, level: -4 }" => "expected `Mix`, found `Sat` at line 1 column 1";
        "Mix { chanel: 3, level: -4 }" => "expected the field `channel`, found `chanel` at line 1 column 7";
        "Mix { level: -4 }" => "expected the field `channel`, found `level` at line 1 column 7";
        "Mix { channel: 3 }" => "expected punctuation before the field `level` at line 1 column 17";
        "Mix { channel: 3, lever: -4 }" => "expected the field `level`, found `lever` at line 1 column 19";
        "Mix { channel: 3, level: -4, step: 1 }" => "expected the end of the fields at line 1 column 28";
        "Mix { channel: 256, level: -4 }" => "expected a number from 0 to 255, found `256` at line 1 column 16, after `channel: `";
        "Mix { channel: 3, level: 32768 }" => "expected a number from -32768 to 32767, found `32768` at line 1 column 26, after `level: `";
        "Mix { channel: x, level: -4 }" => "expected a number from 0 to 255, found `x` at line 1 column 16, after `channel: `";
        "Mix { channel= 3, level: -4 }" => "expected punctuation at line 1 column 14";
        "Mix { channel: 3, level: -4 }\n" => "expected the end of the text, found one last line feed at line 1 column 30";
        "Mix" => "expected punctuation before the field `channel`, found the end of the text at line 1 column 4";
    ] {
        put_rows!(table; plain(&Displayed(explain::<Mix>(alloc, text))) => display;);
    }
    for (text, display) in rows_of![
        "Switch { is_on: tru, next: None, is_lit: true }" => "expected `true` or `false`, found `tru` at line 1 column 17, after `is_on: `";
        "Switch { is_on: true, next: Some(256), is_lit: true }" => "expected a number from 0 to 255, found `256` at line 1 column 34";
        "Switch { is_on: true, next: Nothing, is_lit: true }" => "expected a variant of `Option`, found `Nothing` at line 1 column 29, after `next: `";
        "Switch { is_on: true, next: Some(2), is_lit: yes }" => "expected `true` or `false`, found `yes` at line 1 column 46, after `is_lit: `";
    ] {
        put_rows!(table; plain(&Displayed(explain::<Switch>(alloc, text))) => display;);
    }
    for (text, display) in rows_of![
        "Upp" => "expected a variant of `Order`, found `Upp` at line 1 column 1";
        "Apply { set: Get { channel: 3, level: -4 } }" => "expected `Mix`, found `Get` at line 1 column 14, after `set: `";
        "HoldPosition(Mix { channel: 3, level: -4 }, 1)" => "expected `true` or `false`, found `1` at line 1 column 45";
        "HoldPosition(Mix { channel: 3, level: -4 })" => "expected punctuation at line 1 column 43";
        "Interrupted(1, 2)" => "expected the end of the fields at line 1 column 14";
    ] {
        put_rows!(table; plain(&Displayed(explain::<Order>(alloc, text))) => display;);
    }
    same(&rt, table.text(), Some(table.wanted()), "details");
}

#[test]
fn types_of_std_have_details(rt: HostRuntime) {
    let alloc = rt.alloc();
    let mut table = Table::new(alloc);
    let text = "340282366920938463463374607431768211456";
    put_rows!(table;
        plain(&Displayed(explain::<u8>(alloc, text))) => "expected a number from 0 to 255, found `340282366920938463463374607431768211456` at line 1 column 1";
        plain(&Displayed(explain::<u16>(alloc, "x"))) => "expected a number from 0 to 65535, found `x` at line 1 column 1";
        plain(&Displayed(explain::<u32>(alloc, "x"))) => "expected a number from 0 to 4294967295, found `x` at line 1 column 1";
        plain(&Displayed(explain::<u64>(alloc, "x"))) => "expected a number from 0 to 18446744073709551615, found `x` at line 1 column 1";
        plain(&Displayed(explain::<usize>(alloc, "x"))) => "expected a number from 0 to 18446744073709551615, found `x` at line 1 column 1";
        plain(&Displayed(explain::<u128>(alloc, "x"))) => "expected a number from 0 to 340282366920938463463374607431768211455, found `x` at line 1 column 1";
        plain(&Displayed(explain::<i8>(alloc, "x"))) => "expected a number from -128 to 127, found `x` at line 1 column 1";
        plain(&Displayed(explain::<i16>(alloc, "x"))) => "expected a number from -32768 to 32767, found `x` at line 1 column 1";
        plain(&Displayed(explain::<i32>(alloc, "x"))) => "expected a number from -2147483648 to 2147483647, found `x` at line 1 column 1";
        plain(&Displayed(explain::<i64>(alloc, "x"))) => "expected a number from -9223372036854775808 to 9223372036854775807, found `x` at line 1 column 1";
        plain(&Displayed(explain::<isize>(alloc, "x"))) => "expected a number from -9223372036854775808 to 9223372036854775807, found `x` at line 1 column 1";
        plain(&Displayed(explain::<i128>(alloc, "x"))) => "expected a number from -170141183460469231731687303715884105728 to 170141183460469231731687303715884105727, found `x` at line 1 column 1";
        plain(&Displayed(explain::<Result<u8, bool>>(alloc, "Fine(1)"))) => "expected a variant of `Result`, found `Fine` at line 1 column 1";
        plain(&Displayed(explain::<Result<u8, bool>>(alloc, "Err(1)"))) => "expected `true` or `false`, found `1` at line 1 column 5";
        plain(&Displayed(explain::<NonZeroU8>(alloc, "0"))) => "expected a number other than 0, found `0` at line 1 column 1";
        plain(&Displayed(explain::<NonZeroU8>(alloc, "256"))) => "expected a number from 0 to 255, found `256` at line 1 column 1";
        plain(&Displayed(explain::<char>(alloc, "x"))) => "expected a character in apostrophes, found `x` at line 1 column 1";
    );
    same(&rt, table.text(), Some(table.wanted()), "ranges");
}

#[test]
fn a_pretty_text_has_details_too(rt: HostRuntime) {
    let alloc = rt.alloc();
    let text = "Mix {\n    channel: 3,\n    lever: -4,\n}".as_bytes();
    let mut table = Table::new(alloc);
    match parse_pretty::<Mix, Global>(alloc, text) {
        Ok(_) => table.put_nothing(),
        Err(error) => table.plain(&Displayed(error.in_pretty_text_of::<Mix, Global>(alloc, text))),
    }
    table.wants("expected the field `level`, found `lever` at line 3 column 5");
    same(&rt, table.text(), Some(table.wanted()), "pretty");
}

// Another text, another type, the other mode, and what no text has.
#[test]
fn an_error_of_something_else_has_no_detail(rt: HostRuntime) {
    let alloc = rt.alloc();
    let text = "Mix { chanel: 3, level: -4 }".as_bytes();
    if let Err(error) = parse::<Mix, Global>(alloc, text) {
        for (case, other) in rows_of![
            "another text" => "Mix { channel: 3 }";
            "a value's text" => "Mix { channel: 3, level: -4 }";
        ] {
            let other = error.in_text_of::<Mix, Global>(alloc, other.as_bytes());
            same(&rt, other.detail, Detail::Nothing, case);
        }
        let detail = error.in_text_of::<Order, Global>(alloc, text).detail;
        same(&rt, detail, Detail::Nothing, "another type");
        let detail = error.in_pretty_text_of::<Mix, Global>(alloc, text).detail;
        same(&rt, detail, Detail::Nothing, "the other mode");
        let detail = error.in_text_of::<Mix, Global>(alloc, text).detail;
        same(&rt, detail, Detail::Field("channel"), "itself");
    }
    let error = ParseError::OutOfMemory.in_text_of::<Mix, Global>(alloc, text);
    same(&rt, error, of_no_memory(), "no memory");
}
