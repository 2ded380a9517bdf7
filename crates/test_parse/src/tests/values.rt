//! Tests of parsed values themselves. That they print as their text again is rows of tools/data/rows.
use super::same;
use std::collections::{BTreeMap, BTreeSet};
use ufmt::Decimal;
use ufmt_parse::{ParseError, parse, parse_pretty};

#[test]
fn leaves_have_their_values(rt: HostRuntime) {
    same(&rt, parse((), b"255"), Ok(255u8), "a byte");
    let least = b"-170141183460469231731687303715884105728";
    same(&rt, parse((), least), Ok(i128::MIN), "the least number");
    same(&rt, parse((), b"-4.5"), Ok(-4.5f64), "a float");
    same(&rt, parse((), b"'\\n'"), Ok('\n'), "a character");
    same(&rt, parse((), "'µ'".as_bytes()), Ok('µ'), "two bytes");
    same(&rt, parse((), b"(7,)"), Ok((7u8,)), "a tuple of one");
    let some = Ok(Some(false));
    same(&rt, parse((), b"Some(false)"), some, "without an allocator");
    for (text, value, places) in [
        ("15.0", 150, 1),
        ("-0.05", -5, 2),
        ("100.000", 100000, 3),
        ("-0.9223372036854775808", i64::MIN, 19),
    ] {
        let wanted = Decimal { value, places };
        same(&rt, parse((), text.as_bytes()), Ok(wanted), text);
    }
}

#[test]
fn texts_and_blocks_have_their_values(rt: HostRuntime) {
    let alloc = rt.alloc();
    let word: Result<String, ParseError> = parse(alloc, b"\"a \\\"b\\\" \\u{1}\"");
    let wanted = Some("a \"b\" \u{1}");
    same(&rt, word.as_deref().ok(), wanted, "a text");
    let list: Result<Vec<u8>, ParseError> = parse(alloc, b"[1, 2, 3]");
    let wanted = Some(&[1, 2, 3][..]);
    same(&rt, list.as_deref().ok(), wanted, "a list");
    let array: Result<[u8; 2], ParseError> = parse_pretty(alloc, b"[\n    1,\n    2,\n]");
    same(&rt, array, Ok([1, 2]), "an array");
    let set: Result<BTreeSet<u8>, ParseError> = parse(alloc, b"{1, 2}");
    same(&rt, set.ok().as_ref().map(BTreeSet::len), Some(2), "a set");
    let map: Result<BTreeMap<u8, bool>, ParseError> = parse(alloc, b"{1: true, 2: false}");
    same(&rt, map.ok().as_ref().map(BTreeMap::len), Some(2), "a map");
    let boxed: Result<Box<(u8, bool)>, ParseError> = parse(alloc, b"(1, true)");
    same(&rt, boxed.ok().map(|b| *b), Some((1, true)), "a box");
}
