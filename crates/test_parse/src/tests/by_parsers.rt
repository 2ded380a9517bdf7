//! Tests of the calls that take a parser for each field. `field_counts` has structs of each number of fields.
use super::same;
use ufmt_parse::{
    ByType, Fault, Optional, Parser, PlainText, parse_struct_2, parse_tuple_2, parse_tuple_3,
    parse_tuple_4, parse_tuple_5, parse_tuple_6,
};

type P<'t> = Parser<'t, PlainText>;

fn struct_2(text: &str) -> Result<(u8, Option<bool>), Fault> {
    let (mut parser, by) = (P::new(text.as_bytes()), Optional(ByType));
    parse_struct_2((), &mut parser, "S", "a", &ByType, "b", &by)
}

#[test]
fn a_struct_is_parsed_by_parsers(rt: HostRuntime) {
    let two = Some((1, Some(true)));
    same(&rt, struct_2("S { a: 1, b: Some(true) }").ok(), two, "2");
}

// What this call takes of a tuple `T`, each value parsed by its type.
macro_rules! tuple {
    ($call:ident $text:literal $($by:expr),+) => {
        $call((), &mut P::new($text.as_bytes()), "T", $(&$by),+).ok()
    };
}

#[test]
fn tuples_are_parsed_by_parsers(rt: HostRuntime) {
    let p = ByType;
    let two: Option<(u8, Option<bool>)> = tuple!(parse_tuple_2 "T(1, None)" p, Optional(ByType));
    same(&rt, two, Some((1, None)), "2");
    let three: Option<(u8, bool, u8)> = tuple!(parse_tuple_3 "T(1, true)" p, p, p);
    same(&rt, three, None, "3, one missing");
    let four: Option<(u8, bool, u8, u8)> = tuple!(parse_tuple_4 "T(1, true, 3, 4)" p, p, p, p);
    same(&rt, four, Some((1, true, 3, 4)), "4");
    let five: Option<(u8, bool, u8, u8, u8)> =
        tuple!(parse_tuple_5 "T(1, true, 3, 4, 5)" p, p, p, p, p);
    same(&rt, five, Some((1, true, 3, 4, 5)), "5");
    let six: Option<(u8, bool, u8, u8, u8, u8)> =
        tuple!(parse_tuple_6 "T(1, true, 3, 4, 5, 6)" p, p, p, p, p, p);
    same(&rt, six, Some((1, true, 3, 4, 5, 6)), "6");
}
