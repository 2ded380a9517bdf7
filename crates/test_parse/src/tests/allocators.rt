//! Tests of values over an allocator that isn't `Global`: each text is printed again.
use super::same;
use std::alloc::Global;
use std::collections::{BTreeMap, BTreeSet, LinkedList, VecDeque};
use std::rc::{Rc, RcSlice, RcStr};
use ufmt::{debug_into, uDebug};
use ufmt_parse::{Boxed, ByType, Each, Fault, Parser, ParsesBy, PlainText, parse, uParse};

type Lent<'a> = &'a Global;

// Whether the value prints as the text.
fn has_text<T: uDebug>(value: &T, text: &str) -> bool {
    let mut printed = [0; 64];
    debug_into(&mut printed, value).is_ok_and(|len| printed.get(..len) == Some(text.as_bytes()))
}

// Whether a value is parsed with this allocator, and prints as the text.
fn comes_back<'a, T: uParse<Lent<'a>>>(alloc: Lent<'a>, text: &str) -> bool {
    match parse::<T, Lent<'a>>(alloc, text.as_bytes()) {
        Ok(value) => has_text(&value, text),
        Err(_) => false,
    }
}

#[test]
fn values_over_a_lent_allocator_are_parsed(rt: HostRuntime) {
    let global = rt.alloc();
    let alloc = &global;
    let given = [
        comes_back::<Box<u8, Lent<'_>>>(alloc, "7"),
        comes_back::<Vec<String<Lent<'_>>, Lent<'_>>>(alloc, "[\"a\", \"\\n\"]"),
        comes_back::<BTreeSet<Vec<u8, Lent<'_>>, Lent<'_>>>(alloc, "{[], [1, 2]}"),
        comes_back::<BTreeMap<String<Lent<'_>>, Option<Box<u8, Lent<'_>>>, Lent<'_>>>(
            alloc,
            "{\"a\": None, \"b\": Some(1)}",
        ),
        comes_back::<[Box<bool, Lent<'_>>; 2]>(alloc, "[true, false]"),
        comes_back::<Rc<RcStr<Lent<'_>>, Lent<'_>>>(alloc, "\"a\""),
        comes_back::<VecDeque<LinkedList<u8, Lent<'_>>, Lent<'_>>>(alloc, "[[1], []]"),
        comes_back::<RcSlice<char, Lent<'_>>>(alloc, "['a']"),
    ];
    same(&rt, given, [true; 8], "by type");
}

// A list of boxes, each over this allocator.
fn boxes<'a>(alloc: Lent<'a>, text: &str) -> Result<Vec<Box<u8, Lent<'a>>, Lent<'a>>, Fault> {
    let mut parser: Parser<'_, PlainText> = Parser::new(text.as_bytes());
    Each(Boxed(ByType)).parse_by(alloc, &mut parser)
}

#[test]
fn parsers_of_lists_and_boxes_take_a_lent_allocator(rt: HostRuntime) {
    let global = rt.alloc();
    let text = "[1, 2, 3]";
    let has_text = boxes(&global, text).is_ok_and(|values| has_text(&values, text));
    same(&rt, has_text, true, "a list of boxes");
}
