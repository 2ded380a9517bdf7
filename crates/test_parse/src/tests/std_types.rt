//! Tests of types of std that probe_model doesn't parse: each text in both modes, printed again, and texts that are refused.
use super::{first_other, same};
use std::alloc::Global;
use std::borrow::{Cow, CowSlice, CowStr};
use std::boxed::BoxedSlice;
use std::cmp::Ordering;
use std::collections::{BTreeMap, BTreeSet, LinkedList, VecDeque};
use std::num::{Saturating, Wrapping};
use std::rc::{Rc, RcStr};

#[test]
fn borrowed_and_shared_values(rt: HostRuntime) {
    all_stop!(rt, Cow<'_, String>;
        "\"\"" => "";
        "\"a\\n\"" => "";
        "\"\u{e9}\u{1f600}\"" => "";
        "a" => "0 Text";
        "'a'" => "0 Text";
        "\"\\u{41}\"" => "0 Text";
        "\"a\"b" => "3 End";
    );
    all_stop!(rt, CowStr<'_, Global>;
        "\"\"" => "";
        "\"a\\n\"" => "";
        "a" => "0 Text";
        "\"a\"b" => "3 End";
    );
    all_stop!(rt, CowSlice<'_, u8, Global>;
        "[]" => "";
        "[1, 2, 3]" => "";
        "[1, 256]" => "4 Number";
        "[1,2]" => "2 Punctuation";
        "{1}" => "0 Punctuation";
    );
    all_stop!(rt, Cow<'_, u8>; "255" => ""; "256" => "0 Number";);
    all_stop!(rt, Rc<Option<Rc<()>>>;
        "None" => "";
        "Some(())" => "";
        "()" => "0 Name";
        "Some(Some(()))" => "5 Punctuation";
    );
}

#[test]
fn keys(rt: HostRuntime) {
    all_stop!(rt, BTreeSet<Ordering>; "{Less, Equal, Greater}" => ""; "{Equal, Less}" => "0 Order";);
    all_stop!(rt, BTreeSet<Wrapping<i8>>; "{-1, 0, 10}" => ""; "{0, -1}" => "0 Order";);
    all_stop!(rt, BTreeMap<RcStr<Global>, Saturating<u8>>;
        "{\"a\": 1, \"b\": 2}" => "";
        "{\"b\": 1, \"a\": 2}" => "0 Order";
    );
    all_stop!(rt, BTreeSet<VecDeque<u8>>; "{[], [1], [1, 2], [2]}" => ""; "{[2], [1, 2]}" => "0 Order";);
    all_stop!(rt, BTreeSet<Rc<LinkedList<u8>>>; "{[1, 2], [2]}" => ""; "{[1], [1]}" => "0 Order";);
    all_stop!(rt, BTreeSet<BoxedSlice<char, Global>>; "{['a'], ['b']}" => ""; "{['b'], ['a']}" => "0 Order";);
}
