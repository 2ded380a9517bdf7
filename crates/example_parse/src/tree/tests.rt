//! Tests of parsing a tree.
use super::*;
use ufmt::plain_text;
use ufmt_parse::{Expected, ParseError, parse};

const TEXT: &str =
    "Tree { size: 1, children: [Tree { size: 2, children: [] }, Tree { size: 18446744073709551615, children: [] }] }";

#[test]
fn a_tree_is_parsed(rt: HostRuntime) {
    let printed = match parse::<Tree, Global>(rt.alloc(), TEXT.as_bytes()) {
        Ok(tree) => plain_text(rt.alloc(), &tree).ok(),
        Err(_) => None,
    };
    assert_eq!(rt; printed.as_deref(), Some(TEXT));
}

#[test]
fn a_wrong_value_in_a_tree_is_found(rt: HostRuntime) {
    let rows = [
        ("Tree { size: 18446744073709551616 }", 13, Expected::Number),
        ("Tree { size: 1, children: [Leaf {}] }", 27, Expected::Name),
        (
            "Tree { size: 1, children: [Tree { size: -2 }] }",
            40,
            Expected::Number,
        ),
    ];
    for (text, at, expected) in rows {
        let error = parse::<Tree, Global>(rt.alloc(), text.as_bytes()).err();
        assert_eq!(rt; error, Some(ParseError::NotText { at, expected }), "{text}");
    }
}
