//! Tests of `is_token` and `is_debug` on names, and on how deep blocks are. Of leaves they are rows of tools/data/rows.
use super::nested_lists::lists_around;
use super::same;
use super::shape::Shape::{self, Leaf, Listed, MapOf, NonExhaustiveOf, StructOf, TupleOf};
use super::shape::made;
use std::alloc::{AllocError, Global};
use test_rows::rows_of;
use ufmt_doc::{DebugDoc, Doc};

// Whether it is a token document, and whether it is a debug document.
fn classes(alloc: Global, shape: &Shape<'_>) -> Result<(bool, bool), AllocError> {
    let doc: DebugDoc = made(alloc, shape)?;
    Ok((doc.is_token(), doc.is_debug()))
}

// Documents that are no token documents, and whether they are debug documents.
const NAMED: [(&str, Shape<'static>, bool); 24] = rows_of![
    "a path", StructOf("a::B", &[("c:d", Leaf("1.5"))]) => true;
    "an accent", StructOf("é", &[]) => true;
    "a path of a tuple", TupleOf("a::B", &[]) => true;
    "no name", TupleOf("", &[Leaf("0..5")]) => true;
    "dots", NonExhaustiveOf("S", &[("a", Leaf("x"))]) => true;
    "only dots", NonExhaustiveOf("S", &[]) => true;
    "listed dots", Listed(&[Leaf("x"), NonExhaustiveOf("a::B", &[])]) => true;
    "dots without a name", NonExhaustiveOf("", &[]) => false;
    "dots after quotes", NonExhaustiveOf("\"S\"", &[]) => false;
    "a space, dots", NonExhaustiveOf("S", &[("a b", Leaf("x"))]) => false;
    "a comma, dots", NonExhaustiveOf("S", &[("a", Leaf("x, .."))]) => false;
    "parentheses", StructOf("(a)", &[]) => false;
    "parentheses of a tuple", TupleOf("()", &[]) => false;
    "a field of ()", StructOf("S", &[("()", Leaf("x"))]) => false;
    "a colon", StructOf("a:", &[]) => false;
    "a call", StructOf("f()", &[]) => false;
    "a lifetime", TupleOf("'a", &[Leaf("x")]) => false;
    "a quote", StructOf("b\"x\"", &[]) => false;
    "quotes of a tuple", TupleOf("'a'", &[Leaf("x")]) => false;
    "a field in quotes", StructOf("S", &[("\"a\"", Leaf("x"))]) => false;
    "a field's colon", StructOf("S", &[("a:", Leaf("x"))]) => false;
    "no name", StructOf("", &[("a", Leaf("x"))]) => false;
    "no name and no field", StructOf("", &[]) => false;
    "no name of a tuple", TupleOf("", &[]) => false;
];

#[test]
fn names_are_of_a_class(rt: HostRuntime) {
    for (case, shape, wanted) in NAMED {
        let given = classes(rt.alloc(), &shape);
        same(&rt, given, Ok((false, wanted)), case);
    }
}

// `is_token` of a document that can't have dots, too.
#[test]
fn a_document_without_dots_is_of_a_class(rt: HostRuntime) {
    for (leaf, wanted) in [("a", true), ("a b", false), ("\"a\"", true), ("", false)] {
        let given = made(rt.alloc(), &Leaf(leaf)).map(|doc: Doc| doc.is_token());
        same(&rt, given, Ok(wanted), leaf);
    }
}

// What is in so many lists. Each of these but the last two has an entry, and is a block more.
const NESTED: [(&str, Shape<'static>, usize); 7] = [
    ("a list", Listed(&[Leaf("1.5")]), 254),
    ("a map", MapOf(&[(Leaf("::1"), Leaf("1.5"))]), 254),
    ("a struct", StructOf("a::B", &[("c", Leaf("1.5"))]), 254),
    ("a tuple", TupleOf("", &[Leaf("1.5")]), 254),
    ("dots", NonExhaustiveOf("S", &[("c", Leaf("1"))]), 254),
    ("a name", TupleOf("a::B", &[]), 255),
    ("only dots", NonExhaustiveOf("S", &[]), 255),
];

fn is_debug_in_lists(
    alloc: Global,
    (_, inner, most): &(&str, Shape<'_>, usize),
) -> Result<(bool, bool), AllocError> {
    let deepest: DebugDoc = lists_around(alloc, *most, inner)?;
    let deeper: DebugDoc = lists_around(alloc, most.saturating_add(1), inner)?;
    Ok((deepest.is_debug(), deeper.is_debug()))
}

#[test]
fn debug_documents_are_at_most_255_deep(rt: HostRuntime) {
    for row in &NESTED {
        let given = is_debug_in_lists(rt.alloc(), row);
        same(&rt, given, Ok((true, false)), row.0);
    }
}
