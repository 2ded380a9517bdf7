//! Tests of `same_text`.
use super::same;
use super::shape::Shape::{self, Leaf, Listed, MapOf, NonExhaustiveOf, SetOf, StructOf, TupleOf};
use super::shape::made;
use std::alloc::{AllocError, Global};
use test_rows::rows_of;
use ufmt::layout::Mode;
use ufmt_doc::doc::{DebugDoc, Doc, same_text};
use ufmt_doc::{ReadError, read_debug};

// Whether both are token documents, and whether they have one normal form.
fn compared(alloc: Global, a: &Shape<'_>, b: &Shape<'_>) -> Result<(bool, bool), AllocError> {
    let (a, b): (Doc, Doc) = (made(alloc, a)?, made(alloc, b)?);
    Ok((a.is_token() && b.is_token(), same_text(&a, &b)))
}

// Whether both are debug documents, and whether they have one normal form.
fn are_same_debug(a: &DebugDoc, b: &DebugDoc) -> (bool, bool) {
    (a.is_debug() && b.is_debug(), same_text(a, b))
}

fn compared_as_debug(
    alloc: Global,
    a: &Shape<'_>,
    b: &Shape<'_>,
) -> Result<(bool, bool), AllocError> {
    Ok(are_same_debug(&made(alloc, a)?, &made(alloc, b)?))
}

// Two documents, and whether they have one text.
const MADE: [(&str, Shape<'static>, Shape<'static>, bool); 6] = rows_of![
    "a name", StructOf("A", &[]), Leaf("A") => true;
    "a tuple and a struct", TupleOf("A", &[]), StructOf("A", &[]) => true;
    "a set and a map", SetOf(&[]), MapOf(&[]) => true;
    "a map and a set", MapOf(&[]), SetOf(&[]) => true;
    "a set and a list", SetOf(&[]), Listed(&[]) => false;
    "a tuple and a list", TupleOf("", &[Leaf("1")]), Listed(&[Leaf("1")]) => false;
];

#[test]
fn same_text_is_true_of_documents_with_one_text(rt: HostRuntime) {
    for (case, a, b, is_same) in MADE {
        let given = compared(rt.alloc(), &a, &b);
        same(&rt, given, Ok((true, is_same)), case);
    }
}

// Two documents that are no token documents, and whether they have one normal form.
const OTHERS: [(&str, Shape<'static>, Shape<'static>, bool); 5] = rows_of![
    "a space", Leaf("a b"), Leaf("a b") => true;
    "no name", StructOf("", &[]), Leaf("") => true;
    "in lists", Listed(&[SetOf(&[]), Leaf(",")]), Listed(&[MapOf(&[]), Leaf(",")]) => true;
    "a comma", Listed(&[Leaf("a, b")]), Listed(&[Leaf("a"), Leaf("b")]) => false;
    "a bracket", Leaf("[]"), Listed(&[]) => false;
];

#[test]
fn same_text_of_other_documents_is_true_if_they_have_one_normal_form(rt: HostRuntime) {
    for (case, a, b, is_same) in OTHERS {
        let given = compared(rt.alloc(), &a, &b);
        same(&rt, given, Ok((false, is_same)), case);
    }
}

// Two debug documents, and whether they have one text.
const MADE_AS_DEBUG: [(&str, Shape<'static>, Shape<'static>, bool); 15] = rows_of![
    "a number", Leaf("1.5"), Leaf("1.5") => true;
    "two spellings", Leaf("1.5"), Leaf("1.50") => false;
    "a character", Leaf("'\\u{e9}'"), Leaf("'é'") => false;
    "a path", StructOf("a::B", &[]), Leaf("a::B") => true;
    "a path twice", TupleOf("a::B", &[]), StructOf("a::B", &[]) => true;
    "beside a range", TupleOf("", &[Leaf("0..5"), SetOf(&[])]), TupleOf("", &[Leaf("0..5"), MapOf(&[])]) => true;
    "a colon", SetOf(&[Leaf("a:1")]), MapOf(&[(Leaf("a"), Leaf("1"))]) => false;
    "two classes", Leaf("b"), Leaf("b\"\"") => false;
    "dots", NonExhaustiveOf("S", &[("a", StructOf("A", &[]))]), NonExhaustiveOf("S", &[("a", Leaf("A"))]) => true;
    "only dots", NonExhaustiveOf("S", &[]), NonExhaustiveOf("S", &[]) => true;
    "two names", NonExhaustiveOf("S", &[]), NonExhaustiveOf("T", &[]) => false;
    "two fields, one", NonExhaustiveOf("S", &[("a", Leaf("x")), ("b", Leaf("y"))]), NonExhaustiveOf("S", &[("a", Leaf("x"))]) => false;
    "with dots, without", NonExhaustiveOf("S", &[("a", Leaf("x"))]), StructOf("S", &[("a", Leaf("x"))]) => false;
    "dots and a leaf", NonExhaustiveOf("S", &[]), Leaf("S") => false;
    "a tuple and dots", TupleOf("S", &[]), NonExhaustiveOf("S", &[]) => false;
];

#[test]
fn same_text_is_true_of_debug_documents_with_one_text(rt: HostRuntime) {
    for (case, a, b, is_same) in MADE_AS_DEBUG {
        let given = compared_as_debug(rt.alloc(), &a, &b);
        same(&rt, given, Ok((true, is_same)), case);
    }
}

// Texts of documents, with a bar between each two.
const READ_AS_DEBUG: &str = "\
x|[]|{}|[x]|[x, y]|[y, x]|[[x], y]|{x}|{x: y}|{x: y, y: x}|(x,)|(x, y)|n(x)|S { a: x }|S { b: x }|S { a: x, b: y }\
|1.5|1.50|0..5|\"x\"|b\"x\"|'x'|'w'..='x'|[1.5]|{1.5}|{1.5: ::1}|{::1: 1.5}|{::1:1.5}|(1.5,)|a::B(1.5)\
|a::B { c: 1.5 }|a::B { c:d: 1.5 }|a::B { .. }|a::B { c: 1.5, .. }|a::B { c: 1.5, c: 1.5, .. }\
|a::B { c: a::B { .. }, .. }|[a::B { .. }]";

// Whether the document of this text has the same text as only one of `READ_AS_DEBUG`, its own.
fn has_only_its_own_debug_text(alloc: Global, text: &str) -> Result<bool, ReadError> {
    let doc = read_debug(alloc, Mode::Plain, text.as_bytes())?;
    for other in READ_AS_DEBUG.split('|') {
        let other_doc = read_debug(alloc, Mode::Plain, other.as_bytes())?;
        if are_same_debug(&doc, &other_doc) != (true, text == other) {
            return Ok(false);
        }
    }
    Ok(true)
}

#[test]
fn same_text_is_true_of_read_debug_documents_if_their_texts_are_equal(rt: HostRuntime) {
    for text in READ_AS_DEBUG.split('|') {
        let is_own = has_only_its_own_debug_text(rt.alloc(), text);
        same(&rt, is_own, Ok(true), text);
    }
}
