//! Tests of `normalize`.
use super::same;
use super::shape::Shape::{SetOf, StructOf, TupleOf};
use super::shape::made;
use std::alloc::{AllocError, Global};
use ufmt::plain_text;
use ufmt_doc::Doc;

// Whether it is the unnamed tuple of the leaf `A` and the empty map.
fn is_leaf_and_map(doc: &Doc) -> bool {
    let Doc::TupleOf(name, fields) = doc else {
        return false;
    };
    if !name.is_empty() || fields.len() != 2 {
        return false;
    }
    match (&fields[0], &fields[1]) {
        (Doc::Leaf(leaf), Doc::MapOf(pairs)) => leaf.as_str() == "A" && pairs.is_empty(),
        _ => false,
    }
}

// Whether a document is that tuple, and has its text: before the call, after it, and after a second
// call.
fn states(alloc: Global) -> Result<[(bool, bool); 3], AllocError> {
    let mut doc: Doc = made(alloc, &TupleOf("", &[StructOf("A", &[]), SetOf(&[])]))?;
    let mut states = [(false, false); 3];
    for state in &mut states {
        let has_text = plain_text(alloc, &doc)?.as_str() == "(A, {})";
        *state = (is_leaf_and_map(&doc), has_text);
        doc.normalize(alloc);
    }
    Ok(states)
}

// The second call changes nothing.
#[test]
fn normalize_gives_the_leaf_of_a_name_and_the_empty_map(rt: HostRuntime) {
    let wanted = [(false, true), (true, true), (true, true)];
    same(&rt, states(rt.alloc()), Ok(wanted), "before, once, twice");
}
