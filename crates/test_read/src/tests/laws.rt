//! Tests that call each law.
use super::{holds, same};
use std::alloc::Global;
use test_rows::rows_of;
use ufmt::class::Class;
use ufmt::layout::Mode;
use ufmt::plain_text;
use ufmt_doc::doc::{DebugDoc, Doc};
use ufmt_doc::laws::*;
use ufmt_doc::{ReadError, StructName, Tree, read_debug, read_plain};

// Texts that come back, each with the class of its document. Those of debug documents don't come back as tokens.
const TEXTS: [(Class, Mode, &str); 6] = rows_of![
    Class::Token, Mode::Plain => "S { a: [x], b: {} }";
    Class::Token, Mode::Pretty => "S {\n    a: [\n        x,\n    ],\n    b: {},\n}";
    Class::Debug, Mode::Plain => "S { a: [1.5], b: 0..5 }";
    Class::Debug, Mode::Pretty => "S {\n    a: [\n        1.5,\n    ],\n    b: 0..5,\n}";
    Class::Debug, Mode::Plain => "S { a: T { .. }, .. }";
    Class::Debug, Mode::Pretty => "S {\n    a: T { .. },\n    ..\n}";
];

fn is_text<T: Drop>(outcome: Result<(T, String), ReadError>, text: &str) -> bool {
    outcome.is_ok_and(|(_, again)| again.as_str() == text)
}

#[test]
fn texts_come_back(rt: HostRuntime) {
    let alloc = rt.alloc();
    for (class, mode, text) in TEXTS {
        let again = text_again(alloc, class, mode, text.as_bytes());
        holds(&rt, is_text(again, text), text);
        let again = text_by_way_of_the_other(alloc, class, mode, text.as_bytes());
        holds(&rt, is_text(again, text), text);
        if matches!(class, Class::Debug) {
            let refused = text_again(alloc, Class::Token, mode, text.as_bytes());
            holds(&rt, matches!(refused, Err(ReadError::NotText)), text);
            let refused = text_by_way_of_the_other(alloc, Class::Token, mode, text.as_bytes());
            holds(&rt, matches!(refused, Err(ReadError::NotText)), text);
        }
    }
}

// Whether the document has this plain text. Without memory this is false.
fn is_document<N: StructName>(
    alloc: Global,
    outcome: Result<Tree<N>, ReadError>,
    plain: &str,
) -> bool {
    match outcome.map(|doc| plain_text(alloc, &doc)) {
        Ok(Ok(text)) => text.as_str() == plain,
        _ => false,
    }
}

// Whether a token document comes back by its text in this mode.
fn comes_back(alloc: Global, mode: Mode, plain: &str) -> Result<bool, ReadError> {
    let doc = read_plain(alloc, plain.as_bytes())?;
    let normal = normal_by_way_of_text(alloc, Class::Token, mode, &doc);
    Ok(is_document(alloc, normal, plain))
}

// The same of a debug document that is no token document.
fn debug_document_comes_back(alloc: Global, mode: Mode, plain: &str) -> Result<bool, ReadError> {
    let doc = read_debug(alloc, Mode::Plain, plain.as_bytes())?;
    let normal = normal_by_way_of_text(alloc, Class::Debug, mode, &doc);
    let refused = normal_by_way_of_text(alloc, Class::Token, mode, &doc);
    Ok(is_document(alloc, normal, plain) && matches!(refused, Err(ReadError::NotText)))
}

#[test]
fn documents_come_back(rt: HostRuntime) {
    for mode in [Mode::Plain, Mode::Pretty] {
        let plain = "S { a: [x], b: {} }";
        same(&rt, comes_back(rt.alloc(), mode, plain), Ok(true), plain);
        for plain in ["(1.5, S)", "S { a: T { .. }, .. }"] {
            let given = debug_document_comes_back(rt.alloc(), mode, plain);
            same(&rt, given, Ok(true), plain);
        }
    }
}

// What comes back of a leaf that spells a struct with dots: whether it is that struct, and whether the
// token reader refuses its text.
fn dots_in_a_leaf(alloc: Global) -> Result<(bool, bool), ReadError> {
    let leaf = Doc::Leaf(String::from_str(alloc, "S { .. }")?);
    let normal = normal_by_way_of_text(alloc, Class::Debug, Mode::Plain, &leaf)?;
    let ends_in_dots = matches!(&normal, DebugDoc::StructOf(name, _) if name.ends_in_dots);
    let refused = normal_by_way_of_text(alloc, Class::Token, Mode::Plain, &leaf);
    Ok((ends_in_dots, matches!(refused, Err(ReadError::NotText))))
}

#[test]
fn a_leaf_that_spells_dots_comes_back_as_a_debug_document(rt: HostRuntime) {
    let given = dots_in_a_leaf(rt.alloc());
    same(&rt, given, Ok((true, true)), "dots in a leaf");
}

#[test]
fn errors_have_codes(rt: HostRuntime) {
    want_of_memory_is_one_error::<u8>();
    let codes = (ReadError::NotText.code(), ReadError::OutOfMemory.code());
    same(&rt, codes, (1, 2), "codes");
}
