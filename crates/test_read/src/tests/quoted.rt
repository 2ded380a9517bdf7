//! Tests of `unquoted` on leaves that no text has. Other leaves are rows of tools/data/rows.
use super::same;
use std::alloc::{AllocError, Global};
use ufmt_doc::Doc;

// Whether this leaf has no text in quotes.
fn has_no_text(alloc: Global, leaf: &str) -> Result<bool, AllocError> {
    let doc = Doc::Leaf(String::from_str(alloc, leaf)?);
    Ok(doc.unquoted(alloc)?.is_none())
}

#[test]
fn unquoted_is_none_of_other_documents(rt: HostRuntime) {
    for leaf in ["", "x", "()", "\"a", "'ab'", "\"\\u{41}\""] {
        same(&rt, has_no_text(rt.alloc(), leaf), Ok(true), leaf);
    }
    let unquoted = Doc::Listed(Vec::new(rt.alloc())).unquoted(rt.alloc());
    same(&rt, unquoted, Ok(None), "a list");
}

// The leaf of a text or a character, and what is between its quotes.
fn made_and_unquoted(alloc: Global, text: &str) -> Result<(bool, bool), AllocError> {
    let character = text.chars().next().unwrap_or('x');
    let of_text = Doc::text(alloc, text)?.unquoted(alloc)?;
    let of_character = Doc::character(alloc, character)?.unquoted(alloc)?;
    let front = text.get(..character.len_utf8());
    let is_character = of_character.as_deref() == front;
    Ok((of_text.as_deref() == Some(text), is_character))
}

#[test]
fn a_text_and_a_character_are_unquoted(rt: HostRuntime) {
    for text in ["say \"it's\"", "\0\u{1b}\n", "é€", "'", "\u{7f}"] {
        let given = made_and_unquoted(rt.alloc(), text);
        same(&rt, given, Ok((true, true)), text);
    }
}
