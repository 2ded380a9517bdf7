//! Makes each call that reads, converts or prints by itself, and notes it.
use crate::costs::{Costs, count};
use crate::read::calls::{Calls, Name};
use std::alloc::AllocError;
use ufmt_doc::doc::{DebugName, Doc, same_text};
use ufmt_doc::field_text::read_field;
use ufmt_scan::leaf::{is_leaf, is_word};

/// Makes the calls that both classes have on a text.
pub fn on_text<N: Name>(costs: &mut Costs, calls: Calls<'_>) -> Result<(), AllocError> {
    count!(costs, "is_text", calls.is_text().then_some(()));
    count!(costs, "read", calls.read::<N>().ok());
    count!(costs, "convert", calls.convert().ok());
    count!(costs, "convert to a String", converted_to_a_string(calls));
    let length = match calls.convert() {
        Ok(text) => text.len(),
        Err(_) => calls.text.len(),
    };
    let mut buffer = vec![in costs.alloc; 0u8; length]?;
    count!(costs, "convert into", calls.convert_into(&mut buffer).ok());
    Ok(())
}

/// Makes the calls on token texts alone, and those on the document that was read.
pub fn on_token_text(costs: &mut Costs, calls: Calls<'_>) -> Result<(), AllocError> {
    count!(costs, "again", calls.again().ok());
    count!(costs, "there and back", calls.by_way_of_the_other().ok());
    match (calls.read::<String>(), calls.read_loose::<String>()) {
        (Ok(doc), Ok(mut loose)) => on_docs(costs, calls, &doc, &mut loose),
        _ => Ok(()),
    }
}

fn on_docs(
    costs: &mut Costs,
    calls: Calls<'_>,
    doc: &Doc,
    loose: &mut Doc,
) -> Result<(), AllocError> {
    on_doc(costs, calls, doc)?;
    on_fields(costs, calls, doc)?;
    on_loose(costs, calls, doc, loose)
}

fn on_doc(costs: &mut Costs, calls: Calls<'_>, doc: &Doc) -> Result<(), AllocError> {
    count!(costs, "is_token", doc.is_token().then_some(()));
    count!(costs, "print", calls.print(doc).ok());
    let mut buffer = vec![in costs.alloc; 0u8; calls.text.len()]?;
    count!(costs, "print into", calls.print_into(&mut buffer, doc).ok());
    Ok(())
}

/// Makes the call on debug documents alone.
pub fn on_debug_doc(costs: &mut Costs, calls: Calls<'_>) -> Result<(), AllocError> {
    if let Ok(doc) = calls.read::<DebugName>() {
        count!(costs, "is_debug", doc.is_debug().then_some(()));
    }
    Ok(())
}

fn on_fields(costs: &mut Costs, calls: Calls<'_>, doc: &Doc) -> Result<(), AllocError> {
    let (alloc, name) = (costs.alloc, last_name(doc));
    count!(costs, "unquoted", doc.unquoted(alloc).unwrap_or(None));
    count!(costs, "leaf_text", doc.leaf_text(alloc).unwrap_or(None));
    count!(
        costs,
        "field_text",
        doc.field_text(alloc, name).unwrap_or(None)
    );
    count!(
        costs,
        "read_field",
        read_field(alloc, calls.text, name).unwrap_or(None)
    );
    Ok(())
}

// Calls on a document and on another of the same text, which isn't in normal form.
fn on_loose(
    costs: &mut Costs,
    calls: Calls<'_>,
    doc: &Doc,
    loose: &mut Doc,
) -> Result<(), AllocError> {
    let mut buffer = vec![in costs.alloc; 0u8; calls.text.len()]?;
    count!(
        costs,
        "print loose into",
        calls.print_into(&mut buffer, loose).ok()
    );
    count!(costs, "same_text", have_same_text(doc, loose).then_some(()));
    costs.begin();
    loose.normalize(costs.alloc);
    costs.note("normalize", Some(()))
}

/// Makes the calls on a text as a leaf.
pub fn on_leaf(costs: &mut Costs, text: &str) -> Result<(), AllocError> {
    let alloc = costs.alloc;
    let first = text.chars().next().unwrap_or('x');
    count!(costs, "is_leaf", is_leaf(text).then_some(()));
    count!(costs, "is_word", is_word(text).then_some(()));
    count!(costs, "Doc::text", Doc::text(alloc, text).ok());
    count!(costs, "Doc::character", Doc::character(alloc, first).ok());
    Ok(())
}

fn converted_to_a_string(calls: Calls<'_>) -> Option<String> {
    let mut text = String::new(calls.alloc);
    match calls.convert_to(&mut text) {
        Ok(()) => Some(text),
        Err(_) => None,
    }
}

fn have_same_text(doc: &Doc, other: &Doc) -> bool {
    doc.is_token() && other.is_token() && same_text(doc, other) && same_text(other, doc)
}

// The name of the last field, or a name that no field has.
fn last_name(doc: &Doc) -> &str {
    match doc.fields() {
        Some([.., (name, _)]) => name,
        _ => "",
    }
}
