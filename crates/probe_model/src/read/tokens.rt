//! What only the calls on token texts say of a text.
use crate::read::calls::Calls;
use crate::read::fault::{Fault, agree};
use crate::read::fields;
use crate::read::half::has_parts;
use crate::read::parts::Parts;
use std::alloc::{AllocError, Global};
use ufmt::layout::Mode;
use ufmt_doc::doc::{Doc, same_text};
use ufmt_doc::laws::normal_by_way_of_text;
use ufmt_doc::plain_reader::ReadError;

/// Returns what the calls say of a token text, as a message. It is empty if the text is none, and the
/// calls say so.
pub fn verdict(calls: Calls<'_>) -> Result<String, AllocError> {
    let outcome = match calls.read::<String>() {
        Ok(doc) => is_text_in_a_list(calls, &doc).map(Some),
        Err(_) => of_no_text(calls).map(|()| None),
    };
    match outcome {
        Ok(Some(true)) => String::from_str(calls.alloc, ", in a list yes"),
        Ok(Some(false)) => String::from_str(calls.alloc, ", in a list no"),
        Ok(None) => Ok(String::new(calls.alloc)),
        Err(fault) => {
            let message = fault.message(calls.alloc)?;
            format!(in calls.alloc; ", {message}")
        }
    }
}

// Makes each call on a token text. Returns whether a list of its document is a token document: it is less
// than 255 deep.
fn is_text_in_a_list(calls: Calls<'_>, doc: &Doc) -> Result<bool, Fault> {
    comes_again(calls)?;
    comes_as_normal(calls, doc)?;
    fields::reads_fields(calls, doc)?;
    is_token_in_a_list(calls, doc)
}

// Reads and prints the text, and converts it to the other mode and back.
fn comes_again(calls: Calls<'_>) -> Result<(), Fault> {
    let again = calls.again()?;
    agree(again.as_bytes() == calls.text, "read and printed again")?;
    let is_same = calls.convert_token() == calls.convert();
    agree(is_same, "conversion by the call for a mode")?;
    let back = calls.by_way_of_the_other()?;
    agree(back.as_bytes() == calls.text, "there and back")
}

// A document that isn't in normal form is printed and read again. The result is the normal form.
fn comes_as_normal(calls: Calls<'_>, doc: &Doc) -> Result<(), Fault> {
    let parts = Parts::of(calls.alloc, doc)?;
    let loose = calls.read_loose::<String>()?;
    let by_plain = normal_by_way_of_text(calls.alloc, calls.class, Mode::Plain, &loose)?;
    has_parts(calls, &by_plain, &parts, "normal form by way of plain")?;
    let by_pretty = normal_by_way_of_text(calls.alloc, calls.class, Mode::Pretty, &loose)?;
    has_parts(calls, &by_pretty, &parts, "normal form by way of pretty")
}

fn is_token_in_a_list(calls: Calls<'_>, doc: &Doc) -> Result<bool, Fault> {
    let mut entries = Vec::new(calls.alloc);
    entries.push(calls.read()?)?;
    let list = Doc::Listed(entries);
    if !list.is_token() {
        return Ok(false);
    }
    let are_different = !same_text(&list, doc) && !same_text(doc, &list);
    agree(are_different, "same_text with a list of it")?;
    Ok(true)
}

fn of_no_text(calls: Calls<'_>) -> Result<(), Fault> {
    agree(
        calls.again() == Err(ReadError::NotText),
        "no text, read again",
    )?;
    agree(fields::is_refused(calls), "read_field of no text")?;
    let converted = calls.convert_token();
    agree(
        converted == Err(ReadError::NotText),
        "conversion of no text by the call for a mode",
    )?;
    let by_way = calls.by_way_of_the_other();
    agree(by_way == Err(ReadError::NotText), "no text, there and back")
}
