//! What the leaves and the fields of a document show, by each call that returns a text.
use crate::read::calls::Calls;
use crate::read::fault::{Fault, agree};
use std::alloc::Global;
use ufmt::layout::Mode;
use ufmt_doc::doc::{Doc, StructName, Tree};
use ufmt_doc::field_text::read_field;
use ufmt_doc::plain_reader::ReadError;

// How many fields of a struct are asked for, besides its last.
const MOST_FIELDS: usize = 8;

// A line is read once for each name. Of a longer one only few names are asked for.
const LONGEST_LINE: usize = 500;

/// Notes what a document shows that isn't within another: its own text, and those of its fields.
pub fn note_shown<N: StructName>(
    alloc: Global,
    doc: &Tree<N>,
    out: &mut String,
) -> Result<(), Fault> {
    note_outcome(doc.leaf_text(alloc)?, out)?;
    note_field(alloc, doc, "x", out)?;
    let Some(fields) = doc.fields() else {
        return Ok(());
    };
    for (name, _) in fields.iter().take(MOST_FIELDS) {
        note_near(alloc, doc, name, out)?;
    }
    match fields.last() {
        Some((name, _)) => note_near(alloc, doc, name, out),
        None => Ok(()),
    }
}

// The fields of this name, and of names that differ a little.
fn note_near<N: StructName>(
    alloc: Global,
    doc: &Tree<N>,
    name: &str,
    out: &mut String,
) -> Result<(), Fault> {
    note_field(alloc, doc, name, out)?;
    note_field(alloc, doc, without_last(name), out)?;
    note_field(alloc, doc, without_first(name), out)?;
    note_field(alloc, doc, &name.to_ascii_uppercase(alloc)?, out)?;
    note_field(alloc, doc, &format!(in alloc; "{name}x")?, out)
}

fn note_field<N: StructName>(
    alloc: Global,
    doc: &Tree<N>,
    name: &str,
    out: &mut String,
) -> Result<(), Fault> {
    out.push_str(name)?;
    note_outcome(doc.field_text(alloc, name)?, out)
}

fn note_outcome(outcome: Option<String>, out: &mut String) -> Result<(), Fault> {
    match outcome {
        Some(text) => {
            out.push('=')?;
            out.push_str(&text)?;
            out.push(' ')?;
        }
        None => out.push_str("- ")?,
    }
    Ok(())
}

fn without_last(name: &str) -> &str {
    name.get(..name.len().saturating_sub(1)).unwrap_or(name)
}

fn without_first(name: &str) -> &str {
    name.get(1..).unwrap_or(name)
}

/// Compares `read_field` on a plain text with `field_text` of its document.
pub fn reads_fields(calls: Calls<'_>, doc: &Doc) -> Result<(), Fault> {
    if calls.mode == Mode::Pretty {
        return Ok(());
    }
    reads_field(calls, doc, "x")?;
    let fields = doc.fields().unwrap_or(&[]);
    if let Some((name, _)) = fields.last() {
        reads_field(calls, doc, name)?;
    }
    if calls.text.len() <= LONGEST_LINE {
        for (name, _) in fields {
            reads_near(calls, doc, name)?;
        }
    }
    Ok(())
}

fn reads_near(calls: Calls<'_>, doc: &Doc, name: &str) -> Result<(), Fault> {
    reads_field(calls, doc, name)?;
    reads_field(calls, doc, without_last(name))?;
    reads_field(calls, doc, &name.to_ascii_uppercase(calls.alloc)?)
}

fn reads_field(calls: Calls<'_>, doc: &Doc, name: &str) -> Result<(), Fault> {
    let outcome = read_field(calls.alloc, calls.text, name)?;
    agree(outcome == doc.field_text(calls.alloc, name)?, "read_field")
}

/// Whether `read_field` fails with `NotText` if the text is no plain text.
pub fn is_refused(calls: Calls<'_>) -> bool {
    calls.mode == Mode::Pretty
        || read_field(calls.alloc, calls.text, "x") == Err(ReadError::NotText)
}
