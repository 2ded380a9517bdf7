//! A test of a document that a caller takes apart. What each call returns of a read document is rows of tools/data/rows.
use super::same;
use std::alloc::Global;
use ufmt_doc::plain_reader::{ReadError, read_plain};

// A caller that collects what it read, with `?` after each push.
fn name_lengths(alloc: Global, line: &[u8]) -> Result<Vec<usize>, ReadError> {
    let doc = read_plain(alloc, line)?;
    let fields = doc.fields().unwrap_or(&[]);
    let mut lengths = Vec::new(alloc);
    for field in fields {
        lengths.push(field.0.len())?;
    }
    Ok(lengths)
}

#[test]
fn field_names_of_a_read_document_are_collected(rt: HostRuntime) -> Result<(), ReadError> {
    let lengths = name_lengths(rt.alloc(), b"P { x: 1, why: 2 }")?;
    same(&rt, lengths.as_slice(), [1, 3].as_slice(), "names");
    Ok(())
}
