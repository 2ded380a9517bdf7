//! A test of escapes in quoted texts. Each character of ASCII, and some past it, are rows of tools/data/rows.
use super::asserts::same;
use std::alloc::{AllocError, Global};
use test_rows::piece_rows::texts_of;
use test_rows::rows::repeated;

// Whether the escape of a quotation mark is found after so many letters, with more letters after it.
fn is_escaped_after(alloc: Global, before: usize, after: usize) -> Result<bool, AllocError> {
    let (front, back) = (
        repeated(alloc, "", "x", before, "")?,
        repeated(alloc, "", "x", after, "")?,
    );
    let text = format!(in alloc; "{front}\"{back}")?;
    Ok(texts_of(alloc, &text)? == format!(in alloc; "\"{front}\\\"{back}\"")?)
}

// The code looks at four bytes at a time. So the escape is tried at each place of each length.
#[test]
fn an_escape_is_found_at_each_place(rt: HostRuntime) {
    for before in 0..11usize {
        for after in 0..11usize {
            let given = is_escaped_after(rt.alloc(), before, after);
            let wanted = (before, after, Ok(true));
            same(&rt, (before, after, given), wanted, "an escape");
        }
    }
}
