//! Lists that hold the text of a request, one in another.
use crate::digest::Digest;
use crate::pieces::Pieces;
use crate::requests::Request;
use std::alloc::AllocError;
use ufmt_doc::doc::Doc;

// Blocks are nested at most this deep. Indentation stops at 255.
const DEEPEST: usize = 260;

/// Prints the text in as many lists as the column is wide.
pub fn pieces(request: &Request<'_>, text: &str) -> Result<Digest, AllocError> {
    let mut doc = Doc::Leaf(String::from_str(request.alloc, text)?);
    for _list in 0..request.column.width.min(DEEPEST) {
        let mut entries = Vec::new(request.alloc);
        entries.push(doc)?;
        doc = Doc::Listed(entries);
    }
    let mut pieces = Pieces::new();
    pieces.value(&doc);
    Ok(pieces.digest)
}
