//! The pieces in which a document is printed, and those in which its text is converted.
use crate::digest::Digest;
use crate::pieces::Pieces;
use crate::read::calls::Calls;
use crate::read::fault::{Fault, agree};
use std::alloc::{AllocError, Global};
use ufmt::uDebug;

/// A digest of each.
#[derive(Clone, Copy)]
pub struct TextPieces {
    printed: Digest,
    converted: Digest,
}

impl TextPieces {
    /// Prints the document that was read, and converts its text.
    pub fn of<T: uDebug>(calls: Calls<'_>, doc: &T) -> Result<TextPieces, Fault> {
        let mut pieces = Pieces::new();
        let outcome = calls.convert_to(&mut pieces);
        agree(outcome.is_ok(), "conversion to a writer of pieces")?;
        Ok(TextPieces {
            printed: printed(calls, doc),
            converted: pieces.digest,
        })
    }

    pub fn message(&self, alloc: Global) -> Result<String, AllocError> {
        let printed = self.printed.message(alloc)?;
        let converted = self.converted.message(alloc)?;
        format!(in alloc; "printed {printed}, converted {converted}")
    }
}

/// The pieces in which a document is printed.
pub fn printed<T: uDebug>(calls: Calls<'_>, doc: &T) -> Digest {
    let mut pieces = Pieces::new();
    calls.print_to(&mut pieces, doc);
    pieces.digest
}
