//! Reading a token document or a debug document from its text.
ghost use Rattle.std.specs.Prelude.{IfOk, IsErrOf, IsTrue};
ghost use Rattle.ufmt.specs.Token.{MayEndInDots};
ghost use Rattle.ufmt.specs.Layout.{layout, plain_text, pretty_text, setting};
ghost use Rattle.ufmt_doc.specs.Doc.{debug_document, doc_document, tree_document};
ghost use Rattle.ufmt_grammar.specs.declared.class.Class.TheVariants.{Debug, Token};
ghost use Rattle.ufmt_scan.specs.Texts.{IsNormalForm, NoDocumentPrints};

mod document_sink;
mod open_block;
mod open_blocks;
mod read_name;

use crate::doc::{DebugDoc, Doc, Tree};
use document_sink::DocumentSink;
use read_name::ReadName;
use std::alloc::Global;
use ufmt::class::Class;
use ufmt::layout::Mode;
use ufmt_scan::error::ReadError;
use ufmt_scan::scan::scan;

// Promise (headline): Part 2: a reader accepts only the texts of its class, and returns the normal form.
// Clauses: `ok`. Also: `read_pretty`, `read_debug`.
// Promise (headline): Part 2: a reader accepts every text of its class. Clauses: `not_text`. Also:
// `read_pretty`, `read_debug`.
/// Returns the document with this plain text, in normal form: empty braces are an empty map, and a
/// name without a block is a leaf. Fails with `NotText` only if no token document has this text;
/// the other error is `OutOfMemory`.
pub fn read_plain(alloc: Global, input: &[u8]) -> Result<Doc, ReadError>
    ensures ok { IfOk result (λ doc. IsNormalForm Token plain_text input.now (doc_document doc)) }
    ensures not_text { IsErrOf result ReadError.NotText → NoDocumentPrints Token plain_text input.now }
{
    read_text(alloc, Class::Token, Mode::Plain, input)
}

/// Returns the document with this pretty text, as `read_plain` does with a plain one.
pub fn read_pretty(alloc: Global, input: &[u8]) -> Result<Doc, ReadError>
    ensures ok { IfOk result (λ doc. IsNormalForm Token pretty_text input.now (doc_document doc)) }
    ensures not_text { IsErrOf result ReadError.NotText → NoDocumentPrints Token pretty_text input.now }
{
    read_text(alloc, Class::Token, Mode::Pretty, input)
}

/// Returns the debug document with this text in this mode, in normal form. Fails with `NotText` only if
/// no debug document has this text; the other error is `OutOfMemory`.
#[inline(always)]
pub fn read_debug(alloc: Global, mode: Mode, text: &[u8]) -> Result<DebugDoc, ReadError>
    ensures ok { IfOk result
        (λ doc. IsNormalForm Debug (layout (setting mode 0)) text.now (debug_document doc)) }
    ensures not_text { IsErrOf result ReadError.NotText
        → NoDocumentPrints Debug (layout (setting mode 0)) text.now }
{
    read_text(alloc, Class::Debug, mode, text)
}

/// The document of the class in normal form that has the whole text. Names can say that a struct ends in
/// dots if structs of the class may.
pub(crate) fn read_text<N: ReadName>(
    alloc: Global,
    class: Class,
    mode: Mode,
    input: &[u8],
) -> Result<Tree<N>, ReadError>
    requires { MayEndInDots class → IsTrue N.says_dots }
    ensures ok { IfOk result (λ doc. IsNormalForm class (layout (setting mode 0)) input.now
        (tree_document N.shown doc)) }
    ensures not_text { IsErrOf result ReadError.NotText
        → NoDocumentPrints class (layout (setting mode 0)) input.now }
{
    let mut sink = DocumentSink::new(alloc);
    scan(class, mode, input, &mut sink)?;
    sink.into_document().ok_or(ReadError::NotText)
}
