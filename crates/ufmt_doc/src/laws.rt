//! Laws of reading and writing, each as the contract of a function.
ghost use Rattle.std.specs.Prelude.{◌≡◌, string_bytes, IfOk, IsErrOf};
ghost use Rattle.ufmt.specs.Document.{Document};
ghost use Rattle.ufmt.specs.Layout.{layout, setting};
ghost use Rattle.ufmt.specs.Token.{IsDocument, normal};
ghost use Rattle.ufmt_doc.specs.Doc.{debug_document, tree_document};
ghost use Rattle.ufmt_scan.specs.Texts.{IsConverted, IsNormalForm, NoDocumentPrints, other_mode};

use crate::doc::{DebugDoc, StructName, Tree};
use crate::reader::read_text;
use std::alloc::{AllocError, AllocFailed, Global};
use ufmt::class::Class;
use ufmt::layout::Mode;
use ufmt::{plain_text, pretty_text};
use ufmt_scan::convert::{convert, other_mode};
use ufmt_scan::error::ReadError;

// Promise (reading): A text comes back the same when it is read and printed again, or converted there and back.
// A document that is printed and read again comes back as its normal form. The calls return the document or the
// text in between too. Also: `laws::text_by_way_of_the_other`, `laws::normal_by_way_of_text`.
/// Reads a text of a document of the class, and prints the document in the same mode. Returns the document
/// and its text, which is the input. Fails with `NotText` if no document of the class has the text, and
/// otherwise only with `OutOfMemory`.
pub fn text_again(
    alloc: Global,
    class: Class,
    mode: Mode,
    input: &[u8],
) -> Result<(DebugDoc, String), ReadError>
    ensures ok { IfOk result (λ x. string_bytes x.1 ≡ input.now) }
    ensures found { IfOk result (λ x.
        IsNormalForm class (layout (setting mode 0)) input.now (debug_document x.0)) }
    ensures printed { IfOk result (λ x.
        string_bytes x.1 ≡ layout (setting mode 0) (debug_document x.0)) }
    ensures not_text { IsErrOf result ReadError.NotText
        → NoDocumentPrints class (layout (setting mode 0)) input.now }
{
    let doc: DebugDoc = read_text(alloc, class, mode, input)?;
    let text = printed(alloc, mode, &doc)?;
    Ok((doc, text))
}

/// Converts a text of a document of the class to the other mode and back. Returns the other text, and the
/// text that it is converted to, which is the input. Fails as `text_again` does.
pub fn text_by_way_of_the_other(
    alloc: Global,
    class: Class,
    mode: Mode,
    input: &[u8],
) -> Result<(String, String), ReadError>
    ensures ok { IfOk result (λ x. string_bytes x.1 ≡ input.now) }
    ensures found { IfOk result (λ x.
        (d : Document) × IsNormalForm class (layout (setting mode 0)) input.now d) }
    ensures other { IfOk result (λ x. IsConverted class (layout (setting mode 0))
        (layout (setting (other_mode mode) 0)) input.now (string_bytes x.0)) }
    ensures back { IfOk result (λ x. IsConverted class (layout (setting (other_mode mode) 0))
        (layout (setting mode 0)) (string_bytes x.0) (string_bytes x.1)) }
    ensures not_text { IsErrOf result ReadError.NotText
        → NoDocumentPrints class (layout (setting mode 0)) input.now }
{
    let other = convert(alloc, class, other_mode(mode), input)?;
    let again = convert(alloc, class, mode, other.as_bytes())?;
    Ok((other, again))
}

// Promise (headline): Parts 1 and 2 together: reading what a document of the class prints returns its normal
// form.
/// Prints a document, and reads the text. This gives the normal form of a document of the class. Fails
/// with `NotText` if no document of the class has the text, and otherwise only with `OutOfMemory`.
pub fn normal_by_way_of_text<N: StructName>(
    alloc: Global,
    class: Class,
    mode: Mode,
    doc: &Tree<N>,
) -> Result<DebugDoc, ReadError>
    ensures ok { IsDocument class (tree_document N.shown doc.now)
        → IfOk result (λ again. debug_document again ≡ normal (tree_document N.shown doc.now)) }
    ensures is_text { IsDocument class (tree_document N.shown doc.now)
        → IsErrOf result ReadError.NotText → ⊥ }
    ensures found { IfOk result (λ again. IsNormalForm class (layout (setting mode 0))
        (layout (setting mode 0) (tree_document N.shown doc.now)) (debug_document again)) }
    ensures not_text { IsErrOf result ReadError.NotText
        → NoDocumentPrints class (layout (setting mode 0))
        (layout (setting mode 0) (tree_document N.shown doc.now)) }
{
    let text = printed(alloc, mode, doc)?;
    read_text(alloc, class, mode, text.as_bytes())
}

/// A reader's error is `OutOfMemory`, whether a `String` or a `Vec` had no memory.
pub fn want_of_memory_is_one_error<T: Drop>()
    ensures of_text { (e : _) (error : _) → ⟦<ReadError as From<AllocError>>⟧.from_gives e error
        → error ≡ ReadError.OutOfMemory }
    ensures of_item { (e : _) (error : _)
        → ⟦<ReadError as From<AllocFailed<T>>>⟧.from_gives e error
        → error ≡ ReadError.OutOfMemory }
{}

// The document's text in this mode.
fn printed<N: StructName>(alloc: Global, mode: Mode, doc: &Tree<N>) -> Result<String, AllocError>
    ensures { IfOk result (λ text.
        string_bytes text ≡ layout (setting mode 0) (tree_document N.shown doc.now)) }
{
    match mode {
        Mode::Plain => plain_text(alloc, doc),
        Mode::Pretty => pretty_text(alloc, doc),
    }
}
