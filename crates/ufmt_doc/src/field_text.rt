//! What the fields of a struct show, for lines without a type.
ghost use Rattle.std.specs.Prelude.{◌≡◌, IfOk, IsErrOf};
ghost use Rattle.ufmt.specs.Document.{Document};
ghost use Rattle.ufmt.specs.Layout.{plain_text};
ghost use Rattle.ufmt.specs.Token.{IsTokenDocument, normal};
ghost use Rattle.ufmt_doc.specs.Doc.{tree_document};
ghost use Rattle.ufmt_doc.specs.FieldTexts.{ShowsField, ShowsText};
ghost use Rattle.ufmt_grammar.specs.declared.class.Class.TheVariants.{Token};
ghost use Rattle.ufmt_scan.specs.Texts.{IsNormalForm, NoDocumentPrints};

use crate::doc::{StructName, Tree};
use crate::reader::read_plain;
use std::alloc::{AllocError, Global};
use ufmt_scan::error::ReadError;

impl<N: StructName> Tree<N> {
    /// Returns the text that a leaf shows: what `unquoted` returns of it, or of any other leaf its own text
    /// as it is. So `b"x"`, `"a".."b"` and `"\u{301}"` keep their quotes and escapes. Returns `None` if this
    /// is a block. Fails only if memory runs out.
    pub fn leaf_text(&self, alloc: Global) -> Result<Option<String>, AllocError>
        ensures { IfOk result (λ outcome. ShowsText (tree_document N.shown self.now) outcome) }
    {
        let Some(text) = self.as_leaf() else {
            return Ok(None);
        };
        match self.unquoted(alloc)? {
            Some(inside) => Ok(Some(inside)),
            None => Ok(Some(String::from_str(alloc, text)?)),
        }
    }

    /// Returns the text of a struct's first field with this name, as `leaf_text` does. Returns `None` if
    /// there is no such field, or if its value is a block.
    pub fn field_text(&self, alloc: Global, name: &str) -> Result<Option<String>, AllocError>
        ensures { IfOk result (λ outcome. ShowsField name.now (tree_document N.shown self.now) outcome) }
    {
        match self.field(name) {
            Some(value) => value.leaf_text(alloc),
            None => Ok(None),
        }
    }
}

// Promise (reading): The text of a field is its leaf, or what the leaf's quotes hold. It is `None` if the
// field is missing or a block, or if the line isn't a text. Clauses: `found`, `each`. Also:
// `Tree::field_text`, `Tree::leaf_text`.
/// Returns the text of a field of the struct that was printed to a line, as `Doc::field_text` does. Fails
/// with `NotText` only if no token document has this plain text; the other error is `OutOfMemory`.
pub fn read_field(alloc: Global, line: &[u8], name: &str) -> Result<Option<String>, ReadError>
    ensures found { IfOk result (λ outcome. (d : Document) × IsNormalForm Token plain_text line.now d
        × ShowsField name.now d outcome) }
    ensures each { IfOk result (λ outcome. (d : Document) → IsTokenDocument d → plain_text d ≡ line.now
        → ShowsField name.now (normal d) outcome) }
    ensures not_text { IsErrOf result ReadError.NotText → NoDocumentPrints Token plain_text line.now }
{
    let doc = read_plain(alloc, line)?;
    Ok(doc.field_text(alloc, name)?)
}
