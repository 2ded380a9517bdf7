//! An open block of a text that is read.
ghost use Rattle.std.specs.Prelude.{◌≡◌, ◌&&◌, ◌++◌, ◌∷◌, [], IfOk, OnOk, string_bytes};
ghost use Rattle.ufmt_doc.specs.Doc.{tree_document};
ghost use Rattle.ufmt_doc.specs.Private.OpenBlock.{block_view, ended, entered, field_named, keyed, opened};

use super::read_name::ReadName;
use crate::doc::Tree;
use std::alloc::{AllocError, Global};
use ufmt::layout::Kind;

/// An open block: its kind, its name, its entries so far, and the key or the field's name that waits for
/// its value.
#[derive(Drop)]
pub(super) enum OpenBlock<N> {
    Listed(Vec<Tree<N>>),
    /// Braces in which no colon came.
    SetOf(Vec<Tree<N>>),
    MapOf(Vec<(Tree<N>, Tree<N>)>, Option<Tree<N>>),
    StructOf(String, Vec<(String, Tree<N>)>, Option<String>),
    TupleOf(String, Vec<Tree<N>>),
}

#[tactic(auto, using(crate::proofs::Trees::trees))]
impl<N: ReadName> OpenBlock<N> {
    /// Opens a block of this kind. Only a struct or a tuple with a name keeps it: a text for each other block would
    /// cost a reader more than a step for each byte.
    #[inline(always)]
    pub(super) fn new(alloc: Global, kind: Kind, name: &str) -> Result<OpenBlock<N>, AllocError>
        ensures { IfOk result (λ block. block_view N.shown block ≡ opened kind name.now) }
    {
        match kind {
            Kind::Brackets => Ok(OpenBlock::Listed(Vec::new(alloc))),
            Kind::Braces => Ok(OpenBlock::SetOf(Vec::new(alloc))),
            Kind::Struct => {
                let name = String::from_str(alloc, name)?;
                Ok(OpenBlock::StructOf(name, Vec::new(alloc), None))
            }
            Kind::Tuple => {
                let name = String::from_str(alloc, name)?;
                Ok(OpenBlock::TupleOf(name, Vec::new(alloc)))
            }
            Kind::Unnamed => Ok(OpenBlock::TupleOf(String::new(alloc), Vec::new(alloc))),
        }
    }

    /// Puts a document after the entries so far: an entry, a key, or the value of what waits.
    #[inline(always)]
    pub(super) fn put(&mut self, doc: Tree<N>) -> Result<(), AllocError>
        ensures { OnOk result (block_view N.shown self.new
            ≡ entered (tree_document N.shown doc) (block_view N.shown self.old)) }
    {
        match self {
            OpenBlock::Listed(entries) => push(entries, doc),
            OpenBlock::SetOf(entries) => push(entries, doc),
            OpenBlock::MapOf(pairs, waiting) => match waiting.take() {
                Some(key) => push(pairs, (key, doc)),
                None => {
                    *waiting = Some(doc);
                    Ok(())
                }
            },
            OpenBlock::StructOf(_, fields, waiting) => match waiting.take() {
                Some(name) => push(fields, (name, doc)),
                // A scan names each field.
                None => Ok(()),
            },
            OpenBlock::TupleOf(_, entries) => push(entries, doc),
        }
    }

    /// The name of the next field waits for its value.
    #[inline(always)]
    pub(super) fn name_field(&mut self, name: String)
        ensures { block_view N.shown self.new
            ≡ field_named (string_bytes name) (block_view N.shown self.old) }
    {
        if let OpenBlock::StructOf(_, _, waiting) = self {
            *waiting = Some(name);
        }
    }

    /// A colon came: in braces, the entry before it is a key that waits for its value.
    #[inline(always)]
    pub(super) fn wait_for_value(&mut self, alloc: Global)
        ensures { block_view N.shown self.new ≡ keyed (block_view N.shown self.old) }
    {
        if let OpenBlock::SetOf(entries) = self {
            let key = entries.pop();
            *self = OpenBlock::MapOf(Vec::new(alloc), key);
        }
    }

    /// Makes the document of a block that ends.
    #[inline(always)]
    pub(super) fn close(self, ends_in_dots: bool) -> Tree<N>
        ensures { tree_document N.shown result
            ≡ ended (ends_in_dots && N.says_dots) (block_view N.shown self) }
    {
        match self {
            OpenBlock::Listed(entries) => Tree::Listed(entries),
            OpenBlock::SetOf(entries) => Tree::SetOf(entries),
            OpenBlock::MapOf(pairs, _) => Tree::MapOf(pairs),
            OpenBlock::StructOf(name, fields, _) => {
                Tree::StructOf(N::read_name(name, ends_in_dots), fields)
            }
            OpenBlock::TupleOf(name, fields) => Tree::TupleOf(name, fields),
        }
    }
}

// Appends an item. Without memory for it, the item is dropped.
#[inline(always)]
fn push<T: Drop>(items: &mut Vec<T>, item: T) -> Result<(), AllocError>
    ensures { OnOk result (items.new.items ≡ items.old.items ++ item ∷ []) }
{
    items.push(item)?;
    Ok(())
}
