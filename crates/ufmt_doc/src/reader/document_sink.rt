//! A sink that makes the document whose events it takes.
ghost use Rattle.std.specs.Prelude.{◌≡◌, ◌&&◌, [], None, OnOk, option_map, ⊤};
ghost use Rattle.std.proofs.Common.{refl};
ghost use Rattle.ufmt.specs.Document.{leaf, no_fields};
ghost use Rattle.ufmt_doc.specs.Doc.{tree_document};
ghost use Rattle.ufmt_doc.specs.Private.Growing.{closed, empty_block, growing, grown};
ghost use Rattle.ufmt_doc.specs.Private.OpenBlock.{changed, field_named, keyed, opened, pushed, put};
ghost use Rattle.ufmt_doc.specs.StructNames.{named_struct};

use super::open_block::OpenBlock;
use super::open_blocks::OpenBlocks;
use super::read_name::ReadName;
use crate::doc::Tree;
use std::alloc::{AllocError, Global};
use ufmt::layout::Kind;
use ufmt_scan::scan::{Event, Sink};

/// The blocks that are open, and the whole document once it has ended.
#[derive(Drop)]
pub(super) struct DocumentSink<N> {
    alloc: Global,
    blocks: OpenBlocks<N>,
    whole: Option<Tree<N>>,
}

#[tactic(auto, using(crate::proofs::Trees::trees))]
impl<N: ReadName> DocumentSink<N> {
    /// Makes a sink that took no events.
    pub(super) fn new(alloc: Global) -> DocumentSink<N>
        ensures { growing N.shown result ≡ (None, []) }
    {
        DocumentSink {
            alloc,
            blocks: OpenBlocks::new(alloc),
            whole: None,
        }
    }

    /// Returns the document, if it has ended.
    pub(super) fn into_document(self) -> Option<Tree<N>>
        ensures { option_map (tree_document N.shown) result ≡ (growing N.shown self).0 }
    {
        self.whole
    }

    #[inline(always)]
    fn put(&mut self, doc: Tree<N>) -> Result<(), AllocError>
        ensures { OnOk result (growing N.shown self.new ≡ put (tree_document N.shown doc) (growing N.shown self.old)) }
    {
        self.blocks.put(doc, &mut self.whole)
    }

    #[inline(always)]
    fn put_leaf(&mut self, text: &str) -> Result<(), AllocError>
        ensures { OnOk result (growing N.shown self.new ≡ put (leaf text.now) (growing N.shown self.old)) }
    {
        let text = String::from_str(self.alloc, text)?;
        self.put(Tree::Leaf(text))
    }

    #[inline(never)]
    fn put_empty(&mut self, kind: Kind) -> Result<(), AllocError>
        ensures { OnOk result (growing N.shown self.new ≡ put (empty_block kind) (growing N.shown self.old)) }
    {
        self.put(match kind {
            Kind::Brackets => Tree::Listed(Vec::new(self.alloc)),
            _ => Tree::MapOf(Vec::new(self.alloc)),
        })
    }

    #[inline(never)]
    fn put_only_dots(&mut self, name: &str) -> Result<(), AllocError>
        ensures { OnOk result (growing N.shown self.new ≡ put (named_struct (name.now, N.says_dots) no_fields) (growing N.shown self.old)) }
    {
        let name = N::read_name(String::from_str(self.alloc, name)?, true);
        self.put(Tree::StructOf(name, Vec::new(self.alloc)))
    }

    fn open(&mut self, kind: Kind, name: &str) -> Result<(), AllocError>
        ensures { OnOk result (growing N.shown self.new ≡ ((growing N.shown self.old).0, pushed (opened kind name.now) (growing N.shown self.old).1)) }
    {
        let block = OpenBlock::new(self.alloc, kind, name)?;
        self.blocks.push(block)
    }

    #[inline(always)]
    fn name_field(&mut self, name: &str) -> Result<(), AllocError>
        ensures { OnOk result (growing N.shown self.new ≡ ((growing N.shown self.old).0, changed (field_named name.now) (growing N.shown self.old).1)) }
    {
        let name = String::from_str(self.alloc, name)?;
        self.blocks.name_field(name);
        Ok(())
    }

    fn close(&mut self, ends_in_dots: bool) -> Result<(), AllocError>
        ensures { OnOk result (growing N.shown self.new ≡ closed (ends_in_dots && N.says_dots) (growing N.shown self.old)) }
    {
        match self.blocks.pop() {
            Some(block) => self.put(block.close(ends_in_dots)),
            None => Ok(()),
        }
    }
}

/// Fails only if memory runs out.
impl<N: ReadName> Sink for DocumentSink<N> {
    type Error = AllocError;

    ghost took = { λ old es new. growing N.shown new ≡ grown N.says_dots (growing N.shown old) es };

    ghost stopped = { λ _ _ _. ⊤ };

    ghost begun = { λ _. refl };

    // Frequent events are inlined. A function first clears space for the values of all its arms, so
    // rare arms and loops are not inlined.
    #[inline(always)]
    fn event(&mut self, event: Event<&str>) -> Result<(), AllocError> {
        match event {
            Event::Leaf(text) => self.put_leaf(text),
            Event::Empty(kind) => self.put_empty(kind),
            Event::OnlyDots(name) => self.put_only_dots(name),
            Event::Open(kind, name) => self.open(kind, name),
            Event::FieldName(name) => self.name_field(name),
            Event::Colon => {
                self.blocks.wait_for_value(self.alloc);
                Ok(())
            }
            Event::Next => Ok(()),
            Event::Close(_, _) => self.close(false),
            Event::Dots => self.close(true),
        }
    }
}
