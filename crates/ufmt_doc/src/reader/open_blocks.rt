//! The open blocks of a text that is read.
ghost use Rattle.std.specs.Prelude.{◌≤◌, length};

use super::open_block::OpenBlock;
use super::read_name::ReadName;
use crate::doc::Tree;
use std::alloc::{AllocError, Global};

// Blocks with entries are at most 255 deep in a document. A scan opens one more, and no entry begins in it.
const MOST_OPEN: usize = 256;

/// The open blocks of a text, the innermost last.
#[derive(Drop)]
pub(super) struct OpenBlocks<N> {
    blocks: Vec<OpenBlock<N>>,
    ghost bounded: { length blocks.items ≤ 256 },
}

impl<N: ReadName> OpenBlocks<N> {
    ghost use Rattle.std.specs.Prelude.{◌≡◌, ◌∷◌, [], MatchOption, OnOk, option_map, string_bytes};
    ghost use Rattle.ufmt_doc.specs.Doc.{tree_document};
    ghost use Rattle.ufmt_doc.specs.Private.OpenBlock.{block_view, blocks_view, changed, field_named, keyed, pushed, put};

    #[inline(always)]
    pub(super) fn new(alloc: Global) -> OpenBlocks<N>
        ensures { blocks_view N.shown result.blocks.items ≡ [] }
    {
        OpenBlocks {
            blocks: Vec::new(alloc),
        }
    }

    /// Opens a block in the innermost one, unless 256 are open.
    #[inline(always)]
    pub(super) fn push(&mut self, block: OpenBlock<N>) -> Result<(), AllocError>
        ensures { OnOk result (blocks_view N.shown self.new.blocks.items
            ≡ pushed (block_view N.shown block) (blocks_view N.shown self.old.blocks.items)) }
    {
        if self.blocks.len() == MOST_OPEN {
            return Ok(());
        }
        self.blocks.push(block)?;
        Ok(())
    }

    /// Ends the innermost block.
    #[inline(always)]
    pub(super) fn pop(&mut self) -> Option<OpenBlock<N>>
        ensures { MatchOption result ((blocks_view N.shown self.old.blocks.items ≡ []) × (blocks_view N.shown self.new.blocks.items ≡ []))
            (λ block. blocks_view N.shown self.old.blocks.items ≡ block_view N.shown block ∷ blocks_view N.shown self.new.blocks.items) }
    {
        self.blocks.pop()
    }

    /// Puts a document into the innermost block, or in `whole` if no block is open.
    #[inline(always)]
    pub(super) fn put(
        &mut self,
        doc: Tree<N>,
        whole: &mut Option<Tree<N>>,
    ) -> Result<(), AllocError>
        ensures { OnOk result ((option_map (tree_document N.shown) whole.new, blocks_view N.shown self.new.blocks.items)
            ≡ put (tree_document N.shown doc) (option_map (tree_document N.shown) whole.old, blocks_view N.shown self.old.blocks.items)) }
    {
        match self.blocks.last_mut() {
            Some(innermost) => innermost.put(doc),
            None => {
                *whole = Some(doc);
                Ok(())
            }
        }
    }

    /// The name of the next field waits for its value in the innermost block.
    #[inline(always)]
    pub(super) fn name_field(&mut self, name: String)
        ensures { blocks_view N.shown self.new.blocks.items
            ≡ changed (field_named (string_bytes name)) (blocks_view N.shown self.old.blocks.items) }
    {
        if let Some(innermost) = self.blocks.last_mut() {
            innermost.name_field(name);
        }
    }

    /// A colon came in the innermost block.
    #[inline(always)]
    pub(super) fn wait_for_value(&mut self, alloc: Global)
        ensures { blocks_view N.shown self.new.blocks.items ≡ changed keyed (blocks_view N.shown self.old.blocks.items) }
    {
        if let Some(innermost) = self.blocks.last_mut() {
            innermost.wait_for_value(alloc);
        }
    }
}
