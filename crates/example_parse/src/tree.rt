//! A type that holds itself in a `Vec`.
ghost use Rattle.std.specs.List.{AllByRecursion};
ghost use Rattle.std.specs.Prelude.{[], ◌∷◌};
ghost use Rattle.ufmt.specs.Document.{Document, documents, list_of};
ghost use Rattle.ufmt.specs.ValueDocuments.{named_struct, number};
ghost use Rattle.ufmt_parse.specs.Values.{is_u64};
ghost use Rattle.example_parse.specs.Trees.{is_tree, tree_is};
ghost use Rattle.example_parse.specs.declared.tree.Tree.{out-Tree};
ghost use Rattle.example_parse.specs.declared.tree.Tree.TheFolds.{fold-Tree};

use std::alloc::Global;
use ufmt::{Formatter, fields, uDebug, uWrite};
use ufmt_parse::{
    ByType, Each, Fault, ParseMode, Parser, ParsesBy, ParsesNested, ProvesValue, parse_nested,
    parse_struct_2, uParse,
};

#[cfg(test)]
mod tests;

/// A number, and trees below it.
#[derive(Drop)]
pub struct Tree {
    pub size: u64,
    pub children: Vec<Tree>,
}

impl uDebug for Tree {
    ghost document = { fold-Tree Document
        (λ t. named_struct "Tree"
        (("size", number t.size) ∷ ("children", list_of (documents t.children.items)) ∷ [])) };

    fn fmt<W: uWrite>(&self, f: &mut Formatter<W>) -> Result<(), W::Error> {
        fields!(f, self, Tree { size, children })
    }
}

impl ProvesValue for Tree {
    ghost is_whole = { is_tree };

    #[tactic(auto, using(crate::specs::Trees::tree_is))]
    fn prove(&self) {
        let _size = self.size;
        self.children.prove();
    }
}

impl ParsesNested<Global> for Tree {
    ghost is_outer = { λ is t. is_u64 (out-Tree t).size × AllByRecursion is (out-Tree t).children.items };

    #[tactic(auto, using(crate::specs::Trees::document_is))]
    fn parse_outer<M: ParseMode, P: ParsesBy<Global, M, Tree>>(
        alloc: Global,
        parser: &mut Parser<'_, M>,
        inner: &P,
    ) -> Result<Tree, Fault> {
        let children = Each(inner);
        match parse_struct_2(
            alloc, parser, "Tree", "size", &ByType, "children", &children,
        ) {
            Err(fault) => Err(fault),
            Ok((size, children)) => Ok(Tree { size, children }),
        }
    }

    ghost unrolls = { tree_is };
}

impl uParse<Global> for Tree {
    ghost is_value = { is_tree };

    fn prove_value(&self) {
        self.prove();
    }

    fn parse_from<M: ParseMode>(alloc: Global, parser: &mut Parser<'_, M>) -> Result<Tree, Fault> {
        parse_nested(alloc, parser)
    }
}
