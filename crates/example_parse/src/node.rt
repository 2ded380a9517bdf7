//! A type that holds itself in an `Option<Box<_>>`.
ghost use Rattle.std.specs.Prelude.{[], ◌∷◌};
ghost use Rattle.ufmt.specs.Document.{Document};
ghost use Rattle.ufmt.specs.ValueDocuments.{named_struct, number, option_document};
ghost use Rattle.ufmt_parse.specs.Parses.{Parses};
ghost use Rattle.example_parse.specs.Nodes.{is_node};
ghost use Rattle.example_parse.specs.declared.node.Node.TheFolds.{fold-Node};

use std::alloc::Global;
use ufmt::{Formatter, fields, uDebug, uWrite};
use ufmt_parse::{
    Boxed, By, ByType, Fault, Optional, ParseMode, Parser, ProvesValue, parse_struct_2, uParse,
};

/// A number, and perhaps another node.
#[derive(Drop)]
pub struct Node {
    pub value: u64,
    pub next: Option<Box<Node>>,
}

impl uDebug for Node {
    ghost document = { fold-Node Document
        (λ n. named_struct "Node"
        (("value", number n.value) ∷ ("next", option_document (λ b. b.value) n.next) ∷ [])) };

    fn fmt<W: uWrite>(&self, f: &mut Formatter<W>) -> Result<(), W::Error> {
        fields!(f, self, Node { value, next })
    }
}

impl ProvesValue for Node {
    ghost is_whole = { is_node };

    #[tactic(auto, using(crate::proofs::Nodes::node_is))]
    fn prove(&self) {
        let _value = self.value;
        match &self.next {
            None => {}
            Some(next) => Node::prove(next),
        }
    }
}

impl uParse<Global> for Node {
    ghost is_value = { is_node };

    fn prove_value(&self) {
        self.prove();
    }

    fn parse_from<M: ParseMode>(alloc: Global, parser: &mut Parser<'_, M>) -> Result<Node, Fault> {
        parse_node(alloc, parser)
    }
}

// `By` calls it in a block more, so the check takes the blocks that may still be opened as its measure.
fn parse_node<M: ParseMode>(alloc: Global, parser: &mut Parser<'_, M>) -> Result<Node, Fault>
    ensures { Parses M.mode is_node ⟦<Node as uDebug>⟧.document parser.old result parser.new }
{
    let next = Optional(Boxed(By(parse_node)));
    match parse_struct_2(alloc, parser, "Node", "value", &ByType, "next", &next) {
        Err(fault) => Err(fault),
        Ok((value, next)) => Ok(Node { value, next }),
    }
}
