//! Types that hold themselves: in a box, in a list, in pairs and in a map.
ghost use Rattle.std.specs.Prelude.{[], ◌∷◌, map};
ghost use Rattle.ufmt.specs.Document.{Document, documents, list_of, map_of, pairs_of};
ghost use Rattle.ufmt.specs.ValueDocuments.{integer, named, named_struct, named_tuple, number, option_document, string};
ghost use Rattle.example_print.specs.declared.recursive.Node.TheFolds.{fold-Node};
ghost use Rattle.example_print.specs.declared.recursive.Tree.TheFolds.{fold-Tree};
ghost use Rattle.example_print.specs.declared.recursive.Json.TheFolds.{fold-Json};
ghost use Rattle.example_print.specs.declared.recursive.Json.TheOpen.{Array, Null, Number, Object, Table};

use std::collections::BTreeMap;
use ufmt::{Formatter, fields, uDebug, uWrite};

/// A number, and perhaps another node.
#[derive(Drop)]
pub struct Node {
    pub value: u64,
    pub next: Option<Box<Node>>,
}

impl uDebug for Node {
    ghost document = { fold-Node Document
        (λ n. named_struct "Node"
        (("value", number n.value) ∷ ("next", option_document (λ b. b.value) n.next) ∷ [])) };

    fn fmt<W: uWrite>(&self, f: &mut Formatter<W>) -> Result<(), W::Error> {
        fields!(f, self, Node { value, next })
    }
}

/// A number, and trees below it.
#[derive(Drop)]
pub struct Tree {
    pub size: u64,
    pub children: Vec<Tree>,
}

impl uDebug for Tree {
    ghost document = { fold-Tree Document
        (λ t. named_struct "Tree"
        (("size", number t.size) ∷ ("children", list_of (documents t.children.items)) ∷ [])) };

    fn fmt<W: uWrite>(&self, f: &mut Formatter<W>) -> Result<(), W::Error> {
        fields!(f, self, Tree { size, children })
    }
}

/// A value with others in it: in a list, by names, or by numbers.
#[derive(Drop)]
pub enum Json {
    Null,
    Number(i64),
    Array(Vec<Json>),
    Object(Vec<(String, Json)>),
    Table(BTreeMap<u8, Json>),
}

impl uDebug for Json {
    ghost document = { fold-Json Document (elim [
      | Null ↦ named "Null"
      | Number n ↦ named_tuple "Number" (integer n ∷ [])
      | Array values ↦ named_tuple "Array" (list_of (documents values.items) ∷ [])
      | Object pairs ↦ named_tuple "Object"
          (list_of (documents (map (λ p. named_tuple "" (string p.0 ∷ p.1 ∷ [])) pairs.items)) ∷ [])
      | Table values ↦ named_tuple "Table"
          (map_of (pairs_of (map (λ p. (number p.0, p.1)) values.entries)) ∷ [])
    ]) };

    fn fmt<W: uWrite>(&self, f: &mut Formatter<W>) -> Result<(), W::Error> {
        match self {
            Json::Null => fields!(f, Null),
            Json::Number(n) => fields!(f, Number(n)),
            Json::Array(values) => fields!(f, Array(values)),
            Json::Object(pairs) => fields!(f, Object(pairs)),
            Json::Table(values) => fields!(f, Table(values)),
        }
    }
}
