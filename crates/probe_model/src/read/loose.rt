//! A document that isn't in normal form, and has the same texts.
use std::alloc::Global;
use std::mem;
use ufmt_doc::doc::{StructName, Tree};

/// Turns words into structs and tuples without fields, in turn, and empty maps into sets.
#[derive(Clone, Copy)]
pub struct Loosener {
    pub alloc: Global,
    pub is_struct_next: bool,
}

impl Loosener {
    #[cycle(loosen)]
    pub fn loosen<N: StructName>(&mut self, doc: &mut Tree<N>) {
        match doc {
            Tree::Leaf(_) => self.loosen_leaf(doc),
            Tree::Listed(entries) | Tree::SetOf(entries) | Tree::TupleOf(_, entries) => {
                self.loosen_all(entries);
            }
            Tree::MapOf(pairs) if pairs.is_empty() => {
                drop(mem::replace(doc, Tree::SetOf(Vec::new(self.alloc))));
            }
            Tree::MapOf(pairs) => self.loosen_pairs(pairs),
            Tree::StructOf(_, fields) => self.loosen_fields(fields),
        }
    }

    #[cycle(loosen)]
    fn loosen_all<N: StructName>(&mut self, docs: &mut [Tree<N>]) {
        for doc in docs.iter_mut() {
            self.loosen(doc);
        }
    }

    #[cycle(loosen)]
    fn loosen_pairs<N: StructName>(&mut self, pairs: &mut [(Tree<N>, Tree<N>)]) {
        for (key, value) in pairs.iter_mut() {
            self.loosen(key);
            self.loosen(value);
        }
    }

    #[cycle(loosen)]
    fn loosen_fields<N: StructName>(&mut self, fields: &mut [(String, Tree<N>)]) {
        for (_, value) in fields.iter_mut() {
            self.loosen(value);
        }
    }

    fn loosen_leaf<N: StructName>(&mut self, doc: &mut Tree<N>) {
        let Tree::Leaf(text) = doc else {
            return;
        };
        if ufmt_scan::leaf::is_word(text) {
            let name = mem::replace(text, String::new(self.alloc));
            *doc = self.next_block(name);
        }
    }

    fn next_block<N: StructName>(&mut self, name: String) -> Tree<N> {
        self.is_struct_next = !self.is_struct_next;
        if self.is_struct_next {
            return Tree::TupleOf(name, Vec::new(self.alloc));
        }
        match N::new(name, false) {
            Some(name) => Tree::StructOf(name, Vec::new(self.alloc)),
            // A name without dots is always made.
            None => Tree::MapOf(Vec::new(self.alloc)),
        }
    }
}
