//! Documents that are not in normal form.
use crate::outcome::Outcome;
use std::alloc::Global;
use std::mem;
use ufmt::layout::Mode;
use ufmt_doc::doc::Doc;
use ufmt_doc::plain_reader::{ReadError, read_plain};
use ufmt_doc::pretty_reader::read_pretty;

/// Reads a text, and reads it again if memory was refused. Only one allocation is refused in a run,
/// so the document is there in each run.
pub fn read_twice(alloc: Global, mode: Mode, text: &str) -> (Outcome, Option<Doc>) {
    match read(alloc, mode, text) {
        Ok(doc) => (Outcome::Ample, Some(doc)),
        Err(ReadError::OutOfMemory) => (Outcome::WantOfMemory, read(alloc, mode, text).ok()),
        Err(ReadError::NotText) => (Outcome::Other, None),
    }
}

fn read(alloc: Global, mode: Mode, text: &str) -> Result<Doc, ReadError> {
    match mode {
        Mode::Plain => read_plain(alloc, text.as_bytes()),
        Mode::Pretty => read_pretty(alloc, text.as_bytes()),
    }
}

/// Turns each leaf `A` into a struct and each leaf `B` into a tuple, both without fields, and each
/// empty map into a set. The texts stay the same. It takes no memory.
#[cycle(loosen)]
pub fn loosen(doc: &mut Doc, alloc: Global) {
    match doc {
        Doc::Leaf(name) if name.as_str() == "A" => {
            let name = mem::replace(name, String::new(alloc));
            drop(mem::replace(doc, Doc::StructOf(name, Vec::new(alloc))));
        }
        Doc::Leaf(name) if name.as_str() == "B" => {
            let name = mem::replace(name, String::new(alloc));
            drop(mem::replace(doc, Doc::TupleOf(name, Vec::new(alloc))));
        }
        Doc::Leaf(_) => {}
        Doc::Listed(entries) | Doc::SetOf(entries) => loosen_all(entries, alloc),
        Doc::MapOf(pairs) if !pairs.is_empty() => loosen_pairs(pairs, alloc),
        Doc::MapOf(_) => drop(mem::replace(doc, Doc::SetOf(Vec::new(alloc)))),
        Doc::StructOf(_, fields) => loosen_fields(fields, alloc),
        Doc::TupleOf(_, entries) => loosen_all(entries, alloc),
    }
}

#[cycle(loosen)]
fn loosen_all(docs: &mut [Doc], alloc: Global) {
    for doc in docs.iter_mut() {
        loosen(doc, alloc);
    }
}

#[cycle(loosen)]
fn loosen_pairs(pairs: &mut [(Doc, Doc)], alloc: Global) {
    for (key, value) in pairs.iter_mut() {
        loosen(key, alloc);
        loosen(value, alloc);
    }
}

#[cycle(loosen)]
fn loosen_fields(fields: &mut [(String, Doc)], alloc: Global) {
    for (_, value) in fields.iter_mut() {
        loosen(value, alloc);
    }
}
