//! Notes the parts of a document, as the calls return them.
use crate::read::fault::{Fault, agree};
use crate::read::fields::note_shown;
use std::alloc::Global;
use ufmt_doc::doc::{Doc, StructName, Tree};

/// The parts so far. A block has its entries in parentheses. A leaf in quotes comes also without
/// quotes. Apart from these it has what leaves and fields show.
#[derive(Drop)]
pub struct Parts {
    pub alloc: Global,
    pub text: String,
    pub shown: String,
}

/// A leaf's text, a block's name, and how many entries, pairs and fields it has.
type Counts<'a> = (
    Option<&'a str>,
    Option<&'a str>,
    Option<usize>,
    Option<usize>,
    Option<usize>,
);

// The counts that the calls return.
fn counts<N: StructName>(doc: &Tree<N>) -> Counts<'_> {
    (
        doc.as_leaf(),
        doc.name(),
        doc.entries().map(|entries| entries.len()),
        doc.pairs().map(|pairs| pairs.len()),
        doc.fields().map(|fields| fields.len()),
    )
}

// The counts that the document has.
fn wanted<N: StructName>(doc: &Tree<N>) -> Counts<'_> {
    match doc {
        Tree::Leaf(text) => (Some(text.as_str()), None, None, None, None),
        Tree::Listed(entries) | Tree::SetOf(entries) => (
            None,
            None,
            Some(entries.len()),
            None,
            None,
        ),
        Tree::MapOf(pairs) => (None, None, None, Some(pairs.len()), None),
        Tree::StructOf(name, fields) => (None, Some(name.as_str()), None, None, Some(fields.len())),
        Tree::TupleOf(name, entries) => (
            None,
            Some(name.as_str()),
            Some(entries.len()),
            None,
            None,
        ),
    }
}

impl Parts {
    pub fn of<N: StructName>(alloc: Global, doc: &Tree<N>) -> Result<String, Fault> {
        Ok(Parts::and_shown(alloc, doc)?.0)
    }

    /// Returns the parts, and what they show.
    pub fn and_shown<N: StructName>(
        alloc: Global,
        doc: &Tree<N>,
    ) -> Result<(String, String), Fault> {
        let mut parts = Parts {
            alloc,
            text: String::new(alloc),
            shown: String::new(alloc),
        };
        parts.note(doc)?;
        Ok((parts.text, parts.shown))
    }

    #[cycle(parts)]
    fn note<N: StructName>(&mut self, doc: &Tree<N>) -> Result<(), Fault> {
        agree(counts(doc) == wanted(doc), "parts")?;
        note_shown(self.alloc, doc, &mut self.shown)?;
        match doc {
            Tree::Leaf(text) => self.note_leaf(doc, text),
            Tree::Listed(entries) => self.note_entries("l", "", entries),
            Tree::SetOf(entries) => self.note_entries("b", "", entries),
            Tree::MapOf(pairs) => self.note_pairs(pairs),
            Tree::StructOf(name, fields) => {
                agree(has_last_field(doc, fields), "field")?;
                let sign = if name.ends_in_dots() { "d" } else { "s" };
                self.note_fields(sign, name.as_str(), fields)
            }
            Tree::TupleOf(name, entries) => self.note_entries("t", name, entries),
        }
    }

    #[cycle(parts)]
    fn note_entries<N: StructName>(
        &mut self,
        sign: &str,
        name: &str,
        entries: &[Tree<N>],
    ) -> Result<(), Fault> {
        self.begin(sign, name)?;
        for entry in entries {
            self.note(entry)?;
        }
        self.end()
    }

    #[cycle(parts)]
    fn note_pairs<N: StructName>(&mut self, pairs: &[(Tree<N>, Tree<N>)]) -> Result<(), Fault> {
        self.begin("m", "")?;
        for (key, value) in pairs {
            self.note(key)?;
            self.note(value)?;
        }
        self.end()
    }

    #[cycle(parts)]
    fn note_fields<N: StructName>(
        &mut self,
        sign: &str,
        name: &str,
        fields: &[(String, Tree<N>)],
    ) -> Result<(), Fault> {
        self.begin(sign, name)?;
        for (field_name, value) in fields {
            self.text.push_str(field_name)?;
            self.text.push(':')?;
            self.note(value)?;
        }
        self.end()
    }

    fn begin(&mut self, sign: &str, name: &str) -> Result<(), Fault> {
        self.text.push_str(sign)?;
        self.text.push_str(name)?;
        self.text.push('(')?;
        Ok(())
    }

    fn end(&mut self) -> Result<(), Fault> {
        self.text.push(')')?;
        Ok(())
    }

    fn note_leaf<N: StructName>(&mut self, doc: &Tree<N>, text: &str) -> Result<(), Fault> {
        self.text.push('=')?;
        self.text.push_str(text)?;
        if let Some(inside) = doc.unquoted(self.alloc)? {
            self.text.push('~')?;
            self.text.push_str(&inside)?;
            let again = quoted_as(self.alloc, text, &inside)?;
            agree(again.as_leaf() == Some(text), "Doc::text or Doc::character")?;
        }
        self.text.push(' ')?;
        Ok(())
    }
}

// Makes a leaf of the text between a leaf's quotes.
fn quoted_as(alloc: Global, leaf: &str, inside: &str) -> Result<Doc, Fault> {
    match inside.chars().next() {
        Some(character) if leaf.starts_with('\'') => Ok(Doc::character(alloc, character)?),
        _ => Ok(Doc::text(alloc, inside)?),
    }
}

// Whether `field` finds the name of the last field. If two fields have it, it finds the first.
fn has_last_field<N: StructName>(doc: &Tree<N>, fields: &[(String, Tree<N>)]) -> bool {
    match fields.last() {
        Some((name, _)) => doc.field(name).is_some() && doc.field("").is_none(),
        None => doc.field("x").is_none(),
    }
}
