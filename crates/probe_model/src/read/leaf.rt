//! A text as a leaf and as a name of each class, in quotes, and its characters.
use crate::digest::Digest;
use crate::read::fault::{Fault, agree};
use std::alloc::{AllocError, Global};
use ufmt::class::Class;
use ufmt::{plain_text, pretty_text};
use ufmt_doc::doc::same_text;
use ufmt_doc::{DebugDoc, DebugName, Doc, StructName, Tree, read_plain, read_pretty};
use ufmt_scan::leaf::{is_leaf, is_leaf_of, is_name_of, is_word};

// How many characters of a text are put in apostrophes.
const MOST_CHARACTERS: usize = 64;

/// Returns what the calls say of the text, as a message.
pub fn verdict(alloc: Global, text: &[u8]) -> Result<String, AllocError> {
    let Ok(text) = str::from_utf8(text) else {
        return String::from_str(alloc, "no UTF-8");
    };
    match of_text(alloc, text) {
        Ok(leaf) => leaf.message(alloc),
        Err(fault) => fault.message(alloc),
    }
}

// Whether the text is a leaf of the class, and whether it is a name of the class.
#[derive(Clone, Copy, PartialEq)]
struct Kinds {
    is_leaf: bool,
    is_name: bool,
}

#[derive(Clone, Copy)]
struct Leaf {
    token: Kinds,
    debug: Kinds,
    quoted: Digest,
    characters: Digest,
}

fn yes_or_no(holds: bool) -> &'static str {
    if holds { "yes" } else { "no" }
}

impl Leaf {
    fn message(&self, alloc: Global) -> Result<String, AllocError> {
        let (leaf, name) = (yes_or_no(self.token.is_leaf), yes_or_no(self.token.is_name));
        let (debug_leaf, debug_name) = (
            yes_or_no(self.debug.is_leaf),
            yes_or_no(self.debug.is_name),
        );
        let quoted = self.quoted.message(alloc)?;
        let characters = self.characters.message(alloc)?;
        format!(in alloc;
            "token {leaf}, name {name}, debug {debug_leaf}, debug name {debug_name}, quoted {quoted}, characters {characters}"
        )
    }
}

fn of_text(alloc: Global, text: &str) -> Result<Leaf, Fault> {
    let (token, debug) = kinds_of::<String>(alloc, text)?;
    let kinds = kinds_of::<DebugName>(alloc, text)?;
    agree(
        kinds == (token, debug),
        "is_token and is_debug of a debug document",
    )?;
    agree(is_leaf(text) == token.is_leaf, "is_leaf")?;
    agree(is_word(text) == token.is_name, "is_word")?;
    agree_on_only_dots(alloc, text, debug.is_name)?;
    is_no_only_dots(alloc, text, &leaf_of(alloc, text)?)?;
    is_no_only_dots(alloc, text, &named(alloc, text)?)?;
    Ok(Leaf {
        token,
        debug,
        quoted: in_quotes(alloc, text)?,
        characters: Digest::of(&characters(alloc, text)?),
    })
}

// What the text is in token documents, and in debug documents.
fn kinds_of<N: StructName>(alloc: Global, text: &str) -> Result<(Kinds, Kinds), Fault> {
    let leaf: Tree<N> = leaf_of(alloc, text)?;
    let named: Tree<N> = named(alloc, text)?;
    let token = kinds_in(Class::Token, text, &leaf, &named)?;
    Ok((token, kinds_in(Class::Debug, text, &leaf, &named)?))
}

fn leaf_of<N: StructName>(alloc: Global, text: &str) -> Result<Tree<N>, Fault> {
    let leaf = Tree::Leaf(String::from_str(alloc, text)?);
    agree(
        plain_text(alloc, &leaf)?.as_str() == text,
        "plain text of a leaf",
    )?;
    agree(
        pretty_text(alloc, &leaf)?.as_str() == text,
        "pretty text of a leaf",
    )?;
    Ok(leaf)
}

fn kinds_in<N: StructName>(
    class: Class,
    text: &str,
    leaf: &Tree<N>,
    named: &Tree<N>,
) -> Result<Kinds, Fault> {
    let kinds = Kinds {
        is_leaf: is_of(class, leaf),
        is_name: is_of(class, named),
    };
    agree(is_leaf_of(class, text) == kinds.is_leaf, "is_leaf_of")?;
    agree(is_name_of(class, text) == kinds.is_name, "is_name_of")?;
    Ok(kinds)
}

fn is_of<N: StructName>(class: Class, doc: &Tree<N>) -> bool {
    match class {
        Class::Token => doc.is_token(),
        Class::Debug => doc.is_debug(),
    }
}

fn in_quotes(alloc: Global, text: &str) -> Result<Digest, Fault> {
    let quoted = Doc::text(alloc, text)?;
    Ok(Digest::of(read_back(alloc, &quoted, text)?))
}

// A struct with that name, and with a field of that name.
fn named<N: StructName>(alloc: Global, name: &str) -> Result<Tree<N>, Fault> {
    let mut fields = Vec::new(alloc);
    let value = Tree::Leaf(String::from_str(alloc, "x")?);
    fields.push((String::from_str(alloc, name)?, value))?;
    match N::new(String::from_str(alloc, name)?, false) {
        Some(name) => Ok(Tree::StructOf(name, fields)),
        None => Err(Fault::Other("a name without dots")),
    }
}

// A struct with that name that ends in dots, and has no fields.
fn only_dots(alloc: Global, name: &str) -> Result<DebugDoc, Fault> {
    let name = DebugName {
        text: String::from_str(alloc, name)?,
        ends_in_dots: true,
    };
    Ok(DebugDoc::StructOf(name, Vec::new(alloc)))
}

fn agree_on_only_dots(alloc: Global, name: &str, is_name: bool) -> Result<(), Fault> {
    let dots = only_dots(alloc, name)?;
    agree(!dots.is_token(), "is_token of only dots")?;
    agree(dots.is_debug() == is_name, "is_debug of only dots")?;
    agree(same_text(&dots, &dots), "same_text of only dots")?;
    let mut normal = only_dots(alloc, name)?;
    normal.normalize(alloc);
    agree(same_text(&normal, &dots), "normalize of only dots")
}

fn is_no_only_dots(alloc: Global, name: &str, other: &DebugDoc) -> Result<(), Fault> {
    let dots = only_dots(alloc, name)?;
    let are_different = !same_text(&dots, other) && !same_text(other, &dots);
    agree(are_different, "same_text of only dots and another")
}

// Returns the leaf's text. Both readers must read it as the leaf of this text in quotes.
fn read_back<'a>(alloc: Global, quoted: &'a Doc, text: &str) -> Result<&'a str, Fault> {
    let leaf = quoted.as_leaf().unwrap_or("");
    agree(quoted.is_token(), "is_token of a leaf in quotes")?;
    is_read(alloc, &read_plain(alloc, leaf.as_bytes())?, leaf, text)?;
    is_read(alloc, &read_pretty(alloc, leaf.as_bytes())?, leaf, text)?;
    Ok(leaf)
}

fn is_read(alloc: Global, read: &Doc, leaf: &str, text: &str) -> Result<(), Fault> {
    agree(read.as_leaf() == Some(leaf), "a leaf in quotes, read")?;
    match read.unquoted(alloc)? {
        Some(inside) => agree(inside.as_str() == text, "unquoted"),
        None => Err(Fault::Other("unquoted")),
    }
}

// The first characters in a row, each in apostrophes.
fn characters(alloc: Global, text: &str) -> Result<String, Fault> {
    let mut row = String::new(alloc);
    for character in text.chars().take(MOST_CHARACTERS) {
        let quoted = Doc::character(alloc, character)?;
        let mut inside = String::new(alloc);
        inside.push(character)?;
        row.push_str(read_back(alloc, &quoted, &inside)?)?;
    }
    Ok(row)
}
