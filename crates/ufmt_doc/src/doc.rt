//! Documents as values.
ghost use Rattle.std.specs.Option.{option_copied};
ghost use Rattle.std.specs.Prelude.{◌≡◌, ◌↔◌, ◌||◌, ◌==◌, IfOk, IsTrue, map, not, option_map, vec_len};
ghost use Rattle.std.specs.Str.{chars};
ghost use Rattle.ufmt.specs.Document.{documents, fields_of, leaf, pairs_of};
ghost use Rattle.ufmt.specs.Quoted.{IsQuote, quoted_char, quoted_text};
ghost use Rattle.ufmt.specs.Token.{IsDebugDocument, IsTokenDocument, normal, normal_all, normal_fields, normal_pairs};
ghost use Rattle.ufmt_doc.specs.Doc.{tree_document};
ghost use Rattle.ufmt_doc.specs.DocViews.{pair_view, field_view};
ghost use Rattle.ufmt_doc.specs.Parts.{entries_part, field_part, fields_part, first_value, leaf_part, name_part, pairs_part};
ghost use Rattle.ufmt_doc.specs.Private.{AreSpelled};
ghost use Rattle.ufmt_doc.specs.Unquoted.{Unquotes};

mod checks;
mod print;
mod struct_name;

use checks::Subtree;
pub use checks::same_text;
use std::alloc::{AllocError, Global};
use std::mem;
pub use struct_name::{DebugName, StructName};
use ufmt::class::Class;
use ufmt::plain_text;
use ufmt_scan::internal::split_escaped;
use ufmt_scan::leaf::is_symbol;

/// A document as a value: a leaf, or a block whose entries are documents. `N` is the type of the names of
/// structs: it says whether a struct may end in `..`.
#[derive(Drop)]
pub enum Tree<N> {
    Leaf(String),
    Listed(Vec<Tree<N>>),
    SetOf(Vec<Tree<N>>),
    MapOf(Vec<(Tree<N>, Tree<N>)>),
    StructOf(N, Vec<(String, Tree<N>)>),
    TupleOf(String, Vec<Tree<N>>),
}

/// A document in which no struct ends in `..`, as in a token document.
pub type Doc = Tree<String>;

/// A document in which structs may end in `..`, as in a debug document.
pub type DebugDoc = Tree<DebugName>;

impl<N: StructName> Tree<N> {
    // Promise (reading): A struct that ends in `..` is not a token document. It is a debug document if and
    // only if it is one without the dots, and its normal form keeps them. Also: `Tree::is_debug`,
    // `Tree::normalize`.
    /// Returns whether it is a token document. `read_plain` and `read_pretty` take the texts of these.
    pub fn is_token(&self) -> bool
        ensures { IsTrue result ↔ IsTokenDocument (tree_document N.shown self.now) }
    {
        self.is_within(Class::Token, u8::MAX)
    }

    /// Returns whether it is a debug document. `read_debug` takes the texts of these. Each token document
    /// is one.
    pub fn is_debug(&self) -> bool
        ensures { IsTrue result ↔ IsDebugDocument (tree_document N.shown self.now) }
    {
        self.is_within(Class::Debug, u8::MAX)
    }

    // Promise (reading): The calls of a `Doc` and of a `DebugDoc` return what their names say of its document:
    // `is_token`, `is_debug`, `normalize`, its parts, `text`, `character`, `unquoted`. Also: `Tree::as_leaf`,
    // `Tree::name`, `Tree::entries`, `Tree::pairs`, `Tree::fields`, `Tree::field`, `Tree::text`,
    // `Tree::character`, `Tree::unquoted`.
    /// Changes it to its normal form, which has the same texts. At each depth, a struct or a tuple
    /// without fields becomes the leaf of its name, and an empty set becomes an empty map. A struct that
    /// ends in `..` stays one, also without fields. Takes no memory: `alloc` is only for empty vectors and
    /// texts.
    #[cycle(normalize)]
    pub fn normalize(&mut self, alloc: Global)
        ensures { tree_document N.shown self.new ≡ normal (tree_document N.shown self.old) }
    {
        match self {
            Tree::Leaf(_) => {}
            Tree::Listed(entries) => normalize_all(alloc, entries),
            Tree::SetOf(entries) if !entries.is_empty() => normalize_all(alloc, entries),
            Tree::SetOf(_) => drop(mem::replace(self, Tree::MapOf(Vec::new(alloc)))),
            Tree::MapOf(pairs) => normalize_pairs(alloc, pairs),
            Tree::StructOf(name, fields) => {
                if has_block(name, fields) {
                    normalize_fields(alloc, fields);
                } else {
                    let name = name.take_text(alloc);
                    drop(mem::replace(self, Tree::Leaf(name)));
                }
            }
            Tree::TupleOf(name, fields) => {
                if fields.is_empty() {
                    let name = mem::replace(name, String::new(alloc));
                    drop(mem::replace(self, Tree::Leaf(name)));
                } else {
                    normalize_all(alloc, fields);
                }
            }
        }
    }

    /// Returns the text of a leaf. Readers make a leaf of a name without fields.
    pub fn as_leaf(&self) -> Option<&str>
        ensures { option_copied result ≡ leaf_part (tree_document N.shown self.now) }
    {
        match self {
            Tree::Leaf(text) => Some(text),
            _ => None,
        }
    }

    /// Returns the name of a struct or a tuple. In a token document, only a tuple's may be empty.
    pub fn name(&self) -> Option<&str>
        ensures { option_copied result ≡ name_part (tree_document N.shown self.now) }
    {
        match self {
            Tree::StructOf(name, _) => Some(name.as_str()),
            Tree::TupleOf(name, _) => Some(name),
            _ => None,
        }
    }

    /// Returns the entries of a list or a set, or the fields of a tuple. Readers make a map of
    /// empty braces, which has `pairs`.
    pub fn entries(&self) -> Option<&[Tree<N>]>
        ensures { option_map (λ entries. documents (map (tree_document N.shown) entries.now)) result
            ≡ entries_part (tree_document N.shown self.now) }
    {
        match self {
            Tree::Listed(entries) | Tree::SetOf(entries) | Tree::TupleOf(_, entries) => Some(
                entries,
            ),
            _ => None,
        }
    }

    /// Returns the keys of a map, each with its value.
    pub fn pairs(&self) -> Option<&[(Tree<N>, Tree<N>)]>
        ensures { option_map (λ pairs. pairs_of (map (pair_view N.shown) pairs.now)) result
            ≡ pairs_part (tree_document N.shown self.now) }
    {
        match self {
            Tree::MapOf(pairs) => Some(pairs),
            _ => None,
        }
    }

    /// Returns the field names of a struct, each with its value. A struct that ends in `..` may have
    /// more fields, which aren't shown.
    pub fn fields(&self) -> Option<&[(String, Tree<N>)]>
        ensures { option_map (λ fields. fields_of (map (field_view N.shown) fields.now)) result
            ≡ fields_part (tree_document N.shown self.now) }
    {
        match self {
            Tree::StructOf(_, fields) => Some(fields),
            _ => None,
        }
    }

    /// Returns the value of a struct's first field with this name.
    pub fn field(&self, name: &str) -> Option<&Tree<N>>
        ensures { option_map (λ value. tree_document N.shown value.now) result
            ≡ field_part name.now (tree_document N.shown self.now) }
    {
        for (other, value) in self.fields()? {
            if other.as_str() == name {
                return Some(value);
            }
        }
        None
    }

    /// Makes a leaf of the text in quotation marks, with its escapes, as `uDebug` prints it. Fails
    /// only if memory runs out. `Tree::Leaf` of the text prints it without quotes.
    pub fn text(alloc: Global, text: &str) -> Result<Tree<N>, AllocError>
        ensures { IfOk result (λ doc. tree_document N.shown doc ≡ leaf (quoted_text (chars text.now))) }
    {
        Ok(Tree::Leaf(plain_text(alloc, &text)?))
    }

    /// Makes a leaf of the character or its escape in apostrophes. Fails only if memory runs out.
    pub fn character(alloc: Global, character: char) -> Result<Tree<N>, AllocError>
        ensures { IfOk result (λ doc. tree_document N.shown doc ≡ leaf (quoted_char character)) }
    {
        Ok(Tree::Leaf(plain_text(alloc, &character)?))
    }

    /// Returns what is between the quotes of a leaf, with its escapes decoded, if the leaf is one text or
    /// character in quotes, spelled as `uDebug` does. Returns `None` for any other leaf, such as `1.5`, `b"x"`,
    /// `"a".."b"` and `"\u{301}"`, and of a block. Fails only if memory runs out.
    pub fn unquoted(&self, alloc: Global) -> Result<Option<String>, AllocError>
        ensures { IfOk result (λ outcome. Unquotes (tree_document N.shown self.now) outcome) }
    {
        let Tree::Leaf(text) = self else {
            return Ok(None);
        };
        let Some((first, inside)) = text.as_bytes().split_first() else {
            return Ok(None);
        };
        let quote = *first;
        if !is_symbol(text) || (quote != b'"' && quote != b'\'') {
            return Ok(None);
        }
        Ok(String::from_utf8(decoded_bytes(alloc, quote, inside)?).ok())
    }
}

// Whether a struct is a block in normal form: it has fields, or ends in dots.
fn has_block<N: StructName>(name: &N, fields: &Vec<(String, Tree<N>)>) -> bool
    ensures { result ≡ ((N.shown name.now).1 || not (vec_len fields.now == 0)) }
{
    name.ends_in_dots() || !fields.is_empty()
}

#[cycle(normalize)]
fn normalize_all<N: StructName>(alloc: Global, docs: &mut [Tree<N>])
    ensures { documents (map (tree_document N.shown) docs.new)
        ≡ normal_all (documents (map (tree_document N.shown) docs.old)) }
{
    for doc in docs.iter_mut() {
        doc.normalize(alloc);
    }
}

#[cycle(normalize)]
fn normalize_pairs<N: StructName>(alloc: Global, pairs: &mut [(Tree<N>, Tree<N>)])
    ensures { pairs_of (map (pair_view N.shown) pairs.new)
        ≡ normal_pairs (pairs_of (map (pair_view N.shown) pairs.old)) }
{
    for (key, value) in pairs.iter_mut() {
        key.normalize(alloc);
        value.normalize(alloc);
    }
}

#[cycle(normalize)]
fn normalize_fields<N: StructName>(alloc: Global, fields: &mut [(String, Tree<N>)])
    ensures { fields_of (map (field_view N.shown) fields.new)
        ≡ normal_fields (fields_of (map (field_view N.shown) fields.old)) }
{
    for (_, value) in fields.iter_mut() {
        value.normalize(alloc);
    }
}

// The bytes that are spelled up to the closing quote.
fn decoded_bytes(alloc: Global, quote: u8, inside: &[u8]) -> Result<Vec<u8>, AllocError>
    requires { IsQuote quote }
    ensures { IfOk result (λ bytes. AreSpelled quote inside.now bytes.items) }
{
    let mut bytes = Vec::new(alloc);
    let mut rest = inside;
    'bytes: while let Some((byte, after)) = split_escaped(quote, rest) {
        bytes.push(byte)?;
        rest = after;
    }
    Ok(bytes)
}
