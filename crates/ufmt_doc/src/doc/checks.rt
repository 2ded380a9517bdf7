//! Whether a document is one of a class, and whether two have the same text.
ghost use Rattle.std.specs.List.{AllByRecursion, AllZip};
ghost use Rattle.std.specs.Prelude.{◌≡◌, ◌↔◌, ◌<◌, ◌-◌, ℕ, IsTrue, string_bytes};
ghost use Rattle.ufmt.specs.Layout.{plain_text, pretty_text};
ghost use Rattle.ufmt_grammar.specs.declared.class.Class.{Class};
ghost use Rattle.ufmt.specs.Token.{IsDocument, IsName, normal};
ghost use Rattle.ufmt_doc.specs.Doc.{tree_document};
ghost use Rattle.ufmt_doc.specs.Parts.{leaf_part};
ghost use Rattle.ufmt_doc.specs.Private.{IsBuiltWithin, IsStructName};
ghost use Rattle.ufmt_scan.specs.Rest.{now_of};

use super::{StructName, Tree};
use ufmt::class::Class;
use ufmt_scan::leaf::{is_leaf_of, is_name_of};

/// Returns whether two documents have the same normal form. Two documents of one class have it exactly if
/// they have the same text. Compares their trees, and makes no text.
pub fn same_text<N: StructName>(a: &Tree<N>, b: &Tree<N>) -> bool
    ensures plain { (class : Class) → IsDocument class (tree_document N.shown a.now)
        → IsDocument class (tree_document N.shown b.now) → IsTrue result
        ↔ (plain_text (tree_document N.shown a.now) ≡ plain_text (tree_document N.shown b.now)) }
    ensures pretty { (class : Class) → IsDocument class (tree_document N.shown a.now)
        → IsDocument class (tree_document N.shown b.now) → IsTrue result
        ↔ (pretty_text (tree_document N.shown a.now) ≡ pretty_text (tree_document N.shown b.now)) }
    ensures normal { IsTrue result ↔ (normal (tree_document N.shown a.now) ≡ normal (tree_document N.shown b.now)) }
{
    a.is_same(b)
}

// What is in a document. Implemented per field type: the check allows recursion at `Vec<Tree<N>>`, not
// at `Tree<N>`.
pub(super) trait Subtree {
    ghost within: { Class → ℕ → Self → Type 0 };

    ghost same: { Self → Self → Type 0 };

    // Whether its names and leaves are those of the class, and its blocks with entries are nested at most
    // `deepest` deep.
    fn is_within(&self, class: Class, deepest: u8) -> bool
        ensures { IsTrue result ↔ within class deepest self.now };

    // Whether both have the same normal form.
    fn is_same(&self, other: &Self) -> bool
        ensures { IsTrue result ↔ same self.now other.now };
}

impl Subtree for String {
    ghost within = { λ class _ name. IsName class (string_bytes name) };

    ghost same = { λ name other. string_bytes name ≡ string_bytes other };

    fn is_within(&self, class: Class, _deepest: u8) -> bool {
        is_name_of(class, self)
    }

    fn is_same(&self, other: &String) -> bool {
        self == other
    }
}

impl<K: Subtree, V: Subtree> Subtree for (K, V) {
    ghost within = { λ class n p. K.within class n p.0 × V.within class n p.1 };

    ghost same = { λ p q. K.same p.0 q.0 × V.same p.1 q.1 };

    fn is_within(&self, class: Class, deepest: u8) -> bool {
        self.0.is_within(class, deepest) && self.1.is_within(class, deepest)
    }

    fn is_same(&self, other: &(K, V)) -> bool {
        self.0.is_same(&other.0) && self.1.is_same(&other.1)
    }
}

// Entries are one deeper than their block.
impl<T: Subtree> Subtree for Vec<T> {
    ghost within = { λ class n v. AllByRecursion (λ x. (0 < n) × T.within class (n - 1) x) v.items };

    ghost same = { λ v w. AllZip T.same v.items w.items };

    fn is_within(&self, class: Class, deepest: u8) -> bool {
        self.iter()
            .all(|entry| deepest > 0 && entry.is_within(class, deepest - 1))
    }

    fn is_same(&self, other: &Vec<T>) -> bool {
        self.len() == other.len() && self.iter().zip(other).all(|(a, b)| a.is_same(b))
    }
}

impl<N: StructName> Subtree for Tree<N> {
    ghost within = { λ class n d. IsBuiltWithin class n (tree_document N.shown d) };

    ghost same = { λ d e. normal (tree_document N.shown d) ≡ normal (tree_document N.shown e) };

    #[cycle(parts)]
    fn is_within(&self, class: Class, deepest: u8) -> bool {
        match self {
            Tree::Leaf(text) => is_leaf_of(class, text),
            Tree::Listed(entries) | Tree::SetOf(entries) => entries.is_within(class, deepest),
            Tree::MapOf(pairs) => pairs.is_within(class, deepest),
            Tree::StructOf(name, fields) => is_struct_name(class, name)
                && fields.is_within(class, deepest),
            Tree::TupleOf(name, fields) if name.is_empty() => {
                !fields.is_empty() && fields.is_within(class, deepest)
            }
            Tree::TupleOf(name, fields) => is_name_of(class, name)
                && fields.is_within(class, deepest),
        }
    }

    // An empty set is an empty map, and a struct or a tuple without fields is a leaf.
    #[cycle(parts)]
    fn is_same(&self, other: &Tree<N>) -> bool {
        match (self, other) {
            (Tree::Listed(entries), Tree::Listed(others)) => entries.is_same(others),
            (Tree::SetOf(entries), Tree::SetOf(others)) => entries.is_same(others),
            (Tree::SetOf(entries), Tree::MapOf(pairs)) => entries.len() + pairs.len() == 0,
            (Tree::MapOf(pairs), Tree::SetOf(entries)) => entries.len() + pairs.len() == 0,
            (Tree::MapOf(pairs), Tree::MapOf(others)) => pairs.is_same(others),
            (Tree::StructOf(name, fields), Tree::StructOf(another, others)) => {
                is_same_name(name, another) && fields.is_same(others)
            }
            (Tree::TupleOf(name, fields), Tree::TupleOf(another, others)) => {
                name == another && fields.is_same(others)
            }
            (Tree::Listed(_) | Tree::SetOf(_) | Tree::MapOf(_), _) => false,
            (Tree::Leaf(name), _) => leaf_text(other) == Some(name.as_str()),
            (Tree::StructOf(name, _), _) if name.ends_in_dots() => false,
            (Tree::StructOf(name, fields), _) => fields.is_empty()
                && leaf_text(other) == Some(name.as_str()),
            (Tree::TupleOf(name, fields), _) => fields.is_empty()
                && leaf_text(other) == Some(name.as_str()),
        }
    }
}

// Whether a struct of the class may have this name, and end as it says.
fn is_struct_name<N: StructName>(class: Class, name: &N) -> bool
    ensures { IsTrue result ↔ IsStructName class (N.shown name.now) }
{
    match class {
        Class::Token if name.ends_in_dots() => false,
        _ => is_name_of(class, name.as_str()),
    }
}

// Whether structs with these names have the same text, if their fields have.
fn is_same_name<N: StructName>(name: &N, other: &N) -> bool
    ensures { IsTrue result ↔ (N.shown name.now ≡ N.shown other.now) }
{
    name.ends_in_dots() == other.ends_in_dots() && name.as_str() == other.as_str()
}

// The text of a document whose normal form is a leaf.
fn leaf_text<N: StructName>(doc: &Tree<N>) -> Option<&str>
    ensures { now_of result ≡ leaf_part (normal (tree_document N.shown doc.now)) }
{
    match doc {
        Tree::Leaf(text) => Some(text),
        Tree::StructOf(name, _) if name.ends_in_dots() => None,
        Tree::StructOf(name, fields) => fields.is_empty().then_some(name.as_str()),
        Tree::TupleOf(name, fields) => fields.is_empty().then_some(name.as_str()),
        Tree::Listed(_) | Tree::SetOf(_) | Tree::MapOf(_) => None,
    }
}
