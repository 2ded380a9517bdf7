//! Printing a document. Each kind of block has a function, which calls `fmt` for each entry between the two
//! halves of a builder's call.
ghost use Rattle.std.specs.Prelude.{is_ok, map};
ghost use Rattle.ufmt.specs.Document.{documents, fields_of, list_of, map_of, pairs_of, set_of, tuple_of};
ghost use Rattle.ufmt.specs.Formatter.{LaysOut};
ghost use Rattle.ufmt_doc.specs.Doc.{tree_document};
ghost use Rattle.ufmt_doc.specs.DocViews.{field_view, pair_view};
ghost use Rattle.ufmt_doc.specs.StructNames.{named_struct};

use super::{StructName, Tree};
use ufmt::{Formatter, uDebug, uWrite};

impl<N: StructName> uDebug for Tree<N> {
    ghost document = { tree_document N.shown };

    #[cycle(print)]
    fn fmt<W: uWrite>(&self, f: &mut Formatter<W>) -> Result<(), W::Error> {
        match self {
            Tree::Leaf(text) => f.write_str(text),
            Tree::Listed(entries) => Self::print_list(entries, f),
            Tree::SetOf(entries) => Self::print_set(entries, f),
            Tree::MapOf(pairs) => Self::print_map(pairs, f),
            Tree::StructOf(name, fields) => Self::print_struct(fields, name, f),
            Tree::TupleOf(name, fields) => Self::print_tuple(name, fields, f),
        }
    }
}

// In an `impl` for the type of `fmt`: the check wants the functions of a cycle of calls to have the same type
// parameters.
impl<N: StructName> Tree<N> {
    #[cycle(print)]
    fn print_list<W: uWrite>(entries: &[Tree<N>], f: &mut Formatter<W>) -> Result<(), W::Error>
        ensures { LaysOut W.seen f.old (list_of (documents (map (tree_document N.shown) entries.now)))
            (is_ok result) f.new }
    {
        let mut list = f.debug_list()?;
        for entry in entries {
            let outcome = entry.fmt(list.begin_entry()?);
            list.end_entry(outcome)?;
        }
        list.finish()
    }

    #[cycle(print)]
    fn print_set<W: uWrite>(entries: &[Tree<N>], f: &mut Formatter<W>) -> Result<(), W::Error>
        ensures { LaysOut W.seen f.old (set_of (documents (map (tree_document N.shown) entries.now)))
            (is_ok result) f.new }
    {
        let mut set = f.debug_set()?;
        for entry in entries {
            let outcome = entry.fmt(set.begin_entry()?);
            set.end_entry(outcome)?;
        }
        set.finish()
    }

    #[cycle(print)]
    fn print_map<W: uWrite>(
        pairs: &[(Tree<N>, Tree<N>)],
        f: &mut Formatter<W>,
    ) -> Result<(), W::Error>
        ensures { LaysOut W.seen f.old (map_of (pairs_of (map (pair_view N.shown) pairs.now)))
            (is_ok result) f.new }
    {
        let mut map = f.debug_map()?;
        for (key, value) in pairs {
            let key_outcome = key.fmt(map.begin_entry()?);
            let outcome = value.fmt(map.begin_value(key_outcome)?);
            map.end_entry(outcome)?;
        }
        map.finish()
    }

    #[cycle(print)]
    fn print_struct<W: uWrite>(
        fields: &[(String, Tree<N>)],
        name: &N,
        f: &mut Formatter<W>,
    ) -> Result<(), W::Error>
        ensures { LaysOut W.seen f.old
            (named_struct (N.shown name.now) (fields_of (map (field_view N.shown) fields.now)))
            (is_ok result) f.new }
    {
        let mut builder = f.debug_struct(name.as_str())?;
        for field in fields {
            let outcome = field.1.fmt(builder.begin_field(&field.0)?);
            builder.end_field(outcome)?;
        }
        if name.ends_in_dots() {
            builder.finish_non_exhaustive()
        } else {
            builder.finish()
        }
    }

    #[cycle(print)]
    fn print_tuple<W: uWrite>(
        name: &str,
        fields: &[Tree<N>],
        f: &mut Formatter<W>,
    ) -> Result<(), W::Error>
        ensures { LaysOut W.seen f.old
            (tuple_of name.now (documents (map (tree_document N.shown) fields.now)))
            (is_ok result) f.new }
    {
        let mut tuple = f.debug_tuple(name)?;
        for value in fields {
            let outcome = value.fmt(tuple.begin_field()?);
            tuple.end_field(outcome)?;
        }
        tuple.finish()
    }
}
