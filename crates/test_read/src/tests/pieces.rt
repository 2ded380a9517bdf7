//! Tests of the pieces that a document passes to a writer, and of what a refused piece leaves.
use super::nested_lists::lists_around;
use super::same;
use super::shape::Shape::{self, Leaf, Listed, MapOf, SetOf, StructOf, TupleOf};
use super::shape::made;
use std::alloc::{AllocError, Global};
use test_rows::piece_rows::pieces_of;
use test_rows::printed::{Left, print_to};
use test_rows::rows_of;
use test_rows::writers::FailAt;
use ufmt::Full;
use ufmt_doc::doc::Doc;

// Documents with their pieces in plain mode, and after a tilde those in pretty mode. Empty leaves and names are pieces too.
const DOCUMENTS: [(Shape<'static>, &str); 5] = rows_of![
    Leaf("a leaf") => "a leaf|";
    Leaf("") => "|";
    StructOf("S", &[("a", Listed(&[Leaf("xy")])), ("b", SetOf(&[Leaf("yy")])), ("c", MapOf(&[(Leaf("kk"), Leaf("vv"))])),
        ("d", TupleOf("T", &[Leaf("zz")])), ("e", TupleOf("", &[Leaf("ww")]))]) => "\
S| {| |a|: |[|xy|]|, |b|: |{|yy|}|, |c|: |{|kk|: |vv|}|, |d|: |T|(|zz|)|, |e|: ||(|ww|,|)| |}|~\n\
S| {|\n|    |a|: |[|\n|    |    |xy|,\n|    |]|,\n\
|    |b|: |{|\n|    |    |yy|,\n|    |}|,\n\
|    |c|: |{|\n|    |    |kk|: |vv|,\n|    |}|,\n\
|    |d|: |T|(|\n|    |    |zz|,\n|    |)|,\n\
|    |e|: ||(|\n|    |    |ww|,\n|    |)|,\n|}|";
    StructOf("", &[("", Leaf("")), ("", MapOf(&[(Leaf(""), Leaf(""))])), ("", TupleOf("", &[Leaf(""), Leaf("x")]))]) => "\
| {| ||: ||, ||: |{||: ||}|, ||: ||(||, |x|)| |}|~\n\
| {|\n|    ||: ||,\n\
|    ||: |{|\n|    |    ||: ||,\n|    |}|,\n\
|    ||: ||(|\n|    |    ||,\n|    |    |x|,\n|    |)|,\n|}|";
    Listed(&[Listed(&[]), SetOf(&[]), MapOf(&[]), StructOf("S", &[]), TupleOf("T", &[]), TupleOf("", &[])]) => "\
[|[|]|, |{|}|, |{|}|, |S|, |T|, ||]|~\n\
[|\n|    |[|]|,\n|    |{|}|,\n|    |{|}|,\n|    |S|,\n|    |T|,\n|    ||,\n|]|";
];

fn pieces_of_made(alloc: Global, shape: &Shape<'_>) -> Result<String, AllocError> {
    let doc: Doc = made(alloc, shape)?;
    pieces_of(alloc, &doc)
}

// Each refusal of a piece leaves what it should.
#[test]
fn documents_are_written_piece_by_piece(rt: HostRuntime) {
    for (shape, wanted) in DOCUMENTS {
        let pieces = pieces_of_made(rt.alloc(), &shape);
        same(&rt, pieces.as_deref().ok(), Some(wanted), "pieces");
    }
}

// More bytes than are written before the piece is refused.
const AMPLE: usize = 4096;

// What `count` lists leave if the piece with this number is refused, and how many bytes were taken.
fn stopped_in_lists(
    alloc: Global,
    count: usize,
    number: usize,
) -> Result<(Left<Full>, usize), AllocError> {
    let doc: Doc = lists_around(alloc, count, &Leaf("x"))?;
    let mut bytes = vec![in alloc; 0u8; AMPLE]?;
    let (left, writer) = print_to(true, &doc, FailAt::new(bytes.as_mut_slice(), number));
    Ok((left, writer.written().len()))
}

// The list at depth k has a bracket, a line feed and k + 1 indentations before its entry. So 297
// pieces come before the 23rd list: 44 brackets and line feeds, and 253 indentations. Before the
// 43rd list come 987 pieces: 84 brackets and line feeds, and 903 indentations.
#[test]
fn a_deep_document_stops_at_a_refused_piece(rt: HostRuntime) {
    for (number, length) in [(1, 0), (300, 1058), (1000, 3738)] {
        let given = stopped_in_lists(rt.alloc(), 300, number);
        let left = (Err(Full), (true, 0), (false, 0));
        same(&rt, given, Ok((left, length)), "300 lists");
    }
}
