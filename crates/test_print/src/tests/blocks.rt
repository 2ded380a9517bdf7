//! Tests of the pieces of blocks in both modes, with a bar after each piece. Longer tuples are rows of tools/data/rows.
use super::asserts::has_wanted_rows;
use example_print::{InPrettyMode, Pair, Session, Tuple, X};
use test_rows::rows::{Table, map, set};
use test_rows::{by_builders, put_rows};

#[test]
fn blocks_print_in_pieces(rt: HostRuntime) {
    let mut table = Table::new(rt.alloc());
    put_rows!(table;
        pieces(&Pair { x: 1u64, y: 2u64 }) => "Pair| {| |x|: |1|, |y|: |2| |}|~\nPair| {|\n|    |x|: |1|,\n|    |y|: |2|,\n|}|";
        pieces(&Tuple(1u8, 2u8)) => "Tuple|(|1|, |2|)|~\nTuple|(|\n|    |1|,\n|    |2|,\n|)|";
        pieces(&X(1u8)) => "X|(|1|)|~\nX|(|\n|    |1|,\n|)|";
        pieces(&(1i32, 2i32)) => "|(|1|, |2|)|~\n|(|\n|    |1|,\n|    |2|,\n|)|";
        pieces(&(1u8,)) => "|(|1|,|)|~\n|(|\n|    |1|,\n|)|";
        pieces(&[1u64, 2]) => "[|1|, |2|]|~\n[|\n|    |1|,\n|    |2|,\n|]|";
        pieces(&[1i32, 2].as_slice()) => "[|1|, |2|]|~\n[|\n|    |1|,\n|    |2|,\n|]|";
        pieces(&[0u8; 0]) => "[|]|";
        pieces_of_made(set::<i32>(rt.alloc(), &[])) => "{|}|";
        pieces_of_made(set(rt.alloc(), &[2u64, 1])) => "{|1|, |2|}|~\n{|\n|    |1|,\n|    |2|,\n|}|";
        pieces_of_made(map::<u8, u8>(rt.alloc(), &[])) => "{|}|";
        pieces_of_made(map(rt.alloc(), &[(3i32, 4i32), (1, 2)])) => "{|1|: |2|, |3|: |4|}|~\n{|\n|    |1|: |2|,\n|    |3|: |4|,\n|}|";
        pieces(&Some(1u8)) => "Some|(|1|)|~\nSome|(|\n|    |1|,\n|)|";
        pieces_of_made(map(rt.alloc(), &[(1u8, [Some(2u64), None])])) => "\
{|1|: |[|Some|(|2|)|, |None|]|}|~
{|
|    |1|: |[|
|    |    |Some|(|
|    |    |    |2|,
|    |    |)|,
|    |    |None|,
|    |]|,
|}|";
    );
    // In pretty mode each value is a pretty part inside a pretty part.
    put_rows!(table;
        pieces(&InPrettyMode(Some(1u8))) => "Some|(|\n|    |1|,\n|)|";
        pieces(&[by_builders::InPrettyMode(Some(1u8))]) => "[|Some|(|\n|    |1|,\n|)|]|~\n[|\n|    |Some|(|\n|    |    |1|,\n|    |)|,\n|]|";
    );
    // Each four spaces of an indentation are one piece.
    put_rows!(table;
        pieces(&Ok::<u8, u8>(1)) => "Ok|(|1|)|~\nOk|(|\n|    |1|,\n|)|";
        pieces(&Err::<u8, u8>(2)) => "Err|(|2|)|~\nErr|(|\n|    |2|,\n|)|";
        pieces(&[Some([Some([1u8])])]) => "\
[|Some|(|[|Some|(|[|1|]|)|]|)|]|~
[|
|    |Some|(|
|    |    |[|
|    |    |    |Some|(|
|    |    |    |    |[|
|    |    |    |    |    |1|,
|    |    |    |    |]|,
|    |    |    |)|,
|    |    |]|,
|    |)|,
|]|";
    );
    has_wanted_rows(&rt, &table);
}

#[test]
fn structs_that_end_in_dots_print_in_pieces(rt: HostRuntime) {
    let session = Session { user: 7, key: 9 };
    let mut table = Table::new(rt.alloc());
    put_rows!(table;
        pieces(&session) => "Session| {| |user|: |7|, ..| |}|~\nSession| {|\n|    |user|: |7|,\n|    |..\n|}|";
        pieces(&[&session]) => "[|Session| {| |user|: |7|, ..| |}|]|~\n[|\n|    |Session| {|\n|    |    |user|: |7|,\n|    |    |..\n|    |}|,\n|]|";
        pieces(&Pair { x: &session, y: 2u8 }) => "\
Pair| {| |x|: |Session| {| |user|: |7|, ..| |}|, |y|: |2| |}|~
Pair| {|
|    |x|: |Session| {|
|    |    |user|: |7|,
|    |    |..
|    |}|,
|    |y|: |2|,
|}|";
        pieces(&Tuple(1u8, &session)) => "Tuple|(|1|, |Session| {| |user|: |7|, ..| |}|)|~\nTuple|(|\n|    |1|,\n|    |Session| {|\n|    |    |user|: |7|,\n|    |    |..\n|    |}|,\n|)|";
        pieces(&[Some(&session)]) => "\
[|Some|(|Session| {| |user|: |7|, ..| |}|)|]|~
[|
|    |Some|(|
|    |    |Session| {|
|    |    |    |user|: |7|,
|    |    |    |..
|    |    |}|,
|    |)|,
|]|";
    );
    has_wanted_rows(&rt, &table);
}
