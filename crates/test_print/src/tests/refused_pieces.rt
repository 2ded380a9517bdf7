//! Tests of each builder and its formatter after a failed call, for each piece of each call.
use super::asserts::same;
use super::builder_calls::Block;
use super::stopped_calls::{CallWithPieces, wrong_piece};
use test_rows::rows_of;

// Blocks and whether they are pretty, with the calls that print them.
const BLOCKS: [(&str, Block, bool, &[CallWithPieces]); 14] = rows_of![
    "a plain list", Block::List, false
        => &[("opening", "[|"), ("entry", "1|"), ("entries", ", |2|, |3|"), ("begin_entry", ", |"), ("end_entry", "4|"), ("finish", "]|")];
    "a pretty list", Block::List, true => &[
        ("opening", "[|"), ("entry", "\n|    |    |1|,\n|"), ("entries", "    |    |2|,\n|    |    |3|,\n|"),
        ("begin_entry", "    |    |"), ("end_entry", "4|,\n|"), ("finish", "    |]|"),
    ];
    "a plain set", Block::Set, false
        => &[("opening", "{|"), ("entry", "1|"), ("entries", ", |2|, |3|"), ("begin_entry", ", |"), ("end_entry", "4|"), ("finish", "}|")];
    "a pretty set", Block::Set, true => &[
        ("opening", "{|"), ("entry", "\n|    |    |1|,\n|"), ("entries", "    |    |2|,\n|    |    |3|,\n|"),
        ("begin_entry", "    |    |"), ("end_entry", "4|,\n|"), ("finish", "    |}|"),
    ];
    "a plain map", Block::Map, false => &[
        ("opening", "{|"), ("entry", "1|: |2|"), ("entries", ", |3|: |4|, |5|: |6|"), ("begin_entry", ", |"), ("begin_value", "7|: |"),
        ("end_entry", "8|"), ("finish", "}|"),
    ];
    "a pretty map", Block::Map, true => &[
        ("opening", "{|"), ("entry", "\n|    |    |1|: |2|,\n|"), ("entries", "    |    |3|: |4|,\n|    |    |5|: |6|,\n|"),
        ("begin_entry", "    |    |"), ("begin_value", "7|: |"), ("end_entry", "8|,\n|"), ("finish", "    |}|"),
    ];
    "a plain struct", Block::Struct, false
        => &[("opening", "S|"), ("begin_field", " {| |a|: |"), ("end_field", "1|"), ("field", ", |b|: |2|"), ("finish", " |}|")];
    "a pretty struct", Block::Struct, true => &[
        ("opening", "S|"), ("begin_field", " {|\n|    |    |a|: |"), ("end_field", "1|,\n|"), ("field", "    |    |b|: |2|,\n|"),
        ("finish", "    |}|"),
    ];
    "a plain struct with dots", Block::StructWithDots, false
        => &[("opening", "S|"), ("begin_field", " {| |a|: |"), ("end_field", "1|"), ("field", ", |b|: |2|"), ("finish_non_exhaustive", ", ..| |}|")];
    "a pretty struct with dots", Block::StructWithDots, true => &[
        ("opening", "S|"), ("begin_field", " {|\n|    |    |a|: |"), ("end_field", "1|,\n|"), ("field", "    |    |b|: |2|,\n|"),
        ("finish_non_exhaustive", "    |    |..\n|    |}|"),
    ];
    "only dots, plain", Block::OnlyDots, false => &[("opening", "S|"), ("finish_non_exhaustive", " { .. }|")];
    "only dots, pretty", Block::OnlyDots, true => &[("opening", "S|"), ("finish_non_exhaustive", " { .. }|")];
    "a plain tuple", Block::Tuple, false => &[("opening", "T|"), ("begin_field", "(|"), ("end_field", "1|"), ("field", ", |2|"), ("finish", ")|")];
    "a pretty tuple", Block::Tuple, true
        => &[("opening", "T|"), ("begin_field", "(|\n|    |    |"), ("end_field", "1|,\n|"), ("field", "    |    |2|,\n|"), ("finish", "    |)|")];
];

#[test]
fn builders_close_at_each_refused_piece(rt: HostRuntime) {
    for (case, block, is_pretty, calls) in BLOCKS {
        let wrong = wrong_piece(rt.alloc(), block, is_pretty, calls);
        same(&rt, wrong, Ok(None), case);
    }
}
