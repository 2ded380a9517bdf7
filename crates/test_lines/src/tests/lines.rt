//! Tests of `pieces!`, `write_line` and `line_into`.
use super::asserts::{has_wanted_rows, same};
use example_print::{Measurement, dump_packet, list_measurements};
use test_rows::printed::{PREFIXED, PrintedLine};
use test_rows::rows::{Table, are_ok};
use test_rows::{put_filled, put_rows};
use ufmt::pieces::Display;
use ufmt::{line_into, pieces, write_line};

#[test]
fn line_into_a_short_buffer_writes_the_first_pieces(rt: HostRuntime) {
    let mut table = Table::new(rt.alloc());
    let line = pieces!(
        text "a=", display 7i32, text " ", debug (1u8,), pretty [2u8],
        hex 255u8 with PREFIXED, each debug [1i8, 2] between "-", text "."
    );
    put_filled!(table; buffer[29] line_into(buffer, &line);
        29 => "Ok(28) a=7 (1,)[\n    2,\n]0x00ff1-2.~";
        28 => "Ok(28) a=7 (1,)[\n    2,\n]0x00ff1-2.~";
        27 => "Err(Full) a=7 (1,)[\n    2,\n]0x00ff1-2~~";
        26 => "Err(Full) a=7 (1,)[\n    2,\n]0x00ff1-~~~";
        25 => "Err(Full) a=7 (1,)[\n    2,\n]0x00ff1~~~~";
        23 => "Err(Full) a=7 (1,)[\n    2,\n]0x00~~~~~~~";
        19 => "Err(Full) a=7 (1,)[\n    2,\n]~~~~~~~~~~~";
        9 => "Err(Full) a=7 (1,)[~~~~~~~~~~~~~~~~~~~~";
        3 => "Err(Full) a=7~~~~~~~~~~~~~~~~~~~~~~~~~~";
        1 => "Err(Full) ~~~~~~~~~~~~~~~~~~~~~~~~~~~~~";
    );
    has_wanted_rows(&rt, &table);
}

#[test]
fn each_prints_items_with_a_text_between_them(rt: HostRuntime) {
    let mut text = String::new(rt.alloc());
    let no_items: [u8; 0] = [];
    let line = pieces!(
        each display ["a", "b", "c"] between ", ", text ";", each debug ["a"] between ", ",
        each pretty [(1u8,), (2,)] between "+", each hex [10u8, 255] with PREFIXED between "",
    );
    let outcomes = [
        write_line(&mut text, &line),
        write_line(&mut text, &pieces!(each debug no_items between ",")),
        write_line(&mut text, &pieces!()),
    ];
    same(&rt, are_ok(&outcomes), true, "the outcomes");
    let wanted = "a, b, c;\"a\"(\n    1,\n)+(\n    2,\n)0x000a0x00ff";
    same(&rt, text.as_str(), wanted, "in order");
}

// Empty texts, items and separators are pieces too.
#[test]
fn empty_pieces_are_passed_to_the_writer(rt: HostRuntime) {
    let mut table = Table::new(rt.alloc());
    put_rows!(table;
        pieces(&PrintedLine(pieces!(text ""))) => "|";
        pieces(&PrintedLine(pieces!(text "", display "", each debug [1u8, 2, 3] between "", text ""))) => "||1||2||3||";
        pieces(&PrintedLine(pieces!(each display ["", ""] between ""))) => "|||";
        pieces(&PrintedLine(pieces!(each hex [1u8, 2] with PREFIXED between ""))) => "0x|0|0|0|1||0x|0|0|0|2|";
        pieces(&PrintedLine(pieces!(each ["a", "b"] by Display between ""))) => "a||b|";
    );
    has_wanted_rows(&rt, &table);
}

#[test]
fn a_line_prints_in_pretty_mode(rt: HostRuntime) {
    let mut table = Table::new(rt.alloc());
    put_rows!(table; pieces(&PrintedLine(pieces!(text "a", debug (1u8,)))) => "a||(|1|,|)|~\na||(|\n|    |1|,\n|)|";);
    has_wanted_rows(&rt, &table);
}

#[test]
fn dump_packet_and_list_measurements_print_lines(rt: HostRuntime) {
    let mut table = Table::new(rt.alloc());
    put_filled!(table; buffer[20] dump_packet(buffer, &[0xde, 0xad, 0xbe, 0xef]); 20 => "Ok(17) len=4 de ad be ef~~~";);
    put_filled!(table; buffer[9] dump_packet(buffer, &[0]); 8 => "Ok(8) len=1 00~";);
    put_filled!(table; buffer[9] dump_packet(buffer, &[]); 9 => "Ok(6) len=0 ~~~";);
    put_filled!(table; buffer[9] dump_packet(buffer, &[1, 2]); 9 => "Err(Full) len=2 01 ";);
    let measurements = [(3, -4), (5, 20)].map(|(channel, celsius)| Measurement {
        channel,
        celsius,
    });
    put_filled!(table; buffer[24] list_measurements(buffer, &measurements);
        24 => "Ok(20) measured: 3=-4, 5=20~~~~";
        19 => "Err(Full) measured: 3=-4, 5=~~~~~~";
    );
    put_filled!(table; buffer[14] list_measurements(buffer, &measurements[..1]); 14 => "Ok(14) measured: 3=-4";);
    put_filled!(table; buffer[14] list_measurements(buffer, &[]); 14 => "Ok(10) measured: ~~~~";);
    has_wanted_rows(&rt, &table);
}
