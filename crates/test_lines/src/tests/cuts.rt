//! Tests of a text that is cut where the buffer ends: `Truncating`, and the calls that print as much as
//! fits. The rows of the calls are rustc's, for buffers of no byte, of one byte, and so on. `tools/expected/show VALUE`
//! prints the whole text again.
use super::asserts::{has_wanted_rows, same};
use super::counting::Counting;
use example_print::{Pair, log_cut};
use std::cell::Cell;
use test_rows::printed::PREFIXED;
use test_rows::rows::{Table, repeated};
use test_rows::{put_rows, rows_of};
use ufmt::{
    Cut, Full, Truncating, debug_cut_into, display_cut_into, line_cut_into, pieces,
    pretty_cut_into, uWrite, write_debug,
};

trait CutRows {
    // Adds a row of a cut, and of the buffer after it.
    fn put_cut(&mut self, cut: Cut, left: &[u8]);
}

impl CutRows for Table {
    fn put_cut(&mut self, cut: Cut, left: &[u8]) {
        let text = str::from_utf8(left).unwrap_or("bytes that are no UTF-8");
        let row = format!(in self.alloc(); "{} {} {text}", cut.length, cut.is_whole);
        self.put_made(row);
    }
}

// Each call by which a text is cut: with characters of one to four bytes, an escape, a nested value, a pretty
// value, a line of pieces, and twice an empty text.
fn cut_by(call: usize, buffer: &mut [u8]) -> Cut {
    match call {
        0 => display_cut_into(buffer, &"aé€𝄞b"),
        1 => debug_cut_into(buffer, &"é\n"),
        2 => debug_cut_into(buffer, &Pair { x: 1, y: Some("é") }),
        3 => pretty_cut_into(buffer, &[7u8]),
        4 => line_cut_into(
            buffer,
            &pieces!(text "n=", debug 7u8, text " ", display "é", text " ", hex 10u8 with PREFIXED, text " €"),
        ),
        5 => display_cut_into(buffer, &""),
        _ => line_cut_into(buffer, &()),
    }
}

// The whole text of each call, and how many bytes of it a buffer of no byte has, one of one byte, and so on.
const CUTS: [(&str, &[usize]); 7] = rows_of![
    "aé€𝄞b" => &[0, 1, 1, 3, 3, 3, 6, 6, 6, 6, 10, 11, 11];
    "\"é\\n\"" => &[0, 1, 1, 3, 4, 5, 6, 6];
    "Pair { x: 1, y: Some(\"é\") }"
        => &[0, 1, 2, 3, 4, 5, 6, 7, 8, 9, 10, 11, 12, 13, 14, 15, 16, 17, 18, 19, 20, 21, 22, 22, 24, 25, 26, 27, 28, 28];
    "[\n    7,\n]" => &[0, 1, 2, 3, 4, 5, 6, 7, 8, 9, 10, 10];
    "n=7 é 0x000a €" => &[0, 1, 2, 3, 4, 4, 6, 7, 8, 9, 10, 11, 12, 13, 14, 14, 14, 17, 17];
    "" => &[0, 0];
    "" => &[0, 0];
];

// Whether the buffer begins with so much of the text, and is as before after that.
fn is_cut_at(buffer: &[u8], text: &str, length: usize) -> bool {
    text.as_bytes()
        .get(..length)
        .is_some_and(|front| buffer.starts_with(front))
        && buffer.iter().skip(length).all(|byte| *byte == b'.')
}

#[test]
fn a_text_is_cut_between_characters_where_the_buffer_ends(rt: HostRuntime) {
    for (call, (text, lengths)) in CUTS.iter().enumerate() {
        for (size, length) in lengths.iter().enumerate() {
            let mut buffer = [b'.'; 32];
            let cut = cut_by(call, &mut buffer[..size.min(32)]);
            let is_whole = *length == text.len();
            let given = (size, cut.length, cut.is_whole);
            same(&rt, given, (size, *length, is_whole), text);
            same(&rt, is_cut_at(&buffer, text, *length), true, text);
        }
    }
}

#[test]
fn a_log_line_is_cut_at_64_bytes(rt: HostRuntime) {
    let mut table = Table::new(rt.alloc());
    for ((count, end), wanted) in rows_of![
        (54, "é€") => "64 false node 7: xxxxxxxxxxxxxxxxxxxxxxxxxxxxxxxxxxxxxxxxxxxxxxxxxxxxxxé";
        (55, "é€") => "63 false node 7: xxxxxxxxxxxxxxxxxxxxxxxxxxxxxxxxxxxxxxxxxxxxxxxxxxxxxxx.";
        (56, "") => "64 true node 7: xxxxxxxxxxxxxxxxxxxxxxxxxxxxxxxxxxxxxxxxxxxxxxxxxxxxxxxx";
        (0, "short") => "13 true node 7: short...................................................";
    ] {
        let mut buffer = [b'.'; 64];
        match repeated(rt.alloc(), "", "x", count, end) {
            Ok(message) => table.put_cut(log_cut(&mut buffer, 7, &message), &buffer),
            Err(_) => table.put_nothing(),
        }
        table.wants(wanted);
    }
    has_wanted_rows(&rt, &table);
}

// Five bytes: `ab`, and a character of three that fits. After a cut the shorter pieces fit no more.
#[test]
fn after_a_cut_nothing_more_is_taken_and_characters_are_taken_whole(rt: HostRuntime) {
    let mut table = Table::new(rt.alloc());
    let mut buffer = *b".....";
    let mut writer = Truncating::new(&mut buffer);
    same(&rt, writer.is_cut(), false, "before the cut");
    for (piece, wanted) in rows_of![
        "" => "Ok(5) ";
        "ab" => "Ok(3) ab";
        "é€c" => "Err(Full) abé";
        "d" => "Err(Full) abé";
        "" => "Ok(0) abé";
    ] {
        put_rows!(table; put_written(writer.write_str(piece), writer.remaining(), writer.written()) => wanted;);
    }
    put_rows!(table; put_written(writer.write_char('e'), writer.remaining(), writer.written()) => "Err(Full) abé";);
    let left = (writer.is_cut(), writer.remaining());
    same(&rt, left, (true, 0), "after the cut");
    same(&rt, buffer.as_slice(), "abé.".as_bytes(), "the buffer");
    let mut buffer = *b"....";
    let mut writer = Truncating::new(&mut buffer);
    for (character, wanted) in rows_of![
        'a' => "Ok(3) a"; 'é' => "Ok(1) aé"; 'é' => "Err(Full) aé"; 'b' => "Err(Full) aé";
    ] {
        put_rows!(table; put_written(writer.write_char(character), writer.remaining(), writer.written()) => wanted;);
    }
    same(&rt, buffer.as_slice(), "aé.".as_bytes(), "the whole buffer");
    has_wanted_rows(&rt, &table);
}

// A piece that fills the buffer exactly is no cut. The next one is, though nothing of it fits.
#[test]
fn a_full_buffer_is_not_yet_cut(rt: HostRuntime) {
    let mut buffer = *b"..";
    let mut writer = Truncating::new(&mut buffer);
    let whole = write_debug(&mut writer, &12u8);
    let was_cut = writer.is_cut();
    let more = write_debug(&mut writer, &3u8);
    same(&rt, (whole, was_cut), (Ok(()), false), "full");
    same(&rt, (more, writer.is_cut()), (Err(Full), true), "cut");
    same(&rt, buffer, *b"12", "the whole buffer");
}

#[test]
fn a_value_is_printed_once(rt: HostRuntime) {
    let prints = Cell::new(0);
    let value = Counting::new("abc", &prints);
    let mut buffer = [b'.'; 2];
    let _cut = debug_cut_into(&mut buffer, &value);
    same(&rt, prints.get(), 1, "debug_cut_into");
    let _cut = pretty_cut_into(&mut buffer, &value);
    same(&rt, prints.get(), 2, "pretty_cut_into");
    let _cut = display_cut_into(&mut buffer, &value);
    same(&rt, prints.get(), 3, "display_cut_into");
    let _cut = line_cut_into(&mut buffer, &pieces!(debug value));
    same(&rt, prints.get(), 4, "line_cut_into");
}
