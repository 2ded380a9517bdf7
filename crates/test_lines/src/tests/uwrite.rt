//! Tests of what `uwrite!` and `uwriteln!` pass to the writer. What they evaluate is tested in `test_print`.
use super::asserts::{has_wanted_rows, same};
use example_print::log_valve;
use test_rows::printed::{PREFIXED, Printed};
use test_rows::rows::Table;
use test_rows::{put_filled, put_rows, rows_of};
use ufmt::{Cursor, Formatter, Full, laws, uWrite, uwrite, uwriteln};

/// Pieces by each macro, and by the laws of both.
#[derive(Clone, Copy)]
enum Written {
    AllPieces,
    LineOfAllPieces,
    LineFeedLast,
    /// Each kind of piece after a hexadecimal one.
    HexadecimalFirst,
    /// A hexadecimal piece in the middle of a line.
    HexadecimalInALine,
    AllForms,
    /// Empty texts are pieces too.
    EmptyTexts,
}

impl Printed for Written {
    fn print<W: uWrite>(&self, f: &mut Formatter<W>) -> Result<(), W::Error> {
        let (tuples, numbers) = ([(3i32,)], [16u8, 17]);
        match self {
            Written::AllPieces => {
                laws::all_pieces(f, "n=", &7i32, &(1i32,), &Some(2i32), &255u8, PREFIXED)
            }
            Written::LineOfAllPieces => laws::line_of_all_pieces(
                f,
                "n=",
                &7i32,
                &(1i32,),
                &Some(2i32),
                &255u8,
                &tuples,
                &numbers,
                PREFIXED,
            ),
            Written::LineFeedLast => laws::line_feed_comes_last(f, "n=", &7i32, &(1i32,)),
            Written::HexadecimalFirst =>
                uwrite!(f, hex 1u8 with PREFIXED, text "ab", hex (2u8) with PREFIXED, display 3u8, hex 4u8 with PREFIXED, debug 5u8, hex 6u8 with PREFIXED, pretty 7u8, hex 8u8 with PREFIXED, hex 9u8 with PREFIXED),
            Written::HexadecimalInALine => uwriteln!(f, text "a", hex 1u8 with PREFIXED, text "b",),
            Written::AllForms =>
                uwriteln!(f, text "a b", display 7i32, debug [1i32], pretty [2i32]),
            Written::EmptyTexts => {
                uwrite!(f, text "",)?;
                uwrite!(f, text "", display 1u8, text "", display "")?;
                uwriteln!(f, text "")
            }
        }
    }
}

#[test]
fn pieces_are_passed_to_the_writer(rt: HostRuntime) {
    let mut table = Table::new(rt.alloc());
    put_rows!(table;
        pieces(&Written::AllPieces) => "\
n=|7||(|1|,|)|Some|(|\n|    |2|,\n|)|0x|0|0|ff|~
n=|7||(|\n|    |1|,\n|)|Some|(|\n|    |2|,\n|)|0x|0|0|ff|";
        pieces(&Written::LineOfAllPieces) => "\
n=|7||(|1|,|)|Some|(|\n|    |2|,\n|)|0x|0|0|ff||(|3|,|)|0x|0|0|10|n=|0x|0|0|11|~
n=|7||(|\n|    |1|,\n|)|Some|(|\n|    |2|,\n|)|0x|0|0|ff||(|\n|    |3|,\n|)|0x|0|0|10|n=|0x|0|0|11|";
        pieces(&Written::LineFeedLast) => "n=|7||(|1|,|)|\n|~\nn=|7||(|\n|    |1|,\n|)|\n|";
        pieces(&Written::HexadecimalFirst) => "0x|0|0|0|1|ab|0x|0|0|0|2|3|0x|0|0|0|4|5|0x|0|0|0|6|7|0x|0|0|0|8|0x|0|0|0|9|";
        pieces(&Written::HexadecimalInALine) => "a|0x|0|0|0|1|b|\n|";
        pieces(&Written::AllForms) => "a b|7|[|1|]|[|\n|    |2|,\n|]|\n|~\na b|7|[|\n|    |1|,\n|]|[|\n|    |2|,\n|]|\n|";
        pieces(&Written::EmptyTexts) => "||1||||\n|";
    );
    has_wanted_rows(&rt, &table);
}

// Counts a call, and returns the count.
fn noted(calls: &mut u32) -> u32 {
    *calls = calls.saturating_add(1);
    *calls
}

// The result, and how often the value after the text was evaluated.
fn write_noted(f: &mut Formatter<Cursor<'_>>, text: &str) -> (Result<(), Full>, u32) {
    let mut calls = 0;
    let outcome = uwrite!(f, text text, display noted(&mut calls));
    (outcome, calls)
}

#[test]
fn nothing_is_evaluated_after_a_failure(rt: HostRuntime) {
    let mut buffer = [0; 1];
    let mut f = Formatter::new(Cursor::new(&mut buffer));
    let outcomes = (write_noted(&mut f, "ab"), write_noted(&mut f, ""));
    let wanted = ((Err(Full), 0), (Ok(()), 1));
    same(&rt, outcomes, wanted, "a failure, and none");
    same(&rt, f.into_inner().written(), b"1".as_slice(), "of both");
}

// The result, and mode and depth after it.
fn write_outcome(f: &mut Formatter<Cursor<'_>>) -> (Result<(), Full>, bool, u8) {
    let outcome = uwrite!(f, text "The answer is ", display 42i32);
    (outcome, f.is_pretty(), f.depth())
}

#[test]
fn uwrite_leaves_the_rest_of_a_long_buffer(rt: HostRuntime) {
    let mut buffer = [0; 256];
    let mut f = Formatter::new(Cursor::new(&mut buffer));
    let left = write_outcome(&mut f);
    same(&rt, left, (Ok(()), false, 0), "what is left");
    let cursor = f.into_inner();
    same(&rt, cursor.remaining(), 240, "what remains");
    let text = "The answer is 42".as_bytes();
    same(&rt, cursor.written(), text, "the text");
}

#[test]
fn log_valve_writes_a_line(rt: HostRuntime) {
    let mut table = Table::new(rt.alloc());
    put_filled!(table; buffer[24] log_valve(buffer, 7, true);
        24 => "Ok(18) valve 7 open=true\n~~~~~~";
        17 => "Err(Full) valve 7 open=true~~~~~~~";
        14 => "Err(Full) valve 7 open=~~~~~~~~~~~";
    );
    put_filled!(table; buffer[24] log_valve(buffer, 7, false); 19 => "Ok(19) valve 7 open=false\n~~~~~";);
    has_wanted_rows(&rt, &table);
}
