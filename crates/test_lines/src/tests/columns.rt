//! Tests of columns. Spaces come in pieces of up to 64, other fills one in a piece. Texts in columns of each width are rows of
//! tools/data/rows.
ghost use Rattle.std.specs.Prelude.{codes};
ghost use Rattle.ufmt.specs.Hex.{padded};

use super::asserts::{has_wanted_rows, same};
use super::counting::Counting;
use example_print::{Counter, write_row};
use std::alloc::{AllocError, Global};
use std::cell::Cell;
use std::test::Fail;
use test_rows::printed::{PREFIXED, Printed, PrintedLine, column, decimal, in_column};
use test_rows::rows::Table;
use test_rows::{put_filled, put_rows, rows_of};
use ufmt::pieces::{Debug, Display};
use ufmt::{
    Align, Column, Formatter, HexOptions, Line, laws, line_into, pieces, uDisplayHex, uWrite,
    uwrite, write_line,
};

fn left(width: usize) -> Column {
    column(Align::Left, ' ', width)
}

fn center(width: usize) -> Column {
    column(Align::Center, ' ', width)
}

fn right(width: usize) -> Column {
    column(Align::Right, ' ', width)
}

/// Columns by other calls than those of a line.
#[derive(Clone, Copy)]
enum Columns {
    /// A column in a list: in pretty mode it is at depth 1.
    InAList,
    ByUwrite,
    /// The law of `uwrite!`, and that of `pieces!`.
    ByLaws,
}

impl Printed for Columns {
    fn print<W: uWrite>(&self, f: &mut Formatter<W>) -> Result<(), W::Error> {
        let (texts, numbers, within) = (["b"], [16u8, 17], left(5));
        match self {
            Columns::InAList => {
                let mut list = f.debug_list()?;
                let outcome = pieces!(debug (1u8, "é") in center(40)).print(list.begin_entry()?);
                list.end_entry(outcome)?;
                list.finish()
            }
            Columns::ByUwrite => uwrite!(
                    f,
                    text "n=", debug 5u8 in right(4), text ", ", hex 255u8 with PREFIXED in left(6), text "!\n"
                ),
            Columns::ByLaws => {
                laws::all_columns(f, &7i32, &"a", &(), &255u8, PREFIXED, within)?;
                laws::line_of_all_columns(
                    f,
                    "-",
                    &7i32,
                    &"a",
                    &(),
                    &255u8,
                    &texts,
                    &numbers,
                    PREFIXED,
                    within,
                )
            }
        }
    }
}

// Adds a row of the pieces of each line, and after an arrow what is wanted of it.
macro_rules! put_lines {
    ($table:ident; $(($($line:tt)*) => $wanted:tt)*) => {
        $($table.pieces(&PrintedLine(pieces!($($line)*)));
        $table.wants($wanted);)*
    };
}

#[test]
fn a_column_that_no_buffer_holds_fails_with_full(rt: HostRuntime) {
    let mut table = Table::new(rt.alloc());
    for (align, fill, wanted) in rows_of![
        Align::Left, ' ' => "Err(Full) x                                                                ~~~~~~~~~~~~~~~";
        Align::Left, '*' => "Err(Full) x*******************************************************************************";
        Align::Center, ' ' => "Err(Full)                                                                 ~~~~~~~~~~~~~~~~";
        Align::Center, '*' => "Err(Full) ********************************************************************************";
        Align::Right, ' ' => "Err(Full)                                                                 ~~~~~~~~~~~~~~~~";
        Align::Right, '*' => "Err(Full) ********************************************************************************";
    ] {
        let widest = column(align, fill, usize::MAX);
        put_filled!(table; buffer[80] line_into(buffer, &pieces!(display 'x' in widest)); 80 => wanted;);
    }
    has_wanted_rows(&rt, &table);
}

#[test]
fn values_are_padded_as_their_texts_and_as_the_laws_say(rt: HostRuntime) {
    let mut table = Table::new(rt.alloc());
    put_lines!(table;
        (display (-42i64) in column(Align::Center, '-', 6)) => "-|-42|-|-|"
        (display 7i32 in right(5)) => "    |7|"
        (debug "a\"b" in column(Align::Left, '.', 9)) => "\"|a|\\\"|b|\"|.|.|.|"
        (display 'é' in column(Align::Center, '€', 4)) => "€|é|€|€|"
        (display true in center(7)) => " |true|  |"
        (debug (1u8, "é") in center(26)) => "         ||(|1|, |\"|é|\"|)|         |~
   ||(|
|    |1|,
|    |\"|é|\"|,
|)|    |"
        (pretty [2u8] in right(14)) => "    |[|
|    |2|,
|]|"
        (hex 255u8 with PREFIXED in left(8)) => "0x|0|0|ff|  |"
        (each display ["a", "bcde"] in (left(3)) between ",") => "a|  |,|bcde|"
        (each pretty [1u8, 23] in (right(4)) between "-") => "   |1|-|  |23|"
        (each hex [10u32, 0xf_ffff] with PREFIXED in (right(6)) between " ") => "0x|0|0|0|a| |0x|fffff|"
        (display "abc" in right(0), display "abc" in right(3), display "abc" in right(2)) => "abc|abc|abc|"
        (display "" in right(70)) => "                                                                |      ||"
        (display 'x' in center(129)) => "                                                                |x|                                                                |"
    );
    let within = in_column(in_column(Display, column(Align::Center, '*', 5)), right(9));
    put_lines!(table;
        (each [8u8] by within between "") => "    |*|*|8|*|*|"
    );
    for (columns, wanted) in rows_of![
        Columns::InAList => "\
[|                ||(|1|, |\"|é|\"|)|                |]|~
[|
|    |    ||(|
|    |    |1|,
|    |    |\"|é|\"|,
|    |)|     |,
|]|";
        Columns::ByUwrite => "n=|   |5|, |0x|0|0|ff|!\n|";
        Columns::ByLaws => "7|    |\"|a|\"|  |()|   |0x|0|0|ff|7|    |\"|a|\"|  |()|   |0x|0|0|ff|\"|b|\"|  |0x|0|0|10|-|0x|0|0|11|";
    ] {
        put_rows!(table; pieces(&columns) => wanted;);
    }
    laws::columns_are_filled();
    has_wanted_rows(&rt, &table);
}

/// A number that writes its own digits, and leaves the padding to its options.
#[derive(Drop)]
struct Ff;

impl uDisplayHex for Ff {
    ghost hex_text = { λ _ options. padded options (codes "ff") };

    fn fmt_hex<W: uWrite>(
        &self,
        f: &mut Formatter<W>,
        options: HexOptions,
    ) -> Result<(), W::Error> {
        options.with_stuff(f, "ff")
    }
}

// Numbers padded to each length from 4 to 8, with zeros and with spaces, in a column of six characters.
fn of_each_length(alloc: Global, align: Align) -> Result<String, AllocError> {
    let (six, mut row) = (column(align, '*', 6), String::new(alloc));
    let price = decimal(-125, 1);
    for pad_length in 4..9usize {
        let (mut zeros, mut spaces) = (PREFIXED, PREFIXED);
        zeros.pad_length = pad_length;
        spaces.pad_length = pad_length;
        spaces.pad_char = b' ';
        let line = pieces!(
            hex 255u32 with zeros in six, text "|", hex Ff with zeros in six, text "|",
            bin 5u8 with spaces in six, text "|", zeros (-7i8) to pad_length in six, text "|",
            zeros price to pad_length in six, text ";\n"
        );
        write_line(&mut row, &line)?;
    }
    Ok(row)
}

// `tools/expected/show --as '{:*<6}' 'format!("{:#04x}", 255)'` prints such a one again.
const OF_EACH_LENGTH: [(Align, &str); 3] = rows_of![
    Align::Left => "\
0xff**|0xff**|0b101*|-007**|-12.5*;
0x0ff*|0x0ff*|0b101*|-0007*|-12.5*;
0x00ff|0x00ff| 0b101|-00007|-012.5;
0x000ff|0x000ff|  0b101|-000007|-0012.5;
0x0000ff|0x0000ff|   0b101|-0000007|-00012.5;
";
    Align::Center => "\
*0xff*|*0xff*|0b101*|*-007*|-12.5*;
0x0ff*|0x0ff*|0b101*|-0007*|-12.5*;
0x00ff|0x00ff| 0b101|-00007|-012.5;
0x000ff|0x000ff|  0b101|-000007|-0012.5;
0x0000ff|0x0000ff|   0b101|-0000007|-00012.5;
";
    Align::Right => "\
**0xff|**0xff|*0b101|**-007|*-12.5;
*0x0ff|*0x0ff|*0b101|*-0007|*-12.5;
0x00ff|0x00ff| 0b101|-00007|-012.5;
0x000ff|0x000ff|  0b101|-000007|-0012.5;
0x0000ff|0x0000ff|   0b101|-0000007|-00012.5;
";
];

#[test]
fn a_padded_number_has_fills_up_to_the_width(rt: HostRuntime) -> Result<(), Fail> {
    for (align, wanted) in OF_EACH_LENGTH {
        let row = of_each_length(rt.alloc(), align)?;
        same(&rt, row.as_str(), wanted, "padded numbers in a column");
    }
    Ok(())
}

// How often `fmt` of this text is called for a column in a buffer of 16 bytes, and whether the column fits.
fn calls_in(within: Column, text: &'static str) -> (u8, bool) {
    let calls = Cell::new(0);
    let counting = Counting::new(text, &calls);
    let outcome = line_into(&mut [0; 16], &pieces!(debug counting in within));
    (calls.get(), outcome.is_ok())
}

// At the left a value that is refused was printed once.
#[test]
fn a_value_is_printed_twice_and_once_where_no_width_is_asked_for(rt: HostRuntime) {
    let longer = "seventeen letters";
    for (within, text, wanted) in rows_of![
        left(0), "" => (1, true);
        left(1), "" => (2, true);
        center(9), "a" => (2, true);
        right(9), "a" => (2, true);
        left(2), "abc" => (2, true);
        right(2), "abc" => (2, true);
        left(20), longer => (1, false);
        center(17), longer => (2, false);
        right(5), longer => (2, false);
    ] {
        same(&rt, calls_in(within, text), wanted, text);
    }
}

#[test]
fn a_value_in_a_column_in_a_column_is_printed_three_times(rt: HostRuntime) {
    let calls = Cell::new(0);
    let counting = Counting::new("a", &calls);
    let outer = in_column(in_column(Debug, right(3)), right(9));
    let fits = line_into(&mut [0; 16], &pieces!(each [counting] by outer between "")).is_ok();
    same(&rt, (calls.get(), fits), (3, true), "calls of `fmt`");
}

#[test]
fn write_row_prints_columns(rt: HostRuntime) {
    let (mut table, register) = (Table::new(rt.alloc()), 255);
    for (name, count, length, wanted) in rows_of![
        "pump", 1203, 48 => "Ok(31) pump      ....1203|  0x00ff  |\n~~~~~~~~~~~~~~~~~";
        "überdruck", 0, 48 => "Ok(32) überdruck .......0|  0x00ff  |\n~~~~~~~~~~~~~~~~";
        "a very long name", u32::MAX, 48 => "Ok(39) a very long name4294967295|  0x00ff  |\n~~~~~~~~~";
        "pump", 1203, 12 => "Err(Full) pump      ..~~~~~~~~~~~~~~~~~~~~~~~~~~~~~~~~~~~~";
    ] {
        let mut bytes = [b'~'; 48];
        match String::from_str(rt.alloc(), name) {
            Ok(name) => {
                let counter = Counter {
                    name,
                    count,
                    register,
                };
                let outcome = write_row(&mut bytes[..length], &counter);
                table.put_outcome(outcome, &bytes);
            }
            Err(_) => table.put_nothing(),
        }
        table.wants(wanted);
    }
    has_wanted_rows(&rt, &table);
}
