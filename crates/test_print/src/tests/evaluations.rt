//! Tests of how often and in which order macros evaluate. Each expression notes its turn, so a row
//! shows all evaluations in order.
ghost use Rattle.std.specs.Prelude.{◌<◌};

// One of these calls, by its number, with what is wanted of it.
macro_rules! of_number {
    ($number:ident; $($case:pat => $call:expr, $wanted:expr;)*) => {
        match $number { $($case => ($call, $wanted)),* }
    };
}

mod fields;
mod pieces;
mod uwrite;

use std::alloc::Global;
use test_rows::printed::column;
use ufmt::pieces::Debug;
use ufmt::{Align, Column, Formatter, HexOptions, uWrite};

/// The evaluations so far: `a`, `b`, `c` and so on for the values, `F` for a formatter, `O` for
/// options, `W` for a width, `C` for a column, `M` for a mark, `S` for a separator.
#[derive(Drop)]
struct Turns {
    noted: String,
}

impl Turns {
    fn new(alloc: Global) -> Self {
        Turns {
            noted: String::new(alloc),
        }
    }

    // Without memory the turn is missing, and the row differs.
    fn note(&mut self, turn: char) {
        let _noted = self.noted.push(turn);
    }

    fn formatter<'f, W: uWrite>(&mut self, f: &'f mut Formatter<W>) -> &'f mut Formatter<W> {
        self.note('F');
        f
    }

    // Notes the letter of the value with this number.
    fn note_value(&mut self, number: u8) {
        self.note(char::from(number.saturating_add(b'`')));
    }

    fn text(&mut self, number: u8, text: &'static str) -> &'static str {
        self.note_value(number);
        text
    }

    fn number(&mut self, number: u8) -> u8 {
        self.note_value(number);
        number
    }

    fn options(&mut self) -> HexOptions
        ensures { result.pad_char < 128 }
    {
        self.note('O');
        HexOptions {
            upper_case: false,
            pad_char: b' ',
            pad_length: 0,
            ox_prefix: false,
        }
    }

    fn width(&mut self) -> usize {
        self.note('W');
        0
    }

    // A column without a width.
    fn column(&mut self) -> Column {
        self.note('C');
        column(Align::Left, ' ', 0)
    }

    fn items(&mut self, number: u8) -> [u8; 2] {
        self.note_value(number);
        [number, number]
    }

    fn mark(&mut self) -> Debug {
        self.note('M');
        Debug
    }

    fn separator(&mut self) -> &'static str {
        self.note('S');
        "-"
    }
}
