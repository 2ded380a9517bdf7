//! Tests of `fmt_zeros` and of the mark `zeros`. Their pieces are the sign, each zero, and the digits. Numbers to
//! more widths are rows of tools/data/rows.
use super::asserts::has_wanted_rows;
use std::num::{NonZeroI16, NonZeroU8, Saturating, Wrapping};
use test_rows::printed::{BITS, Printed, PrintedLine, ZeroPadded, column};
use test_rows::put_rows;
use test_rows::rows::Table;
use ufmt::{Align, Formatter, laws, pieces, uDisplayZeros, uWrite, uwrite};

trait ZeroRows {
    // Adds a row of the number's pieces at width 4.
    fn zeros<N: uDisplayZeros + Drop>(&mut self, number: N);
}

impl ZeroRows for Table {
    fn zeros<N: uDisplayZeros + Drop>(&mut self, number: N) {
        self.pieces(&ZeroPadded { number, width: 4 });
    }
}

// Numbers of each width are rows of tools/data/rows.
#[test]
fn numbers_print_with_zeros(rt: HostRuntime) {
    let mut table = Table::new(rt.alloc());
    let mut number = 5u8;
    put_rows!(table;
        zeros(7u8) => "0|0|0|7|";
        zeros(12345usize) => "12345|";
        zeros(i8::MIN) => "-|128|";
        zeros(0i64) => "0|0|0|0|";
        zeros(&5u32) => "0|0|0|5|";
        zeros(&mut number) => "0|0|0|5|";
        zeros(Wrapping(-2i8)) => "-|0|0|2|";
        zeros(Saturating(16u64)) => "0|0|16|";
        zeros(NonZeroU8::MIN) => "0|0|0|1|";
        zeros(NonZeroI16::MIN) => "-|32768|";
    );
    has_wanted_rows(&rt, &table);
}

/// Pieces of numbers, by `uwrite!` and by the laws of both macros.
#[derive(Clone, Copy)]
enum Written {
    ByUwrite,
    ByTheLaw,
    ByTheLawOfLines,
}

impl Printed for Written {
    fn print<W: uWrite>(&self, f: &mut Formatter<W>) -> Result<(), W::Error> {
        let right = column(Align::Right, ' ', 6);
        match self {
            Written::ByUwrite => {
                uwrite!(f, zeros 7u8 to 2, text ":", zeros (-7i16) to 3, text " ", zeros 7u32 to 2 in right)
            }
            Written::ByTheLaw => laws::uwrite_numbers(f, &5u8, BITS, &-5i8, 3),
            Written::ByTheLawOfLines => {
                laws::line_of_numbers(f, ", ", &5u8, BITS, &-5i8, &[1i8, -1], 3, right)
            }
        }
    }
}

#[test]
fn pieces_print_with_zeros(rt: HostRuntime) {
    let (mut table, right) = (Table::new(rt.alloc()), column(Align::Right, ' ', 6));
    put_rows!(table;
        pieces(&Written::ByUwrite) => "0|7|:|-|0|7| |    |0|7|";
        pieces(&PrintedLine(pieces!(
            zeros 7u8 to 2, text ":", zeros (-7i16) to 3, text " ", zeros 7u32 to 2 in right,
            each zeros [1u8, 23] to 2 between ".", each zeros [4i8] to 2 in right between "."
        ))) => "0|7|:|-|0|7| |    |0|7|0|1|.|23|    |0|4|";
        pieces(&Written::ByTheLaw) => "0b|0|0|0|0|0|101|0o|0|0|0|0|0|0|0|5|-|0|5|";
        pieces(&Written::ByTheLawOfLines) => "0b|0|0|0|0|0|101|0o|0|0|0|0|0|0|0|5|-|0|5|   |0|0|1|, |   |-|0|1|";
    );
    has_wanted_rows(&rt, &table);
}
