//! Tests of `fmt_radix` and of the marks `bin` and `oct`, which write the same pieces as `fmt_hex`. tools/data/rows has
//! numbers in each radix, with options.
use super::asserts::has_wanted_rows;
use std::num::{NonZeroI16, NonZeroU8, Saturating, Wrapping};
use test_rows::printed::{BITS, Digits, PREFIXED, Printed, PrintedLine};
use test_rows::put_rows;
use test_rows::rows::Table;
use ufmt::{Formatter, Radix, pieces, uDisplayRadix, uWrite, uwrite};

trait BinaryRows {
    // Adds a row of the pieces of the number's binary digits.
    fn binary<N: uDisplayRadix + Drop>(&mut self, number: N);
}

impl BinaryRows for Table {
    fn binary<N: uDisplayRadix + Drop>(&mut self, number: N) {
        let mut options = PREFIXED;
        options.pad_length = 0;
        if options.has_ascii_pad() {
            let radix = Radix::Binary;
            self.pieces(&Digits {
                number,
                radix,
                options,
            });
        }
    }
}

// Numbers of each width are rows of tools/data/rows.
#[test]
fn numbers_print_in_binary(rt: HostRuntime) {
    let mut table = Table::new(rt.alloc());
    let mut number = 5u8;
    put_rows!(table;
        binary(255u8) => "0b|11111111|";
        binary(i8::MIN) => "0b|10000000|";
        binary(&5u32) => "0b|101|";
        binary(&mut number) => "0b|101|";
        binary(Wrapping(-2i8)) => "0b|11111110|";
        binary(Saturating(16u64)) => "0b|10000|";
        binary(NonZeroU8::MIN) => "0b|1|";
        binary(NonZeroI16::MIN) => "0b|1000000000000000|";
    );
    has_wanted_rows(&rt, &table);
}

/// Pieces in each radix, by `uwrite!`.
struct Written;

impl Printed for Written {
    fn print<W: uWrite>(&self, f: &mut Formatter<W>) -> Result<(), W::Error> {
        uwrite!(f, bin 37u8 with BITS, text " ", oct (37i16) with BITS)
    }
}

#[test]
fn pieces_print_in_binary_and_octal(rt: HostRuntime) {
    let mut table = Table::new(rt.alloc());
    put_rows!(table;
        pieces(&Written) => "0b|0|0|100101| |0o|0|0|0|0|0|0|45|";
        pieces(&PrintedLine(pieces!(bin 37u8 with BITS, oct 37i16 with BITS))) => "0b|0|0|100101|0o|0|0|0|0|0|0|45|";
        pieces(&PrintedLine(pieces!(each bin [1u8, 2] with BITS between ",", each oct [8u8] with BITS between "")))
            => "0b|0|0|0|0|0|0|0|1|,|0b|0|0|0|0|0|0|10|0o|0|0|0|0|0|0|10|";
    );
    has_wanted_rows(&rt, &table);
}
