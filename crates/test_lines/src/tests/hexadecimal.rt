//! Tests of `fmt_hex` and `with_stuff`. Their pieces are the prefix, each byte of padding, and the
//! digits or the payload. Numbers of each width are rows of tools/data/rows.
use super::asserts::{has_wanted_rows, same};
use std::num::{NonZeroI16, NonZeroU8, Saturating, Wrapping};
use test_rows::printed::{Hexadecimal, Payload, print_to};
use test_rows::put_rows;
use test_rows::rows::Table;
use ufmt::{Cursor, HexOptions, uDisplayHex};

fn lower_case(ox_prefix: bool, pad_char: u8, pad_length: usize) -> HexOptions {
    HexOptions {
        upper_case: false,
        pad_char,
        pad_length,
        ox_prefix,
    }
}

fn upper_case(ox_prefix: bool, pad_char: u8, pad_length: usize) -> HexOptions {
    HexOptions {
        upper_case: true,
        ..lower_case(ox_prefix, pad_char, pad_length)
    }
}

trait HexadecimalRows {
    // Adds a row of the padded number's pieces, if the pad byte is ASCII.
    fn padded<N: uDisplayHex + Drop>(&mut self, number: N, options: HexOptions);

    fn hexadecimal<N: uDisplayHex + Drop>(&mut self, number: N);

    fn payload(&mut self, payload: &str, options: HexOptions);

    // Adds a row of what a padded 33 leaves in a buffer of eight bytes.
    fn past_a_buffer(&mut self, options: HexOptions);
}

impl HexadecimalRows for Table {
    fn padded<N: uDisplayHex + Drop>(&mut self, number: N, options: HexOptions) {
        if options.has_ascii_pad() {
            self.pieces(&Hexadecimal { number, options });
        } else {
            self.put_nothing();
        }
    }

    fn hexadecimal<N: uDisplayHex + Drop>(&mut self, number: N) {
        self.padded(number, lower_case(false, b' ', 0));
    }

    fn payload(&mut self, payload: &str, options: HexOptions) {
        if options.has_ascii_pad() {
            self.pieces(&Payload { payload, options });
        } else {
            self.put_nothing();
        }
    }

    fn past_a_buffer(&mut self, options: HexOptions) {
        if !options.has_ascii_pad() {
            return self.put_nothing();
        }
        let (mut buffer, number) = ([0; 8], 33i32);
        let number = Hexadecimal { number, options };
        let ((outcome, ..), cursor) = print_to(false, &number, Cursor::new(&mut buffer));
        self.put_written(outcome, cursor.remaining(), cursor.written());
    }
}

#[test]
fn numbers_that_are_held_print_in_hexadecimal(rt: HostRuntime) {
    let mut table = Table::new(rt.alloc());
    let mut number = 255u8;
    put_rows!(table;
        hexadecimal(&mut number) => "ff|";
        hexadecimal(Wrapping(-1i8)) => "ff|";
        hexadecimal(Saturating(16u64)) => "10|";
        hexadecimal(NonZeroU8::MIN) => "1|";
        hexadecimal(NonZeroI16::MIN) => "8000|";
    );
    has_wanted_rows(&rt, &table);
}

#[test]
fn numbers_and_payloads_are_padded(rt: HostRuntime) {
    let mut table = Table::new(rt.alloc());
    put_rows!(table;
        padded(33i32, lower_case(false, b' ', 4)) => " | |21|";
        padded(33i32, lower_case(false, b'0', 4)) => "0|0|21|";
        padded(33i32, lower_case(true, b'0', 9)) => "0x|0|0|0|0|0|21|";
        padded(33i32, lower_case(true, b' ', 6)) => " | |0x|21|";
        padded(33i32, upper_case(true, b'0', 0)) => "0X|21|";
        padded(&171u8, upper_case(false, b'0', 4)) => "0|0|AB|";
        padded(33u8, lower_case(false, b'0', 40)) => "0|0|0|0|0|0|0|0|0|0|0|0|0|0|0|0|0|0|0|0|0|0|0|0|0|0|0|0|0|0|0|0|0|0|0|0|0|0|21|";
        padded(33u8, lower_case(true, b' ', 40)) => " | | | | | | | | | | | | | | | | | | | | | | | | | | | | | | | | | | | |0x|21|";
        payload("é", lower_case(false, b'0', 4)) => "0|0|é|";
        payload("é", lower_case(true, b'-', 6)) => "0x|-|-|é|";
        payload("", lower_case(true, b' ', 4)) => " | |0x||";
        payload("", lower_case(true, b'0', 4)) => "0x|0|0||";
        payload("", lower_case(false, b'0', 2)) => "0|0||";
    );
    for (pad, is_ascii) in [(127, true), (128, false)] {
        let has_ascii_pad = lower_case(false, pad, 0).has_ascii_pad();
        same(&rt, (pad, has_ascii_pad), (pad, is_ascii), "a pad byte");
    }
    // No slice is so long.
    put_rows!(table;
        past_a_buffer(lower_case(false, b'0', usize::MAX)) => "Err(Full) 00000000";
        past_a_buffer(lower_case(true, b'0', usize::MAX)) => "Err(Full) 0x000000";
        past_a_buffer(lower_case(true, b' ', usize::MAX)) => "Err(Full)         ";
        past_a_buffer(lower_case(false, b'0', 9_223_372_036_854_775_808)) => "Err(Full) 00000000";
    );
    has_wanted_rows(&rt, &table);
}
