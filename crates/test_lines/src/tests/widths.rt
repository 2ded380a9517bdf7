//! Tests of widths that no buffer holds: a call ends where its buffer does.
use super::asserts::{has_wanted_rows, same};
use std::num::{
    NonZeroI8, NonZeroI16, NonZeroI32, NonZeroI64, NonZeroI128, NonZeroIsize, NonZeroU8,
    NonZeroU16, NonZeroU32, NonZeroU64, NonZeroU128, NonZeroUsize, Saturating, Wrapping,
};
use test_rows::printed::{PREFIXED, column, decimal, in_column};
use test_rows::put_rows;
use test_rows::rows::Table;
use ufmt::pieces::Display;
use ufmt::{
    Align, HexDump, Line, hex_dump_into, line_cut_into, line_into, pieces, uDisplayHex,
    uDisplayRadix, uDisplayZeros,
};

const DUMP: HexDump = HexDump {
    per_row: 0,
    group: 0,
    offset: None,
    ascii: true,
};

trait FullRows {
    // Adds a row of a line in a buffer of 12 bytes, and of as much of it as fits.
    fn put_full_line<L: Line>(&mut self, line: &L);

    fn put_dump(&mut self, dump: &HexDump);
}

impl FullRows for Table {
    fn put_full_line<L: Line>(&mut self, line: &L) {
        let (mut bytes, mut cut_bytes) = ([b'~'; 12], [b'~'; 12]);
        self.put_outcome(line_into(&mut bytes, line), &bytes);
        let cut = line_cut_into(&mut cut_bytes, line);
        if bytes != cut_bytes || cut.length != 12 || cut.is_whole {
            self.put_outcome(Ok(cut.length), &cut_bytes);
        }
    }

    fn put_dump(&mut self, dump: &HexDump) {
        let mut bytes = [b'~'; 12];
        let outcome = hex_dump_into(&mut bytes, b"ab", dump);
        self.put_outcome(outcome, &bytes);
    }
}

macro_rules! put_lines {
    ($table:ident; $(($($line:tt)*) => $wanted:tt)*) => {
        $($table.put_full_line(&pieces!($($line)*));
        $table.wants($wanted);)*
    };
}

// Lines with a text that is padded to this width.
fn put_padded(table: &mut Table, width: usize) {
    let (mut zeros, mut spaces) = (PREFIXED, PREFIXED);
    zeros.pad_length = width;
    spaces.pad_char = b' ';
    spaces.ox_prefix = false;
    spaces.pad_length = width;
    let (price, small) = (decimal(-125, 1), decimal(-125, 255));
    put_lines!(table;
        (hex 7u8 with zeros) => "Err(Full) 0x0000000000"
        (hex 7u8 with spaces) => "Err(Full)             "
        (bin 5i64 with zeros) => "Err(Full) 0b0000000000"
        (oct 8u128 with spaces) => "Err(Full)             "
        (zeros (-7i8) to width) => "Err(Full) -00000000000"
        (zeros price to width) => "Err(Full) -00000000000"
        (zeros small to width) => "Err(Full) -00000000000"
        (each zeros [1u8, 2] to width between ",") => "Err(Full) 000000000000"
    );
}

// What is wanted of the lines with a number in a column that has no fills before it.
const VALUES: [&str; 4] = [
    "Err(Full) 0x0000000000",
    "Err(Full)             ",
    "Err(Full) -00000000000",
    "Err(Full) 0x0000000000",
];

const FILLS: &str = "Err(Full) ************";

const TEXT_AND_FILLS: &str = "Err(Full) x***********";

// What is wanted of the four numbers in a column of this width, and of `x` in a column of the width `padded` in it. A column that is wider
// than its text has fills: after the text if it is aligned left, and otherwise before it.
fn wanted_within(width: usize, align: Align, padded: usize) -> ([&'static str; 4], &'static str) {
    match align {
        Align::Left => (VALUES, TEXT_AND_FILLS),
        Align::Center | Align::Right if width > padded => ([FILLS; 4], FILLS),
        Align::Center | Align::Right => (VALUES, FILLS),
    }
}

// Lines with a column of this width, around each of four numbers that are padded to the width `padded`, and around `x` in a column of
// that width.
fn put_in_a_column(table: &mut Table, padded: usize, align: Align, width: usize) {
    let (wanted, nested) = wanted_within(width, align, padded);
    let (mut zeros, mut spaces) = (PREFIXED, PREFIXED);
    zeros.pad_length = padded;
    spaces.pad_char = b' ';
    spaces.ox_prefix = false;
    spaces.pad_length = padded;
    let within = column(align, '*', width);
    let narrow = in_column(in_column(Display, column(align, '*', padded)), within);
    put_lines!(table;
        (hex 7u8 with zeros in within) => (wanted[0])
        (bin 5i64 with spaces in within) => (wanted[1])
        (zeros (-7i8) to padded in within) => (wanted[2])
        (each hex [1u8, 2] with zeros in within between ",") => (wanted[3])
        (each ["x"] by narrow between "") => nested
    );
}

const WIDTHS: [usize; 2] = [1 << 63, usize::MAX];

#[test]
fn a_width_that_no_buffer_holds_fails_with_full(rt: HostRuntime) {
    for padded in WIDTHS {
        let mut table = Table::new(rt.alloc());
        put_padded(&mut table, padded);
        for width in [3, 1 << 63, usize::MAX] {
            for align in [Align::Left, Align::Center, Align::Right] {
                put_in_a_column(&mut table, padded, align, width);
            }
        }
        has_wanted_rows(&rt, &table);
    }
}

// Whether a column counts this number without its padding, in each of the three ways to pad it.
fn pads<N: uDisplayHex + uDisplayRadix + uDisplayZeros>(number: &N) -> [bool; 3] {
    [number.pads_hex(), number.pads_radix(), number.pads_zeros()]
}

macro_rules! all_pad {
    ($($number:expr),*) => { [$(pads(&$number)),*] };
}

macro_rules! all_nonzero_pad {
    ($($nonzero:ident)*) => { [$(pads(&$nonzero::MIN)),*] };
}

#[test]
fn every_number_is_counted_without_its_padding(rt: HostRuntime) {
    let unsigned = all_pad!(1u8, 1u16, 1u32, 1u64, 1u128, 1usize);
    same(&rt, unsigned, [[true; 3]; 6], "unsigned");
    let signed = all_pad!(1i8, 1i16, 1i32, 1i64, 1i128, 1isize);
    same(&rt, signed, [[true; 3]; 6], "signed");
    let held = all_pad!(&1u8, &mut 1u8, Wrapping(1i16), Saturating(1u32));
    same(&rt, held, [[true; 3]; 4], "integers that are held");
    let unsigned =
        all_nonzero_pad!(NonZeroU8 NonZeroU16 NonZeroU32 NonZeroU64 NonZeroU128 NonZeroUsize);
    same(&rt, unsigned, [[true; 3]; 6], "nonzero, unsigned");
    let signed =
        all_nonzero_pad!(NonZeroI8 NonZeroI16 NonZeroI32 NonZeroI64 NonZeroI128 NonZeroIsize);
    same(&rt, signed, [[true; 3]; 6], "nonzero, signed");
    same(&rt, decimal(-125, 1).pads_zeros(), true, "a decimal");
}

#[test]
fn a_dump_of_rows_that_no_buffer_holds_fails_with_full(rt: HostRuntime) {
    for width in WIDTHS {
        let mut table = Table::new(rt.alloc());
        put_rows!(table;
            put_dump(&HexDump { per_row: width,..DUMP }) => "Err(Full) 6162~~~~~~~~";
            put_dump(&HexDump { per_row: width, group: 1,..DUMP }) => "Err(Full) 61 62~~~~~~~";
            put_dump(&HexDump { per_row: width, group: width,..DUMP }) => "Err(Full) 6162~~~~~~~~";
            put_dump(&HexDump { group: width,..DUMP }) => "Err(Full) ~~~~~~~~~~~~";
            put_dump(&HexDump { per_row: width, ascii: false,..DUMP }) => "Ok(5) 6162\n~~~~~~~";
        );
        has_wanted_rows(&rt, &table);
    }
}
