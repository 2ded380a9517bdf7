//! Tests of the pieces of dumps, and of dumps into buffers. Dumps with options are rows of tools/data/rows.
ghost use Rattle.std.specs.Prelude.{[], ⊤};

use super::asserts::has_wanted_rows;
use example_print::show_packet;
use test_rows::printed::Printed;
use test_rows::rows::Table;
use test_rows::{put_filled, put_rows, rows_of};
use ufmt::{Formatter, HexDump, hex_dump_into, laws, uWrite, write_hex_dump};

/// Bytes with a dump of them. Its pieces don't depend on the mode.
#[derive(Drop)]
struct Dumped<'a> {
    bytes: &'a [u8],
    dump: HexDump,
}

/// Passes pieces to a formatter.
#[derive(Drop)]
struct Passed<'f, W> {
    f: &'f mut Formatter<W>,
}

impl<W: uWrite> uWrite for Passed<'_, W> {
    type Error = W::Error;

    ghost seen = { record { known = λ _. ⊥; text = λ _. []; room = λ _. 0; failed = λ _. ⊤; identity = λ _. []; whole_buffer = λ _. [] } };

    fn write_str(&mut self, s: &str) -> Result<(), W::Error> {
        if s.is_empty() {
            return Ok(());
        }
        self.f.write_str(s)
    }
}

impl Printed for Dumped<'_> {
    fn print<W: uWrite>(&self, f: &mut Formatter<W>) -> Result<(), W::Error> {
        write_hex_dump(&mut Passed { f }, self.bytes, &self.dump)
    }
}

const BYTES: [u8; 33] = [
    0xb, 0x30, 0x55, 0x7a, 0x9f, 0xc4, 0xe9, 0xe, 0x33, 0x58, 0x7d, 0xa2, 0xc7, 0xec, 0x11, 0x36,
    0x5b, 0x80, 0xa5, 0xca, 0xef, 0x14, 0x39, 0x5e, 0x83, 0xa8, 0xcd, 0xf2, 0x17, 0x3c, 0x61, 0x86,
    0xab,
];

fn in_rows(per_row: usize, group: usize) -> HexDump {
    HexDump {
        per_row,
        group,
        ..HexDump::XXD
    }
}

// The pieces of a row, with and without offsets and texts, and then the pieces of a long row: zeros, digits, the bytes, the
// spaces in place of 30 bytes, and the text.
#[test]
fn rows_of_dumps_come_in_pieces(rt: HostRuntime) {
    let mut table = Table::new(rt.alloc());
    for (offset, ascii, wanted) in rows_of![
        Some(0), true => "00000000: 0b30 55    .0U\n|";
        Some(16), false => "00000010: 0b30 55\n|";
        None, true => "0b30 55    .0U\n|";
        None, false => "0b30 55\n|";
    ] {
        let dump = HexDump {
            offset,
            ascii,
            ..in_rows(4, 2)
        };
        put_rows!(table; pieces(&Dumped { bytes: &BYTES[..3], dump }) => wanted;);
    }
    laws::dump_rows_have_each_byte();
    let one_row = HexDump {
        offset: Some(0xffff_fffe),
        ascii: false,
        ..in_rows(usize::MAX, 0)
    };
    put_rows!(table;
        pieces(&Dumped { bytes: &BYTES[..3], dump: in_rows(33, 1) }) => "\
0000000|0|: |0b| 30| 55|                              |                              |                              |  |.0U|
|";
        pieces(&Dumped { bytes: &BYTES[..2], dump: one_row }) => "fffffffe|: |0b|30|\n|";
    );
    has_wanted_rows(&rt, &table);
}

// The first rows are `xxd -c8 -g1` of 9 bytes.
#[test]
fn dumps_into_a_buffer_keep_what_fits(rt: HostRuntime) {
    let mut table = Table::new(rt.alloc());
    for ((count, length), wanted) in rows_of![
        (9, 82) => "Ok(81) 00000000: 0b 30 55 7a 9f c4 e9 0e  .0Uz....\n00000008: 33                       3\n~";
        (9, 81) => "Ok(81) 00000000: 0b 30 55 7a 9f c4 e9 0e  .0Uz....\n00000008: 33                       3\n";
        (9, 80) => "Err(Full) 00000000: 0b 30 55 7a 9f c4 e9 0e  .0Uz....\n~~~~~~~~~~~~~~~~~~~~~~~~~~~~~~~~~~~~";
        (9, 43) => "Err(Full) ~~~~~~~~~~~~~~~~~~~~~~~~~~~~~~~~~~~~~~~~~~~";
        (0, 2) => "Ok(0) ~~";
    ] {
        let mut bytes = [b'~'; 82];
        let outcome = show_packet(&mut bytes[..length], &BYTES[..count]);
        table.put_outcome(outcome, &bytes[..length]);
        table.wants(wanted);
    }
    // A row of as many bytes as a `usize` counts has more spaces than any buffer holds.
    for group in [0, 1] {
        let dump = in_rows(usize::MAX, group);
        put_filled!(table; buffer[16] hex_dump_into(buffer, &BYTES[..1], &dump); 16 => "Err(Full) 00000000: 0b~~~~";);
    }
    has_wanted_rows(&rt, &table);
}
