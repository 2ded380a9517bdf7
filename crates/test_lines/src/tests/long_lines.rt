//! Lines of many pieces, with no proof: a `&str` by `debug` comes first, in the middle and last, and in a line
//! that says what it prints a value of a user's type, with a signed number by value after it.
ghost use Rattle.std.specs.Prelude.{[], ◌∷◌, codes, map};
ghost use Rattle.ufmt.specs.Buffer.{Fronts};
ghost use Rattle.ufmt.specs.Hex.{padded_hexadecimal};
ghost use Rattle.ufmt.specs.Pieces.{column, each, hex, line_text, pretty, shown, text};
ghost use Rattle.ufmt.specs.Radix.{padded_in};
ghost use Rattle.ufmt.specs.declared.radix.Radix.TheVariants.{Binary};
ghost use Rattle.ufmt.specs.ValueDocuments.{integer, number, str};
ghost use Rattle.ufmt.specs.Zeros.{zero_padded};
ghost use Rattle.example_print.specs.Logger.{measurement_document};

use super::asserts::has_wanted_rows;
use example_print::Measurement;
use test_rows::put_filled;
use test_rows::rows::Table;
use ufmt::{Align, Column, Full, HexOptions, line_into, pieces};

const HEX: HexOptions = HexOptions {
    upper_case: false,
    pad_char: b'0',
    pad_length: 6,
    ox_prefix: true,
};

fn line_of_8(buffer: &mut [u8], name: &str, x: u32, y: i64) -> Result<usize, Full> {
    let line = pieces!(
        debug name, text " ", debug x, display y, debug name, hex x with HEX, text ";", debug name
    );
    line_into(buffer, &line)
}

fn line_of_24(buffer: &mut [u8], name: &str, x: u32, y: i64) -> Result<usize, Full> {
    let line = pieces!(
        debug name, text " ", debug x, display y, hex x with HEX, text ";", debug x, debug y, text ",",
        pretty x, display name, text "!", debug name, hex y with HEX, debug x, text "?", display y, text ".",
        debug x, pretty y, text " ", hex x with HEX, display x, debug name
    );
    line_into(buffer, &line)
}

const COLUMN: Column = Column {
    width: 4,
    align: Align::Right,
    fill: '.',
};

// 24 pieces of each kind, and what they print. The signed number is in six of them.
fn line_of_each_kind(
    buffer: &mut [u8],
    m: &Measurement,
    name: &str,
    x: u32,
    y: i64,
    all: &[Measurement],
) -> Result<usize, Full>
    ensures { Fronts buffer.old (line_text (
        shown (measurement_document m.now) ∷ text (codes " at ") ∷ shown (integer y) ∷ text (codes ", ")
        ∷ hex (padded_hexadecimal HEX x) ∷ text (codes ", ") ∷ text (zero_padded 4 y) ∷ text (codes ", ")
        ∷ pretty (measurement_document m.now) ∷ text (codes ", ") ∷ text (padded_in Binary HEX x) ∷ text (codes ", ")
        ∷ column COLUMN (shown (integer y) ∷ []) ∷ text (codes ", ") ∷ shown (str name.entry) ∷ text (codes ", ")
        ∷ each (codes "; ") (map (λ one. shown (measurement_document one) ∷ []) all.now) ∷ text (codes ", ")
        ∷ text name.now ∷ shown (integer y) ∷ pretty (integer y) ∷ shown (number x)
        ∷ shown (measurement_document m.now) ∷ shown (integer y) ∷ []))
        result buffer.new }
{
    line_into(
        buffer,
        &pieces!(
            debug m, text " at ", display y, text ", ", hex x with HEX, text ", ", zeros y to 4, text ", ",
            pretty m, text ", ", bin x with HEX, text ", ", display y in COLUMN, text ", ", debug name, text ", ",
            each debug all between "; ", text ", ", display name, debug y, pretty y, display x, debug m, display y
        ),
    )
}

#[test]
fn lines_of_many_pieces_print_in_order(rt: HostRuntime) {
    let mut table = Table::new(rt.alloc());
    put_filled!(table; buffer[20] line_of_8(buffer, "a", 7, -3); 20 => "Ok(20) \"a\" 7-3\"a\"0x0007;\"a\"";);
    put_filled!(table; buffer[61] line_of_24(buffer, "a", 7, -3);
        61 => "Ok(61) \"a\" 7-30x0007;7-3,7a!\"a\"0xfffffffffffffffd7?-3.7-3 0x00077\"a\"";
    );
    let [last, first, second] = [(3, -4), (1, 0), (2, -7)].map(|(channel, celsius)| Measurement {
        channel,
        celsius,
    });
    let all = [first, second];
    put_filled!(table; buffer[258] line_of_each_kind(buffer, &last, "a", 7, -3, &all);
        258 => "\
Ok(258) Measurement { channel: 3, celsius: -4 } at -3, 0x0007, -003, Measurement {
    channel: 3,
    celsius: -4,
}, 0b0111, ..-3, \"a\", Measurement { channel: 1, celsius: 0 }; Measurement { channel: 2, celsius: -7 }, a-3-37Measurement { channel: 3, celsius: -4 }-3";
    );
    has_wanted_rows(&rt, &table);
}
