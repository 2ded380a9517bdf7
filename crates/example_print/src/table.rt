//! A row of a table: a name, a number and a register, each in a column.
ghost use Rattle.ufmt.specs.Buffer.{Fronts};
ghost use Rattle.example_print.specs.Table.{row};

use ufmt::{Align, Column, Full, HexOptions, line_into, pieces};

/// What a counter has counted, and its register.
#[derive(Drop)]
pub struct Counter {
    pub name: String,
    pub count: u32,
    pub register: u16,
}

const NAME_COLUMN: Column = Column {
    width: 10,
    align: Align::Left,
    fill: ' ',
};

const COUNT_COLUMN: Column = Column {
    width: 8,
    align: Align::Right,
    fill: '.',
};

const REGISTER_COLUMN: Column = Column {
    width: 10,
    align: Align::Center,
    fill: ' ',
};

const ADDRESS: HexOptions = HexOptions {
    upper_case: false,
    pad_char: b'0',
    pad_length: 6,
    ox_prefix: true,
};

/// Writes a counter's row, as `pump      ....1203|  0x00ff  |`, and returns its length. A name or a
/// number that is longer than its column is written whole. If the row doesn't fit, the error is `Full`,
/// and the buffer begins with a prefix of it.
pub fn write_row(buffer: &mut [u8], counter: &Counter) -> Result<usize, Full>
    ensures { Fronts buffer.old (row counter.now) result buffer.new }
{
    let Counter {
        name,
        count,
        register,
    } = counter;
    line_into(
        buffer,
        &pieces!(
            display name in NAME_COLUMN, display count in COUNT_COLUMN, text "|",
            hex register with ADDRESS in REGISTER_COLUMN, text "|\n"
        ),
    )
}
