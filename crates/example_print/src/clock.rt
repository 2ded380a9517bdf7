//! Numbers as firmware prints them: a time of day, a temperature in tenths, and flags.
ghost use Rattle.ufmt.specs.Buffer.{Fronts};
ghost use Rattle.example_print.specs.Clock.{status_text, time_text};

use ufmt::{Decimal, Full, HexOptions, line_into, pieces};

/// A time of day.
#[derive(Drop)]
pub struct Time {
    pub hours: u8,
    pub minutes: u8,
    pub seconds: u8,
    pub milliseconds: u16,
}

/// Writes the time, as `12:07:05.042`, and returns its length. If it doesn't fit, the error is `Full`,
/// and the buffer begins with a prefix of it.
pub fn write_time(buffer: &mut [u8], time: &Time) -> Result<usize, Full>
    ensures { Fronts buffer.old (time_text time.now) result buffer.new }
{
    line_into(
        buffer,
        &pieces!(
            zeros (time.hours) to 2, text ":", zeros (time.minutes) to 2, text ":",
            zeros (time.seconds) to 2, text ".", zeros (time.milliseconds) to 3
        ),
    )
}

const FLAGS: HexOptions = HexOptions {
    upper_case: false,
    pad_char: b'0',
    pad_length: 10,
    ox_prefix: true,
};

/// Writes a temperature that was measured in tenths of a degree, and flags: `-12.5 0b00100101`. It returns
/// the length. If it doesn't fit, the error is `Full`, and the buffer begins with a prefix of it.
pub fn write_status(buffer: &mut [u8], tenths: i64, flags: u8) -> Result<usize, Full>
    ensures { Fronts buffer.old (status_text tenths flags) result buffer.new }
{
    let celsius = Decimal {
        value: tenths,
        places: 1,
    };
    line_into(
        buffer,
        &pieces!(display celsius, text " ", bin flags with FLAGS),
    )
}
