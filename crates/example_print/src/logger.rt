//! Lines in a buffer of a fixed size: one of a log, measurements in a row, and the bytes of a packet.
ghost use Rattle.ufmt.specs.Buffer.{Fronts};
ghost use Rattle.example_print.specs.Logger.{line, measurement_document};
ghost use Rattle.example_print.specs.Logger.{dump_text, measurement_pieces, measurements_text};

use ufmt::pieces::Mark;
use ufmt::{Formatter, Full, HexOptions, Line, fields, line_into, pieces, uDebug, uWrite};

/// What a sensor measured.
#[derive(Drop)]
pub struct Measurement {
    pub channel: u8,
    pub celsius: i32,
}

impl uDebug for Measurement {
    ghost document = { measurement_document };

    fn fmt<W: uWrite>(&self, f: &mut Formatter<W>) -> Result<(), W::Error> {
        fields!(f, self, Measurement { channel, celsius })
    }
}

const REGISTER: HexOptions = HexOptions {
    upper_case: false,
    pad_char: b'0',
    pad_length: 10,
    ox_prefix: true,
};

/// Writes one line of a log, and returns its length. If it doesn't fit, the error is `Full`, and the
/// buffer begins with a prefix of it.
pub fn log(buffer: &mut [u8], measurement: &Measurement, control: u32) -> Result<usize, Full>
    ensures { Fronts buffer.old (line measurement.now control) result buffer.new }
{
    line_into(
        buffer,
        &pieces!(debug measurement, text " control ", hex control with REGISTER, text "\n"),
    )
}

/// Writes a measurement as its channel, an equals sign and the degrees.
#[derive(Drop)]
pub struct ByChannel;

impl Mark<Measurement> for ByChannel {
    ghost pieces = { λ _ r. measurement_pieces r };

    fn print_value<W: uWrite>(
        &self,
        r: &Measurement,
        f: &mut Formatter<W>,
    ) -> Result<(), W::Error> {
        pieces!(debug r.channel, text "=", debug r.celsius).print(f)
    }
}

/// Writes the measurements with commas between them, as `measured: 3=-4, 5=20`, and returns the length.
/// If they don't fit, the error is `Full`, and the buffer begins with a prefix of them.
pub fn list_measurements(buffer: &mut [u8], measurements: &[Measurement]) -> Result<usize, Full>
    ensures { Fronts buffer.old (measurements_text measurements.now) result buffer.new }
{
    line_into(
        buffer,
        &pieces!(text "measured: ", each measurements by ByChannel between ", "),
    )
}

const BYTE: HexOptions = HexOptions {
    upper_case: false,
    pad_char: b'0',
    pad_length: 2,
    ox_prefix: false,
};

/// Writes how many bytes the packet has, and each byte in two hexadecimal digits: `len=4 de ad be ef`.
/// Returns the length. If it doesn't fit, the error is `Full`, and the buffer begins with a prefix of
/// it.
pub fn dump_packet(buffer: &mut [u8], packet: &[u8]) -> Result<usize, Full>
    ensures { Fronts buffer.old (dump_text packet.now) result buffer.new }
{
    line_into(
        buffer,
        &pieces!(text "len=", display packet.len(), text " ", each hex packet with BYTE between " "),
    )
}
