//! A packet dumped into a buffer of a fixed size.
ghost use Rattle.ufmt.specs.Buffer.{Fronts};
ghost use Rattle.ufmt.specs.Dump.{dump_text};

use ufmt::{Full, HexDump, hex_dump_into};

const EIGHT_A_ROW: HexDump = HexDump {
    per_row: 8,
    ..HexDump::XXD
};

/// Writes a dump of the packet, with eight bytes a row, and returns its length. If it doesn't fit, the
/// error is `Full`, and the buffer begins with a prefix of it.
pub fn show_packet(buffer: &mut [u8], packet: &[u8]) -> Result<usize, Full>
    ensures { Fronts buffer.old (dump_text EIGHT_A_ROW packet.now) result buffer.new }
{
    hex_dump_into(buffer, packet, &EIGHT_A_ROW)
}
