//! A line of a log that `uwriteln!` writes piece by piece.
ghost use Rattle.std.specs.Prelude.{is_ok};
ghost use Rattle.ufmt.specs.Buffer.{Fronts};
ghost use Rattle.ufmt.specs.Formatter.{Prints, setting_of};
ghost use Rattle.ufmt.specs.Pieces.{pieces_text};
ghost use Rattle.ufmt.specs.Writes.{Writes};
ghost use Rattle.example_print.specs.ValveLog.{valve_line, valve_pieces};

use ufmt::{Cursor, Formatter, Full, uWrite, uwriteln};

/// Writes the state of a valve, such as `valve 7 open=true`, and a line feed. An error leaves a prefix of the line.
pub fn print_valve<W: uWrite>(f: &mut Formatter<W>, id: u16, is_open: bool) -> Result<(), W::Error>
    ensures { Prints W.seen f.old (pieces_text (setting_of f.old) (valve_pieces id is_open))
        (is_ok result) f.new }
{
    uwriteln!(f, text "valve ", display id, text " open=", display is_open)
}

/// Writes the same line to a writer.
#[tactic(auto, unfolding(ufmt::specs::Pieces::line_text))]
pub fn write_valve<W: uWrite>(writer: &mut W, id: u16, is_open: bool) -> Result<(), W::Error>
    ensures { Writes W.seen writer.old (valve_line id is_open) (is_ok result) writer.new }
{
    let mut f = Formatter::new(writer);
    print_valve(&mut f, id, is_open)
}

/// Writes the same line to the front of a buffer, and returns its length. If it doesn't fit, the error is
/// `Full`, and the buffer begins with a prefix of it.
pub fn log_valve(buffer: &mut [u8], id: u16, is_open: bool) -> Result<usize, Full>
    ensures { Fronts buffer.old (valve_line id is_open) result buffer.new }
{
    let mut cursor = Cursor::new(buffer);
    write_valve(&mut cursor, id, is_open)?;
    Ok(cursor.written().len())
}
