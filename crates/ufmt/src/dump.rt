//! Hexadecimal dumps of bytes.
ghost use Rattle.std.specs.Prelude.{◌≡◌, ◌+◌, ◌-◌, ◌*◌, ◌/◌, ◌^◌, ◌<◌, ◌≤◌, ◌==◌, ◌++◌, ◌∷◌, if◌then◌else◌, length, map, replicate, take, is_ok};
ghost use Rattle.std.specs.List.{flat_map};
ghost use Rattle.ufmt_core.specs.Bytes.{space};
ghost use Rattle.ufmt_core.specs.Writes.{Writes};
ghost use Rattle.ufmt_core.specs.Buffer.{Fronts};
ghost use Rattle.ufmt.specs.Dump.{byte_digits, bytes_per_group, bytes_per_row, digits_column, digits_width, dump_text, offset_column, offset_text, row_text, shown_byte, text_column};

use crate::pad::pad;
use crate::radix::digits::{byte_pair, digits_text};
use ufmt_core::cursor::{Cursor, Full};
use ufmt_core::internal::text_from;
use ufmt_core::{Formatter, uWrite};

/// What a dump of bytes looks like: rows, each with its offset, its bytes' digits and its bytes as text.
#[derive(Clone, Copy)]
pub struct HexDump {
    /// How many bytes a row has. 0 means 16, as for `xxd -c0`.
    pub per_row: usize,
    /// How many bytes have no space between them. 0 means a whole row, as for `xxd -g0`.
    pub group: usize,
    /// The offset of the first byte, or `None` for rows without one. An offset has eight digits, and
    /// more where it needs them.
    pub offset: Option<u32>,
    /// Whether a row ends with its bytes as text, where a byte that isn't printable ASCII is a dot.
    pub ascii: bool,
}

// A row of so many bytes is made in a buffer: up to 16 digits of its offset and `: `, three columns a
// byte for digits and spaces, two spaces, the text, and the line feed.
const SHORT_ROW: usize = 32;

// A byte's digits, and a space before them.
const DIGITS_ROOM: usize = 3 * SHORT_ROW;

const ROOM: usize = 18 + 4 * SHORT_ROW + 3;

impl HexDump {
    /// What `xxd -g1` prints: 16 bytes a row, a space between bytes, offsets from 0, and the text.
    pub const XXD: HexDump = HexDump {
        per_row: 16,
        group: 1,
        offset: Some(0),
        ascii: true,
    };

    fn bytes_per_row(&self) -> usize
        ensures value { result ≡ bytes_per_row self.now }
        ensures some { 0 < result }
    {
        if self.per_row == 0 { 16 } else { self.per_row }
    }

    fn bytes_per_group(&self) -> usize
        ensures value { result ≡ bytes_per_group self.now }
        ensures some { 0 < result }
    {
        if self.group == 0 {
            self.bytes_per_row()
        } else {
            self.group
        }
    }

    // A row is one piece, unless it is longer than most are.
    fn write_row<W: uWrite>(
        &self,
        writer: &mut W,
        before: usize,
        row: &[u8],
    ) -> Result<(), W::Error>
        requires no_overflow { before < 2 ^ 63 }
        requires some { 0 < length row.now }
        requires within { length row.now ≤ bytes_per_row self.now }
        ensures { Writes W.seen writer.old (row_text self.now before row.now) (is_ok result)
            writer.new }
    {
        if self.bytes_per_row() > SHORT_ROW {
            return self.write_columns(writer, before, row);
        }
        let mut buffer = [0; ROOM];
        match self.short_row_into(&mut buffer, before, row) {
            Ok(length) => writer.write_str(text_from(&buffer[..length], 0)),
            Err(Full) => self.write_columns(writer, before, row),
        }
    }

    // Makes a short row at the front of the buffer.
    fn short_row_into(&self, buffer: &mut [u8], before: usize, row: &[u8]) -> Result<usize, Full>
        requires no_overflow { before < 2 ^ 63 }
        requires some { 0 < length row.now }
        requires within { length row.now ≤ bytes_per_row self.now }
        requires short { bytes_per_row self.now ≤ 32 }
        ensures { Fronts buffer.old (row_text self.now before row.now) result buffer.new }
    {
        let mut cursor = Cursor::new(buffer);
        self.write_short_row(&mut cursor, before, row)?;
        Ok(cursor.written().len())
    }

    // The same as `write_columns`, but all digits are one piece.
    #[inline(always)]
    fn write_short_row<W: uWrite>(
        &self,
        writer: &mut W,
        before: usize,
        row: &[u8],
    ) -> Result<(), W::Error>
        requires no_overflow { before < 2 ^ 63 }
        requires some { 0 < length row.now }
        requires within { length row.now ≤ bytes_per_row self.now }
        requires short { bytes_per_row self.now ≤ 32 }
        ensures { Writes W.seen writer.old (row_text self.now before row.now) (is_ok result)
            writer.new }
    {
        self.write_offset(writer, before)?;
        let mut buffer = [0; DIGITS_ROOM];
        writer.write_str(short_digits(row, self.bytes_per_group(), &mut buffer))?;
        self.write_text(writer, row)?;
        writer.write_str("\n")
    }

    fn write_columns<W: uWrite>(
        &self,
        writer: &mut W,
        before: usize,
        row: &[u8],
    ) -> Result<(), W::Error>
        requires no_overflow { before < 2 ^ 63 }
        requires some { 0 < length row.now }
        requires within { length row.now ≤ bytes_per_row self.now }
        ensures { Writes W.seen writer.old (row_text self.now before row.now) (is_ok result)
            writer.new }
    {
        self.write_offset(writer, before)?;
        self.write_digits(writer, row)?;
        self.write_text(writer, row)?;
        writer.write_str("\n")
    }

    fn write_offset<W: uWrite>(&self, writer: &mut W, before: usize) -> Result<(), W::Error>
        requires { before < 2 ^ 63 }
        ensures { Writes W.seen writer.old (offset_column self.now.offset before) (is_ok result)
            writer.new }
    {
        match self.offset {
            None => Ok(()),
            Some(first) => {
                write_padded(writer, u64::from(first) + before as u64)?;
                writer.write_str(": ")
            }
        }
    }

    fn write_digits<W: uWrite>(&self, writer: &mut W, row: &[u8]) -> Result<(), W::Error>
        ensures { Writes W.seen writer.old (digits_column (bytes_per_group self.now) row.now)
            (is_ok result) writer.new }
    {
        let group = self.bytes_per_group();
        let mut left = group;
        for byte in row {
            write_byte(writer, *byte, left == 0)?;
            left = next_left(group, left);
        }
        Ok(())
    }

    fn write_text<W: uWrite>(&self, writer: &mut W, row: &[u8]) -> Result<(), W::Error>
        requires some { 0 < length row.now }
        requires within { length row.now ≤ bytes_per_row self.now }
        ensures { Writes W.seen writer.old (text_column self.now row.now) (is_ok result) writer.new }
    {
        if !self.ascii {
            return Ok(());
        }
        self.write_missing(writer, row.len())?;
        writer.write_str("  ")?;
        write_shown(writer, row)
    }

    // Writes spaces in place of the digits that a full row has more than one of this length.
    fn write_missing<W: uWrite>(&self, writer: &mut W, length: usize) -> Result<(), W::Error>
        requires some { 0 < length }
        requires within { length ≤ bytes_per_row self.now }
        ensures { Writes W.seen writer.old
            (replicate
            (digits_width (bytes_per_group self.now) (bytes_per_row self.now)
            - digits_width (bytes_per_group self.now) length) space) (is_ok result) writer.new }
    {
        let per_row = self.bytes_per_row();
        let group = self.bytes_per_group();
        let missing = per_row - length;
        // Twice the number may be more than a `usize` holds.
        write_spaces(writer, missing)?;
        write_spaces(writer, missing)?;
        write_spaces(writer, (per_row - 1) / group - (length - 1) / group)
    }
}

// Promise (buffers): The rows of a dump have every byte once and in order. The texts beside them begin in one
// column, if offsets are below 2^32. Also: `laws::dump_rows_have_each_byte`.
/// Prints a dump of the bytes to the writer. On `Err` a prefix of it was written.
pub fn write_hex_dump<W: uWrite>(
    writer: &mut W,
    bytes: &[u8],
    dump: &HexDump,
) -> Result<(), W::Error>
    ensures { Writes W.seen writer.old (dump_text dump.now bytes.now) (is_ok result) writer.new }
{
    let mut before = 0;
    for row in bytes.chunks(dump.bytes_per_row()) {
        dump.write_row(writer, before, row)?;
        before += row.len();
    }
    Ok(())
}

/// Prints a dump of the bytes to the front of the buffer, and returns its length. On `Full` a prefix
/// of it was printed there. The other bytes stay as they were.
pub fn hex_dump_into(buffer: &mut [u8], bytes: &[u8], dump: &HexDump) -> Result<usize, Full>
    ensures { Fronts buffer.old (dump_text dump.now bytes.now) result buffer.new }
{
    let mut cursor = Cursor::new(buffer);
    write_hex_dump(&mut cursor, bytes, dump)?;
    Ok(cursor.written().len())
}

// The offset in hexadecimal digits, with zeros before fewer than eight.
fn write_padded<W: uWrite>(writer: &mut W, offset: u64) -> Result<(), W::Error>
    ensures { Writes W.seen writer.old (offset_text offset) (is_ok result) writer.new }
{
    let mut buffer = [0; 16];
    let digits = digits_text::<u64, 16>(offset, false, &mut buffer);
    if digits.len() >= 8 {
        return writer.write_str(digits);
    }
    writer.write_str(text_from(b"00000000", digits.len()))?;
    writer.write_str(digits)
}

// The digits of a short row, with a space between groups, made in the buffer. Each group has a space before it
// there, and the text begins after the first.
#[inline(always)]
fn short_digits<'a>(row: &[u8], group: usize, buffer: &'a mut [u8; DIGITS_ROOM]) -> &'a str
    requires some_group { 0 < group }
    requires some { 0 < length row.now }
    requires short { length row.now ≤ 32 }
    ensures { result.now ≡ digits_column group row.now }
{
    let mut end = 0;
    for bytes in row.chunks(group) {
        buffer[end] = b' ';
        end = put_digits(bytes, buffer, end + 1);
    }
    text_from(&buffer[..end], 1)
}

// Puts the digits of these bytes into the buffer, from `start` on, and returns the index after them.
#[inline(always)]
fn put_digits(bytes: &[u8], buffer: &mut [u8], start: usize) -> usize
    requires room { start + 2 * length bytes.now ≤ length buffer.old }
    ensures end { result ≡ start + 2 * length bytes.now }
    ensures same_length { length buffer.new ≡ length buffer.old }
    ensures written { take result buffer.new
        ≡ take start buffer.old ++ flat_map byte_digits bytes.now }
{
    let mut end = start;
    for byte in bytes {
        let (high, low) = byte_pair(*byte);
        buffer[end] = high;
        buffer[end + 1] = low;
        end += 2;
    }
    end
}

// A byte's two digits, and a space before them if they begin another group.
#[inline(always)]
fn write_byte<W: uWrite>(writer: &mut W, byte: u8, begins_group: bool) -> Result<(), W::Error>
    ensures { Writes W.seen writer.old
        (if begins_group then space ∷ byte_digits byte else byte_digits byte) (is_ok result)
        writer.new }
{
    let (high, low) = byte_pair(byte);
    if begins_group {
        return writer.write_str(text_from(&[b' ', high, low], 0));
    }
    writer.write_str(text_from(&[high, low], 0))
}

// How many bytes a group takes after one more byte, where it took this many before it. With none left
// the byte begins another group.
#[inline(always)]
fn next_left(group: usize, left: usize) -> usize
    requires { 0 < group }
    ensures { result ≡ (if left == 0 then group else left) - 1 }
{
    if left == 0 { group - 1 } else { left - 1 }
}

// The bytes as text, in pieces of at most 64.
fn write_shown<W: uWrite>(writer: &mut W, row: &[u8]) -> Result<(), W::Error>
    ensures { Writes W.seen writer.old (map shown_byte row.now) (is_ok result) writer.new }
{
    let mut buffer = [0; 64];
    for part in row.chunks(64) {
        writer.write_str(shown_text(part, &mut buffer))?;
    }
    Ok(())
}

// The bytes as text, made at the front of the buffer.
fn shown_text<'a>(bytes: &[u8], buffer: &'a mut [u8; 64]) -> &'a str
    requires { length bytes.now ≤ 64 }
    ensures { result.now ≡ map shown_byte bytes.now }
{
    for (place, byte) in bytes.iter().enumerate() {
        buffer[place] = shown(*byte);
    }
    text_from(&buffer[..bytes.len()], 0)
}

#[inline(always)]
fn shown(byte: u8) -> u8
    ensures { result ≡ shown_byte byte }
{
    match byte {
        b' '..=b'~' => byte,
        _ => b'.',
    }
}

fn write_spaces<W: uWrite>(writer: &mut W, count: usize) -> Result<(), W::Error>
    ensures { Writes W.seen writer.old (replicate count space) (is_ok result) writer.new }
{
    let mut f = Formatter::new(writer);
    pad::<&mut W, b' '>(&mut f, &[b' '; 64], count)
}
