//! Choices and options as C passes them.
ghost use Rattle.std.specs.Prelude.{◌≡◌, ◌≤◌, SomeIff};
ghost use Rattle.ufmt_c.specs.Options.{IsColumnStyle, IsDumpStyle, IsHexStyle, class_of, column_of, dump_of, fill_of, hex_of, mode_of};

use ufmt::class::Class;
use ufmt::layout::Mode;
use ufmt::{Align, Column, HexDump, HexOptions};

// How many bytes each struct has, which its first member says.
const HEX_STYLE_SIZE: usize = 24;

const DUMP_STYLE_SIZE: usize = 32;

const COLUMN_STYLE_SIZE: usize = 24;

/// Returns the class with this number, or `None` if there is none.
pub(crate) fn to_class(code: u32) -> Option<Class>
    ensures { SomeIff result (code ≤ 1) (class_of code) }
{
    match code {
        0 => Some(Class::Token),
        1 => Some(Class::Debug),
        _ => None,
    }
}

/// Returns the mode with this number, or `None` if there is none.
pub(crate) fn to_mode(code: u32) -> Option<Mode>
    ensures { SomeIff result (code ≤ 1) (mode_of code) }
{
    match code {
        0 => Some(Mode::Plain),
        1 => Some(Mode::Pretty),
        _ => None,
    }
}

/// How a hexadecimal text is padded, and its letters and prefix. C knows it as `ufmt_hex_style`.
#[derive(Clone, Copy)]
#[repr(C)]
pub struct HexStyle {
    /// How many bytes the struct has.
    pub struct_size: usize,
    /// The number of bytes to pad to, with the prefix.
    pub width: usize,
    /// The byte to pad with, which must be ASCII. 0 stands for a space.
    pub pad: u8,
    pub upper_case: bool,
    pub prefix: bool,
}

impl HexStyle {
    /// Returns the options, or `None` if the size is another, or the byte to pad with isn't ASCII.
    pub(crate) fn to_options(self) -> Option<HexOptions>
        ensures { SomeIff result (IsHexStyle self) (hex_of self) }
    {
        if self.struct_size != HEX_STYLE_SIZE || self.pad >= 128 {
            return None;
        }
        Some(HexOptions {
            upper_case: self.upper_case,
            pad_char: if self.pad == 0 { b' ' } else { self.pad },
            pad_length: self.width,
            ox_prefix: self.prefix,
        })
    }
}

/// What a dump looks like. C knows it as `ufmt_dump_style`.
#[derive(Clone, Copy)]
#[repr(C)]
pub struct DumpStyle {
    /// How many bytes the struct has.
    pub struct_size: usize,
    /// How many bytes a row has. 0 means 16.
    pub per_row: usize,
    /// How many bytes have no space between them. 0 means a whole row.
    pub group: usize,
    /// The offset of the first byte, if the rows have offsets.
    pub first: u32,
    pub has_offsets: bool,
    /// Whether a row ends with its bytes as text.
    pub has_text: bool,
}

impl DumpStyle {
    /// Returns the dump, or `None` if the size is another.
    pub(crate) fn to_dump(self) -> Option<HexDump>
        ensures { SomeIff result (IsDumpStyle self) (dump_of self) }
    {
        if self.struct_size != DUMP_STYLE_SIZE {
            return None;
        }
        Some(HexDump {
            per_row: self.per_row,
            group: self.group,
            offset: if self.has_offsets {
                Some(self.first)
            } else {
                None
            },
            ascii: self.has_text,
        })
    }
}

/// The width of a column, and what fills it. C knows it as `ufmt_column_style`.
#[derive(Clone, Copy)]
#[repr(C)]
pub struct ColumnStyle {
    /// How many bytes the struct has.
    pub struct_size: usize,
    pub width: usize,
    /// The code of the character that fills what a text leaves of the width. 0 stands for a space.
    pub fill: u32,
    /// 0 to begin with the text, 1 to center it, 2 to end with it.
    pub align: u8,
}

impl ColumnStyle {
    /// Returns the column, or `None` if the size is another, the fill is no character, or there is no such
    /// alignment.
    pub(crate) fn to_column(self) -> Option<Column>
        ensures { SomeIff result (IsColumnStyle self) (column_of self) }
    {
        if self.struct_size != COLUMN_STYLE_SIZE {
            return None;
        }
        let align = match self.align {
            0 => Align::Left,
            1 => Align::Center,
            2 => Align::Right,
            _ => return None,
        };
        let fill = char::from_u32(self.fill)?;
        Some(Column {
            width: self.width,
            align,
            fill: if fill == '\0' { ' ' } else { fill },
        })
    }
}
