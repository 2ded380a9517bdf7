#![tactic(auto, using(ufmt_core::specs::Formatter::lays_out))]

//! Formatting without `core::fmt`. This is the only crate that a user needs: it re-exports `ufmt_core`.

mod column;
mod cut;
mod decimal;
mod device;
mod display;
mod dump;
mod fields;
mod fixed;
pub mod ghost_text;
mod hex;
mod internal;
pub mod laws;
mod number;
mod pad;
pub mod pieces;
mod print;
mod radix;
mod truncating;
mod uwrite;
mod zeros;

pub use column::{Align, Column};
pub use cut::{Cut, debug_cut_into, display_cut_into, line_cut_into, pretty_cut_into};
pub use decimal::Decimal;
pub use device::Device;
pub use display::uDisplay;
pub use dump::{HexDump, hex_dump_into, write_hex_dump};
pub use fixed::{Fixed, uDisplayFixed};
pub use hex::{HexOptions, uDisplayHex};
pub use pieces::Line;
pub use print::{
    debug_into, display_into, fmt_pretty, line_into, plain_text, pretty_into, pretty_text,
    write_debug, write_display, write_line, write_pretty,
};
pub use radix::{Radix, uDisplayRadix};
pub use truncating::Truncating;
pub use ufmt_core::{
    Cursor, DebugList, DebugMap, DebugSet, DebugStruct, DebugTuple, Formatter, Full, NamedFields,
    UnnamedFields, cells, cursor, layout, uDebug, uWrite,
};
pub use ufmt_grammar::class;
pub use zeros::uDisplayZeros;
