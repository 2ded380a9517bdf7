//! Structs by their number of fields, each parsed by a parser. `ufmt_parse` re-exports the calls.
mod few;
mod many;

pub use few::{
    parse_struct_1, parse_struct_2, parse_struct_3, parse_struct_4, parse_struct_5, parse_struct_6,
};
pub use many::{
    parse_struct_7, parse_struct_8, parse_struct_9, parse_struct_10, parse_struct_11,
    parse_struct_12,
};
