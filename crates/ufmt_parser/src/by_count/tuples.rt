//! Tuples by their number of fields, each parsed by a parser. `ufmt_parse` re-exports the calls.
mod few;
mod many;

pub use few::{
    parse_tuple_1, parse_tuple_2, parse_tuple_3, parse_tuple_4, parse_tuple_5, parse_tuple_6,
};
pub use many::{
    parse_tuple_7, parse_tuple_8, parse_tuple_9, parse_tuple_10, parse_tuple_11, parse_tuple_12,
};
