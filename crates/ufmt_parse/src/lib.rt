#![tactic(auto)]

//! Parses values from their texts, as the reverse of printing. A parser consumes a text from the front, piece
//! by piece, as a formatter writes it. A user names this crate only.

// The value of an `Ok`. An `Err` is returned at once, as by `?`, but without the call that converts the error, of which the
// check knows too little. Each crate has its own: to a proof the places in another crate's macro have no names.
macro_rules! tri {
    ($outcome:expr) => {
        match $outcome {
            Err(fault) => return Err(fault),
            Ok(value) => value,
        }
    };
}

mod by;
mod core_impls;
mod decimal;
mod detailed;
mod error;
mod expected;
mod found;
mod internal;
mod keys;
pub mod laws;
mod macros;
mod name;
mod nested;
mod place;
mod placed;
mod proving;
mod round_trips;
mod std_impls;
mod uparse;
mod whole_text;

pub use by::{By, ProvesValue};
pub use core_impls::options::Optional;
pub use detailed::DetailedError;
pub use error::ParseError;
pub use expected::Expected;
pub use found::Found;
pub use keys::ParseKey;
pub use nested::{ParsesNested, parse_nested};
pub use place::line_and_column;
pub use placed::PlacedError;
pub use round_trips::{round_trip, round_trip_in};
pub use std_impls::boxes::Boxed;
pub use std_impls::vectors::Each;
pub use ufmt_parser::by_count::structs::{
    parse_struct_1, parse_struct_2, parse_struct_3, parse_struct_4, parse_struct_5, parse_struct_6,
    parse_struct_7, parse_struct_8, parse_struct_9, parse_struct_10, parse_struct_11,
    parse_struct_12,
};
pub use ufmt_parser::by_count::tuples::{
    parse_tuple_1, parse_tuple_2, parse_tuple_3, parse_tuple_4, parse_tuple_5, parse_tuple_6,
    parse_tuple_7, parse_tuple_8, parse_tuple_9, parse_tuple_10, parse_tuple_11, parse_tuple_12,
};
pub use ufmt_parser::detail::Detail;
pub use ufmt_parser::mode::{ParseMode, PlainText, PrettyText};
pub use ufmt_parser::need::Need;
pub use ufmt_parser::parser::{Fault, Parser};
pub use ufmt_parser::parses_by::ParsesBy;
pub use ufmt_parser::units::parse_unit;
pub use uparse::{ByType, uParse};
pub use whole_text::{parse, parse_pretty};
