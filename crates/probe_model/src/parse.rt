//! The calls that parse a text, for each type.
pub mod costs;
pub mod parsed;
mod parsing;
mod shapes;
mod types;
