//! The calls that scan, read, convert and print on a text.
pub mod calls;
pub mod costs;
mod events;
pub mod fault;
mod fields;
pub mod half;
pub mod leaf;
mod loose;
pub mod nested;
mod parts;
mod text_pieces;
mod tokens;
