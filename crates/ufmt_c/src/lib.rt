#![tactic(auto)]

//! The calls that C makes, as `include/ufmt.h` declares them. None of them takes memory.
//!
//! A call that writes a text returns its length, or `FULL` if it has more bytes than the buffer. Then the
//! buffer is full of its first bytes. Either way `detail` becomes the text's length. A call that returns
//! another code leaves the buffer and `detail` as they were, unless its comment says otherwise.
//!
//! A call that pads a text makes no more of it than the buffer can show, and only counts the rest.

mod character_number;
mod code;
mod column;
mod convert;
mod debug_quotes;
mod difference;
mod dump;
mod field;
mod filler;
mod fixed;
mod kinds;
mod message;
mod numbers;
mod options;
mod print;
mod quoted;
mod read_numbers;
mod text;
mod version;
