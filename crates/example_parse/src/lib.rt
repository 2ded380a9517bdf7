#![tactic(auto)]

//! Callers of `ufmt_scan`, `ufmt_doc`, `ufmt_parse` and `ufmt_snapshot`: a line of a log is parsed, read back, tested or
//! made readable, and values are compared with one another and with a stored text. A command line and a measurement
//! are parsed with no allocator. Types that hold themselves, and a struct of choices, are parsed.

mod alarm;
mod command;
mod log_line;
mod measurement;
mod node;
mod read_back;
mod sample;
mod snapshot;
mod supply;
mod switch;
mod tree;

pub use alarm::{Alarm, parse_alarm};
pub use command::{Mix, parse_command};
pub use log_line::{is_readable, pretty_line};
pub use measurement::{Measurement, parse_measurement};
pub use node::Node;
pub use read_back::celsius;
pub use sample::Sample;
pub use snapshot::{changes, print_alike};
pub use supply::Supply;
pub use switch::Switch;
pub use tree::Tree;
