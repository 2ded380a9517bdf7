#![tactic(auto)]

//! A user's own types, most of them printed in one call.

mod by_hand;
mod clock;
mod cut_log;
mod enums;
mod events;
mod fixed;
mod logger;
mod message;
mod packet;
mod recursive;
mod ring;
mod sample;
mod session;
mod shared;
mod structs;
mod table;
mod valve_log;

pub use by_hand::{InPrettyMode, Meter, Port, Ports, Scores, Temperature, Users};
pub use clock::{Time, write_status, write_time};
pub use cut_log::log_cut;
pub use enums::{Letter, Y};
pub use events::LinkEvent;
pub use fixed::FixedBuffer;
pub use logger::{ByChannel, Measurement, dump_packet, list_measurements, log};
pub use message::{Message, print};
pub use packet::show_packet;
pub use recursive::{Json, Node, Tree};
pub use ring::Ring;
pub use sample::Sample;
pub use session::Session;
pub use shared::{Link, Window};
pub use structs::{Braces, I32, Nested, Pair, Parens, Tuple, X};
pub use table::{Counter, write_row};
pub use valve_log::{log_valve, print_valve, write_valve};
