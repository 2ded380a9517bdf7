#![tactic(auto)]

//! Snapshots: a value's pretty text compared with a stored one, line by line.

mod assert_snapshot;
mod difference;
mod snapshot;

pub use difference::{Difference, first_difference};
pub use snapshot::compare_pretty;
