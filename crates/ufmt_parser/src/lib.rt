#![tactic(auto)]

//! What is left of a text, and what is taken from its front: pieces, fields and entries. A user names `ufmt_parse` only,
//! which re-exports what a user needs of this.

// The value of an `Ok`. An `Err` is returned at once, as by `?`, but without the call that converts the error, of which the
// check knows too little. `ufmt_parse` has its own: to a proof the places in another crate's macro have no names.
macro_rules! tri {
    ($outcome:expr) => {
        match $outcome {
            Err(fault) => return Err(fault),
            Ok(value) => value,
        }
    };
}

pub mod ascending;
pub mod blocks;
pub mod by_count;
pub mod detail;
pub mod entries;
pub mod fields;
pub mod mode;
pub mod need;
pub mod parser;
pub mod parses_by;
mod strip;
pub mod units;
