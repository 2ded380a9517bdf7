#![tactic(auto)]

//! What programs share: devices that note their failures, bytes read and written whole, faults, and what
//! `main` does first and last.

mod call;
mod fault;
mod history;
mod noted;
mod program;
pub mod testing;
#[cfg(test)]
mod tests;
mod watched;
mod whole;

pub use call::Call;
pub use fault::IoFault;
pub use program::{USAGE_STATUS, arguments, report};
pub use watched::{Failed, Watched};
pub use whole::{read_to_end, write_whole};
