#![tactic(auto)]

//! The grammar of texts that can be read again: which documents have such texts, how these are read by a
//! definition, and that each is read in one way. A user of `ufmt` has its class and its laws there.

mod bytes;
pub mod class;
pub mod laws;

/// What the crates beside this one call. It isn't for users: any version may change it.
pub mod internal {
    pub use crate::bytes::ByteClass;
}
