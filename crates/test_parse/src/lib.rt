#![tactic(auto)]

//! Tests of `ufmt_parse`, by public calls only.

#[cfg(test)]
mod tests;
