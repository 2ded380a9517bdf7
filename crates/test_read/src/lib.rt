#![tactic(auto)]

//! Tests of the scanner, readers, conversions and documents, by public calls only.

#[cfg(test)]
mod tests;
