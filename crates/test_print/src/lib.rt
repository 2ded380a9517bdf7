#![tactic(auto)]

//! Tests of how values print, of the formatter, the builders and the macros, by public calls only.

#[cfg(test)]
mod tests;
