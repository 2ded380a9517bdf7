#![tactic(auto)]

//! Tests of lines, columns, dumps, numbers with options, and buffers, by public calls only.

#[cfg(test)]
mod tests;
