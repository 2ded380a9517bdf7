//! Tests of what no clause says: the texts that ufmt and core::fmt print of the same values, where
//! pieces end, what a call returns and leaves after a refused piece, how many items `entries` takes, how
//! often and in which order macros evaluate, and that each call can succeed.
//! `tools/expected/show VALUE` prints again what core::fmt prints.
mod allocators;
mod asserts;
mod blocks;
mod builder_calls;
mod builders;
mod collections;
mod decimals;
mod devices;
mod end_entry;
mod entries;
mod evaluations;
mod field_counts;
mod formatters;
mod laws;
mod leaves;
mod long_values;
mod numbers;
mod print;
mod printed;
mod quoted;
mod refused_pieces;
mod std_types;
mod stopped_calls;
mod user_types;
