//! Tests of what no clause says of lines, of their pieces, and of the buffers and writers that they go to: the texts, which
//! rustc prints too, where pieces end, what a failing writer leaves, and that each call can succeed.
mod asserts;
mod columns;
mod counting;
mod cursors;
mod cuts;
mod decimals;
mod dumps;
mod fixed;
mod hexadecimal;
mod lines;
mod long_lines;
mod radix;
mod ring;
mod shadowed_names;
mod uwrite;
mod widths;
mod zeros;
