//! What is made of the values of a log.

use ufmt::layout::Mode;

/// The mode of the texts that are written, and how long a plain text is at most that stays anyway.
#[derive(Clone, Copy, PartialEq, Eq)]
pub struct Conversion {
    pub to: Mode,
    /// How many bytes. Pretty texts of every length become plain.
    pub longer_than: usize,
}
