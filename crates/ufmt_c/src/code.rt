//! What a call returns to C where it returns no length.

/// The input is no text of the kind that the call takes.
pub const NO_TEXT: isize = -1;

/// The text has more bytes than the buffer.
pub const FULL: isize = -2;

/// The input isn't UTF-8.
pub const NOT_UTF8: isize = -3;

/// An option has a value that means nothing.
pub const BAD_OPTION: isize = -4;
