//! Rows of a value's pieces, or of its texts. The value is also printed to writers that fail at each piece.
use crate::printed::{Displayed, Left, Printed, print_to};
use crate::rows::{Table, joined_if_different};
use crate::writers::{FailAt, Recorded};
use std::alloc::{AllocError, Global};
use ufmt::{Cursor, Full, uDebug, uDisplay};

/// What a value prints in one mode.
#[derive(Drop)]
struct Pieces {
    is_pretty: bool,
    /// Whether mode and depth are as before the call.
    is_as_before: bool,
    text: String,
    /// The pieces with a bar after each.
    barred: String,
}

impl Pieces {
    fn of<T: Printed>(alloc: Global, is_pretty: bool, value: &T) -> Result<Self, AllocError> {
        let (left, recorded) = print_to(is_pretty, value, Recorded::new(alloc));
        let (outcome, inside, outside) = left;
        outcome?;
        Ok(Pieces {
            is_pretty,
            is_as_before: inside == (is_pretty, 0) && outside == (false, 0),
            text: recorded.text,
            barred: recorded.barred,
        })
    }

    // The number of bytes before the piece with this number. Empty pieces have no number.
    fn length_before(&self, number: usize) -> usize {
        let mut length = 0usize;
        let mut count = 1usize;
        for piece in self.barred.split('|') {
            if count < number && !piece.is_empty() {
                length = length.saturating_add(piece.len());
                count = count.saturating_add(1);
            }
        }
        length
    }

    // The number of bytes before the first piece that doesn't fit this size.
    fn length_within(&self, size: usize) -> usize {
        let mut length = 0usize;
        for piece in self.barred.split('|') {
            if length.saturating_add(piece.len()) > size {
                return length;
            }
            length = length.saturating_add(piece.len());
        }
        length
    }

    // Whether `left` is right for a writer that took the first `length` bytes.
    fn is_left(&self, left: Left<Full>, written: &[u8], length: usize) -> bool {
        let (outcome, inside, outside) = left;
        outcome.is_ok() == (length == self.text.len())
            && inside == (self.is_pretty, 0)
            && outside == (false, 0)
            && self.text.as_bytes().get(..length) == Some(written)
    }

    // The number of the first piece whose refusal leaves something wrong.
    fn wrong_number<T: Printed>(
        &self,
        alloc: Global,
        value: &T,
    ) -> Result<Option<usize>, AllocError> {
        for number in 1..=self.barred.len() {
            let length = self.length_before(number);
            let mut bytes = vec![in alloc; 0u8; self.text.len()]?;
            let writer = FailAt::new(bytes.as_mut_slice(), number);
            let (left, writer) = print_to(self.is_pretty, value, writer);
            if !self.is_left(left, writer.written(), length) {
                return Ok(Some(number));
            }
            if length == self.text.len() {
                return Ok(None);
            }
        }
        Ok(None)
    }

    // The first size of a cursor, up to the text's length, that leaves something wrong.
    fn wrong_size<T: Printed>(
        &self,
        alloc: Global,
        value: &T,
    ) -> Result<Option<usize>, AllocError> {
        for size in 0..=self.text.len() {
            let mut bytes = vec![in alloc; 0u8; size]?;
            let writer = Cursor::new(bytes.as_mut_slice());
            let (left, writer) = print_to(self.is_pretty, value, writer);
            if !self.is_left(left, writer.written(), self.length_within(size)) {
                return Ok(Some(size));
            }
        }
        Ok(None)
    }
}

// What the value prints in one mode, with bars or without, and the failure of a writer that leaves something wrong.
fn printed_in<T: Printed>(
    alloc: Global,
    has_bars: bool,
    is_pretty: bool,
    value: &T,
) -> Result<String, AllocError> {
    let pieces = Pieces::of(alloc, is_pretty, value)?;
    let number = pieces.wrong_number(alloc, value)?;
    let size = pieces.wrong_size(alloc, value)?;
    let is_right = pieces.is_as_before && number.is_none() && size.is_none();
    let Pieces { text, barred, .. } = pieces;
    let printed = if has_bars { barred } else { text };
    if is_right {
        return Ok(printed);
    }
    format!(in alloc; "{printed} wrong at FailAt {number:?}, Cursor {size:?}")
}

// The same in plain mode, and after a tilde in pretty mode if that differs.
fn printed_of<T: Printed>(alloc: Global, has_bars: bool, value: &T) -> Result<String, AllocError> {
    let pretty = printed_in(alloc, has_bars, true, value)?;
    joined_if_different(printed_in(alloc, has_bars, false, value)?, pretty.as_str())
}

/// Returns the value's pieces in plain mode, and after a tilde those in pretty mode if they differ.
pub fn pieces_of<T: Printed>(alloc: Global, value: &T) -> Result<String, AllocError> {
    printed_of(alloc, true, value)
}

/// Returns the value's plain text, and after a tilde its pretty text if it differs.
pub fn texts_of<T: Printed>(alloc: Global, value: &T) -> Result<String, AllocError> {
    printed_of(alloc, false, value)
}

// The number's pieces by both traits.
fn pieces_by_both<N: uDebug + uDisplay>(alloc: Global, number: &N) -> Result<String, AllocError> {
    let displayed = pieces_of(alloc, &Displayed(number))?;
    joined_if_different(pieces_of(alloc, number)?, displayed.as_str())
}

impl Table {
    /// Adds a row of the value's pieces in plain mode, with a bar after each. After a tilde come
    /// those in pretty mode, if they differ. The row is wrong if a failing writer takes part of a
    /// piece, or if the formatter's mode or depth changes.
    pub fn pieces<T: Printed>(&mut self, value: &T) {
        let row = pieces_of(self.alloc(), value);
        self.put_made(row);
    }

    /// Adds the same row, if there was memory for the value.
    pub fn pieces_of_made<T: Printed + Drop, E: Drop>(&mut self, value: Result<T, E>) {
        match value {
            Ok(value) => self.pieces(&value),
            Err(_) => self.put_nothing(),
        }
    }

    /// Adds a row of the value's plain text. The row is wrong as one of pieces is.
    pub fn plain<T: Printed>(&mut self, value: &T) {
        let row = printed_in(self.alloc(), false, false, value);
        self.put_made(row);
    }

    /// Adds the same row, if there was memory for the value.
    pub fn plain_of_made<T: Printed + Drop, E: Drop>(&mut self, value: Result<T, E>) {
        match value {
            Ok(value) => self.plain(&value),
            Err(_) => self.put_nothing(),
        }
    }

    /// Adds a row of the value's texts. The row is wrong as one of pieces is.
    pub fn texts<T: Printed>(&mut self, value: &T) {
        let row = texts_of(self.alloc(), value);
        self.put_made(row);
    }

    /// Adds the same row, if there was memory for the value.
    pub fn texts_of_made<T: Printed + Drop, E: Drop>(&mut self, value: Result<T, E>) {
        match value {
            Ok(value) => self.texts(&value),
            Err(_) => self.put_nothing(),
        }
    }

    /// Adds a row of two values' texts, which is the row of the first if they have the same texts.
    pub fn same_texts<T: Printed, U: Printed>(&mut self, value: &T, other: &U) {
        let (first, second) = (texts_of(self.alloc(), value), texts_of(self.alloc(), other));
        self.put_both(first, second);
    }

    /// Adds the same row, if there was memory for the values.
    pub fn same_texts_of_made<T: Printed + Drop, U: Printed + Drop, E: Drop>(
        &mut self,
        value: Result<T, E>,
        other: Result<U, E>,
    ) {
        match (value, other) {
            (Ok(value), Ok(other)) => self.same_texts(&value, &other),
            _ => self.put_nothing(),
        }
    }

    /// Adds a row of the number's pieces by `uDebug`, and after a tilde by `uDisplay`, if they
    /// differ.
    pub fn number<N: uDebug + uDisplay + Drop>(&mut self, number: N) {
        let row = pieces_by_both(self.alloc(), &number);
        self.put_made(row);
    }
}
