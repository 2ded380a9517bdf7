//! A table of rows, and of what is wanted of each. Both are one text, which one assert compares.
use std::alloc::{AllocError, Global};
use std::collections::{BTreeMap, BTreeSet};
use ufmt::Full;

/// An array of rows: cells, and after an arrow what is wanted of them.
#[macro_export]
macro_rules! rows_of {
    ($($($cell:expr),+ => $wanted:expr;)*) => {
        [$(($($cell),+, $wanted)),*]
    };
}

/// Adds rows, each by a call of a method of the table, and after an arrow what is wanted of it.
#[macro_export]
macro_rules! put_rows {
    ($table:ident; $($put:ident($($value:expr),+) => $wanted:expr;)*) => {
        $($table.$put($($value),+);
        $table.wants($wanted);)*
    };
}

/// Adds a row for each length of a buffer: what a call that prints into it returns, and so many bytes, of which those that it
/// leaves are tildes.
#[macro_export]
macro_rules! put_filled {
    ($table:ident; $buffer:ident[$size:literal] $call:expr; $($length:expr => $wanted:expr;)*) => {
        for (length, wanted) in [$(($length, $wanted)),*] {
            let mut bytes = [b'~'; $size];
            let $buffer = &mut bytes[..length];
            let outcome = $call;
            $table.put_outcome(outcome, &bytes);
            $table.wants(wanted);
        }
    };
}

/// Rows, one after another, with a semicolon and a line feed after each.
#[derive(Drop)]
pub struct Table {
    alloc: Global,
    text: String,
    wanted: String,
    has_all: bool,
}

impl Table {
    pub fn new(alloc: Global) -> Self {
        Table {
            alloc,
            text: String::new(alloc),
            wanted: String::new(alloc),
            has_all: true,
        }
    }

    pub fn alloc(&self) -> Global {
        self.alloc
    }

    /// Returns the rows, if there was memory for all of them.
    pub fn text(&self) -> Option<&str> {
        if self.has_all {
            Some(self.text.as_str())
        } else {
            None
        }
    }

    /// Returns what is wanted of the rows.
    pub fn wanted(&self) -> &str {
        self.wanted.as_str()
    }

    /// Returns the first row that isn't what is wanted of it, and what is, or twice an empty text. If there are more of one than of the
    /// other, it returns all rows.
    pub fn first_wrong_row(&self) -> (&str, &str) {
        let (rows, wanted) = (self.text().unwrap_or("no memory for a row"), self.wanted());
        for (row, wanted) in rows.split(";\n").zip(wanted.split(";\n")) {
            if row != wanted {
                return (row, wanted);
            }
        }
        if rows.len() == wanted.len() {
            ("", "")
        } else {
            (rows, wanted)
        }
    }

    /// Says what is wanted of the row that was added last. It stands beside the row's value, so that a failure names it.
    pub fn wants(&mut self, row: &str) {
        let row = self.wanted.push_str(row);
        let end = self.wanted.push_str(";\n");
        self.has_all &= row.is_ok() && end.is_ok();
    }

    /// Adds a row.
    pub fn put(&mut self, row: &str) {
        let row = self.text.push_str(row);
        let end = self.text.push_str(";\n");
        self.has_all &= row.is_ok() && end.is_ok();
    }

    /// Adds a row that was made, if there was memory for it.
    pub fn put_made(&mut self, row: Result<String, AllocError>) {
        match row {
            Ok(row) => self.put(row.as_str()),
            Err(_) => self.has_all = false,
        }
    }

    /// Adds a row of two texts that were made, by `joined_if_different`.
    pub fn put_both(
        &mut self,
        first: Result<String, AllocError>,
        second: Result<String, AllocError>,
    ) {
        match (first, second) {
            (Ok(first), Ok(second)) => self.put_made(joined_if_different(first, second.as_str())),
            _ => self.has_all = false,
        }
    }

    /// Notes that a row couldn't be made.
    pub fn put_nothing(&mut self) {
        self.has_all = false;
    }

    /// Adds a row of a call's result, and of what it left in a buffer.
    pub fn put_outcome(&mut self, outcome: Result<usize, Full>, left: &[u8]) {
        let text = str::from_utf8(left).unwrap_or("bytes that are no UTF-8");
        self.put_made(format!(in self.alloc; "{outcome:?} {text}"));
    }

    /// Adds a row of a call's result, with this count if it is `Ok`, and of what is written.
    pub fn put_written(&mut self, outcome: Result<(), Full>, count: usize, written: &[u8]) {
        self.put_outcome(outcome.map(|()| count), written);
    }
}

/// Returns the first text, and after a tilde the second if it differs.
pub fn joined_if_different(mut first: String, second: &str) -> Result<String, AllocError> {
    if first.as_str() != second {
        first.push_str("~\n")?;
        first.push_str(second)?;
    }
    Ok(first)
}

pub fn are_ok(outcomes: &[Result<(), AllocError>]) -> bool {
    outcomes.iter().all(|outcome| outcome.is_ok())
}

pub fn set<N: Copy + Ord>(alloc: Global, items: &[N]) -> Result<BTreeSet<N>, AllocError> {
    let mut set = BTreeSet::new(alloc);
    for item in items {
        set.insert(*item)?;
    }
    Ok(set)
}

pub fn map<K: Copy + Ord, V: Copy>(
    alloc: Global,
    pairs: &[(K, V)],
) -> Result<BTreeMap<K, V>, AllocError> {
    let mut map = BTreeMap::new(alloc);
    for (key, value) in pairs {
        map.insert(*key, *value)?;
    }
    Ok(map)
}

// `part`, `count` times, between a start and an end.
pub fn repeated(
    alloc: Global,
    start: &str,
    part: &str,
    count: usize,
    end: &str,
) -> Result<String, AllocError> {
    let mut text = String::from_str(alloc, start)?;
    for _ in 0..count {
        text.push_str(part)?;
    }
    text.push_str(end)?;
    Ok(text)
}
