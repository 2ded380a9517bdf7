//! Makes each call by itself, between marks, so that its memory and its steps can be counted.
//! `tools/lib/model/counter.c` counts them.
use std::alloc::{AllocError, Global};

// A mark is an allocation of so many bytes and its own number. No memory can give so much, so none is
// made, and nothing else asks for it.
const MARK: usize = 1 << 62;

const BEGIN: usize = MARK;

const END: usize = MARK + 1;

const DROPPED: usize = MARK + 2;

fn mark(alloc: Global, bytes: usize) {
    let _refused: Result<Vec<u8>, AllocError> = Vec::with_capacity(alloc, bytes);
}

/// Makes a call between the first two marks, and notes its name. A closure for each call would take time to prove.
macro_rules! count {
    ($costs:ident, $name:literal, $call:expr) => {{
        $costs.begin();
        $costs.note($name, $call)?
    }};
}

pub(crate) use count;

/// The calls so far: the name of each, and whether its result was a value.
#[derive(Drop)]
pub struct Costs {
    pub alloc: Global,
    pub line: String,
}

impl Costs {
    pub fn new(alloc: Global) -> Self {
        Costs {
            alloc,
            line: String::new(alloc),
        }
    }

    /// Makes the mark before a call.
    pub fn begin(&self) {
        mark(self.alloc, BEGIN);
    }

    /// Notes a call that has ended, and drops its result. The second mark is made while the result is held.
    pub fn note<T: Drop>(&mut self, name: &str, outcome: Option<T>) -> Result<(), AllocError> {
        mark(self.alloc, END);
        let verdict = if outcome.is_some() { " yes, " } else { " no, " };
        drop(outcome);
        mark(self.alloc, DROPPED);
        self.line.push_str(name)?;
        self.line.push_str(verdict)
    }
}
