//! Tests of several inputs read as one, over inputs in memory.
use super::*;
use crate::run::{Conversion, Watched, run};
use std::alloc::{AllocError, Global};
use std::cell::RefCell;
use std::fmt;
use std::io::ErrorKind;
use std::process::Abort;
use ufmt::layout::Mode;
use ufmt_io::testing::{NEVER, Sink, Source, WHOLE};

// Checking an assert takes as long as checking twenty calls, so asserts are calls of this one.
fn same<T: PartialEq + fmt::Debug + Drop>(rt: &impl Abort, given: T, wanted: T, case: &str) {
    assert_eq!(rt; given, wanted, "{case}");
}

// An input with its name, its bytes, and the number of the read that fails.
type Row = (&'static str, &'static [u8], usize);

// Inputs in memory, that give at most so many bytes a read. What is opened and what is reported is noted.
#[derive(Drop)]
struct Shelf<'a> {
    rows: &'a [Row],
    most: usize,
    notes: RefCell<String>,
}

impl Shelf<'_> {
    fn note(&self, what: &str, name: &str, end: &str) {
        let Ok(mut notes) = self.notes.try_borrow_mut() else {
            return;
        };
        let _noted = notes.push_str(what);
        let _noted = notes.push_str(name);
        let _noted = notes.push_str(end);
    }
}

impl Opener for Shelf<'_> {
    type Input = Source<'static>;

    fn open(&self, name: &str) -> io::Result<Source<'static>> {
        self.note("", name, " ");
        for (other, bytes, fails_at) in self.rows {
            if *other == name {
                return Ok(Source::new(bytes, self.most, *fails_at));
            }
        }
        Err(io::Error::from(ErrorKind::NotFound))
    }

    fn report(&self, name: &str, error: io::Error) {
        let why = match error.kind() {
            ErrorKind::NotFound => " missing ",
            ErrorKind::ConnectionReset => " reset ",
            _ => " other ",
        };
        self.note("!", name, why);
    }
}

const ROWS: &[Row] = &[
    ("a", b"one\ntw", NEVER),
    ("b", b"o\nthree", NEVER),
    ("empty", b"", NEVER),
    ("value", b"[\n    1,\n", NEVER),
    ("value's end", b"    2,\n]\nx", NEVER),
    ("fails", b"abcd", 2),
    ("fails at once", b"abcd", 1),
];

fn shelf_of(alloc: Global, most: usize) -> Shelf<'static> {
    Shelf {
        rows: ROWS,
        most,
        notes: RefCell::new(String::new(alloc)),
    }
}

// Nothing is opened before it is read, and a read with no room opens and closes nothing.
#[test]
fn inputs_are_opened_when_their_turn_comes(rt: HostRuntime) {
    let shelf = shelf_of(rt.alloc(), 2);
    let mut inputs = Inputs::new(&shelf, &["b", "a"]);
    let rows: [(usize, usize, &str); 6] = [
        (0, 0, ""),
        (2, 2, "b "),
        (0, 0, "b "),
        (8, 2, "b "),
        (8, 2, "b "),
        (8, 1, "b "),
    ];
    for (size, count, notes) in rows {
        let mut buffer = *b"........";
        let read = inputs.read(&mut buffer[..size]).unwrap_or(9);
        same(&rt, read, count, notes);
        let is_noted = shelf
            .notes
            .try_borrow()
            .is_ok_and(|noted| noted.as_str() == notes);
        same(&rt, is_noted, true, notes);
    }
}

// A group of `--plain` goes from one input to the next, and so does a line.
#[test]
fn groups_go_over_inputs(rt: HostRuntime) -> Result<(), AllocError> {
    for most in [1, 2, WHOLE] {
        let shelf = shelf_of(rt.alloc(), most);
        let names = ["value", "value's end", "a", "none"];
        let mut input = Watched::new(Inputs::new(&shelf, &names));
        let mut output = Watched::new(Sink::new(rt.alloc(), WHOLE, NEVER, false));
        let conversion = Conversion {
            to: Mode::Plain,
            longer_than: 40,
        };
        let outcome = run(rt.alloc(), conversion, &mut input, &mut output);
        same(&rt, outcome, Ok(()), "a run");
        let written = output.device().taken.as_slice();
        same(
            &rt,
            written == b"[1, 2]\nxone\ntw".as_slice(),
            true,
            "what is written",
        );
        same(&rt, input.device().has_missed(), true, "a missing input");
    }
    Ok(())
}
