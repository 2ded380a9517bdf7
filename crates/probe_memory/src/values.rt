//! The calls that print a value into a buffer. They take no memory.
use crate::outcome::Outcome;
use crate::report::{report, report_free};
use std::alloc::{AllocError, Global};
use std::collections::{BTreeMap, BTreeSet};
use std::io;
use ufmt::{
    Align, Column, Cursor, Cut, Decimal, Formatter, Full, HexDump, HexOptions, Radix, debug_into,
    display_into, hex_dump_into, line_cut_into, line_into, pieces, pretty_into, uDebug,
    uDisplayHex, uDisplayRadix, uDisplayZeros, uwrite,
};

// Values of std's types that take memory: a list, a set, a map, a box and a text.
type Collections = (Vec<u8>, BTreeSet<i8>, BTreeMap<u8, char>, Box<u8>, String);

fn collections(alloc: Global) -> Result<Collections, AllocError> {
    let list = Vec::from_slice(alloc, &[1u8, 2, 3])?;
    let (mut set, mut map) = (BTreeSet::new(alloc), BTreeMap::new(alloc));
    for number in [-1i8, 0, 1] {
        set.insert(number)?;
    }
    for (key, value) in [(1u8, 'é'), (2, '\''), (3, '\n'), (4, 'd')] {
        map.insert(key, value)?;
    }
    Ok((
        list,
        set,
        map,
        Box::new(alloc, 7u8)?,
        String::from_str(alloc, "a\"é")?,
    ))
}

const COLLECTIONS: &str =
    "([1, 2, 3], {-1, 0, 1}, {1: 'é', 2: '\\'', 3: '\\n', 4: 'd'}, 7, \"a\\\"é\")";

/// Prints values of each kind.
pub fn report_values(rt: &HostRuntime) -> io::Result<()> {
    report_collections(rt)?;
    let mut buffer = [0; 128];
    let leaves = ("a\"é\u{1b}", 'é', '\'', true, (), u128::MAX);
    report_free(rt, "debug_into", "leaves", || {
        is_at_front(debug_into(&mut buffer, &leaves), &buffer, LEAVES)
    })?;
    let blocks = (Some(1u8), [i8::MIN], None::<u8>);
    report_free(rt, "pretty_into", "blocks", || {
        is_at_front(pretty_into(&mut buffer, &blocks), &buffer, BLOCKS)
    })?;
    report_free(rt, "display_into", "a text", || {
        is_at_front(display_into(&mut buffer, &"a\"é"), &buffer, "a\"é")
    })
}

// If memory was refused, the collections are made again. Only one allocation is refused in a run.
fn report_collections(rt: &HostRuntime) -> io::Result<()> {
    let (outcome, made) = match collections(rt.alloc()) {
        Ok(made) => (Outcome::Ample, Some(made)),
        Err(_) => (Outcome::WantOfMemory, collections(rt.alloc()).ok()),
    };
    report(rt, "making", "collections", 5, outcome)?;
    let Some(made) = made else {
        return Ok(());
    };
    let mut buffer = [0; 128];
    report_free(rt, "debug_into", "collections", || {
        is_at_front(debug_into(&mut buffer, &made), &buffer, COLLECTIONS)
    })
}

const LEAVES: &str =
    "(\"a\\\"é\\u{1b}\", 'é', '\\'', true, (), 340282366920938463463374607431768211455)";

const BLOCKS: &str = "(\n    Some(\n        1,\n    ),\n    [\n        -128,\n    ],\n    None,\n)";

const HEXADECIMAL: HexOptions = HexOptions {
    upper_case: false,
    pad_char: b'0',
    pad_length: 6,
    ox_prefix: true,
};

/// Prints pieces in a row, and values by calls of the formatter and of traits.
pub fn report_pieces(rt: &HostRuntime) -> io::Result<()> {
    let mut buffer = [0; 128];
    let line =
        pieces!(text "n=", display 7i32, debug 'é', pretty [1u8], hex 255u8 with HEXADECIMAL);
    report_free(rt, "line_into", "pieces", || {
        is_at_front(line_into(&mut buffer, &line), &buffer, PIECES)
    })?;
    report_free(rt, "uwrite", "pieces", || {
        let mut f = Formatter::new(Cursor::new(&mut buffer));
        let outcome =
            uwrite!(&mut f, text "n=", display 7i32, debug 'é', pretty [1u8], hex 255u8 with HEXADECIMAL);
        outcome.is_ok() && f.into_inner().written() == PIECES.as_bytes()
    })?;
    report_free(rt, "fmt_hex", "a number", || {
        let mut f = Formatter::new(Cursor::new(&mut buffer));
        let outcome = i128::MIN.fmt_hex(&mut f, HEXADECIMAL);
        outcome.is_ok() && f.into_inner().written() == LEAST.as_bytes()
    })?;
    report_free(rt, "fmt_radix", "a number", || {
        let mut f = Formatter::new(Cursor::new(&mut buffer));
        let outcome = i16::MIN.fmt_radix(&mut f, Radix::Binary, HEXADECIMAL);
        outcome.is_ok() && f.into_inner().written() == b"0b1000000000000000".as_slice()
    })?;
    report_free(rt, "fmt_zeros", "a decimal", || {
        let mut f = Formatter::new(Cursor::new(&mut buffer));
        let decimal = Decimal {
            value: -125,
            places: 1,
        };
        let outcome = decimal.fmt_zeros(&mut f, 7);
        outcome.is_ok() && f.into_inner().written() == b"-0012.5".as_slice()
    })?;
    report_free(rt, "Formatter::pretty", "a list", || {
        let mut f = Formatter::new(Cursor::new(&mut buffer));
        let outcome = f.pretty(|f| ["a\"é"].fmt(f));
        outcome.is_ok() && f.into_inner().written() == LIST.as_bytes()
    })
}

const COLUMN: Column = Column {
    width: 5,
    align: Align::Center,
    fill: 'é',
};

/// Prints a line of columns that is cut, and a dump.
pub fn report_cuts_and_dumps(rt: &HostRuntime) -> io::Result<()> {
    let mut buffer = [0; 10];
    let line = pieces!(display 7i32 in COLUMN, debug 'é' in COLUMN);
    report_free(rt, "line_cut_into", "columns", || {
        let cut = line_cut_into(&mut buffer, &line);
        let wanted = Cut {
            length: 9,
            is_whole: false,
        };
        cut == wanted && buffer.starts_with("éé7éé".as_bytes())
    })?;
    let mut buffer = [0; 80];
    report_free(rt, "hex_dump_into", "two bytes", || {
        let outcome = hex_dump_into(&mut buffer, b"A\n", &HexDump::XXD);
        is_at_front(outcome, &buffer, DUMP)
    })
}

// As `xxd -g1` prints it.
const DUMP: &str = "00000000: 41 0a                                            A.\n";

const PIECES: &str = "n=7'é'[\n    1,\n]0x00ff";

const LEAST: &str = "0x80000000000000000000000000000000";

const LIST: &str = "[\n    \"a\\\"é\",\n]";

// Whether the call returned the text's length, and the buffer begins with the text.
fn is_at_front(outcome: Result<usize, Full>, buffer: &[u8], text: &str) -> bool {
    outcome == Ok(text.len()) && buffer.starts_with(text.as_bytes())
}
