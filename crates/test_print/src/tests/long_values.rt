//! Tests of tuples and lists with hundreds of entries.
use super::asserts::same;
use std::alloc::{AllocError, Global};
use std::collections::BTreeMap;
use test_rows::printed::{Printed, print_to};
use test_rows::rows::{map, repeated};
use test_rows::rows_of;
use ufmt::{Formatter, uWrite};

/// An unnamed tuple of so many zeros. It ends where the builder isn't open.
#[derive(Drop)]
struct Zeros(u16);

impl Printed for Zeros {
    fn print<W: uWrite>(&self, f: &mut Formatter<W>) -> Result<(), W::Error> {
        let mut tuple = f.debug_tuple("")?;
        for _ in 0..self.0 {
            if !tuple.is_open() {
                return Ok(());
            }
            tuple.field(&0u8)?;
        }
        if tuple.is_open() {
            tuple.finish()
        } else {
            Ok(())
        }
    }
}

fn maps(alloc: Global, count: u16) -> Result<Vec<BTreeMap<u8, u8>>, AllocError> {
    let mut maps = Vec::new(alloc);
    for _ in 0..count {
        maps.push(map(alloc, &[(1u8, 2u8)])?)?;
    }
    Ok(maps)
}

// The value's text in this mode, if the mode and the depth after it are as before.
fn text_in<T: Printed>(alloc: Global, is_pretty: bool, value: &T) -> Result<String, AllocError> {
    let ((outcome, inside, outside), text) = print_to(is_pretty, value, String::new(alloc));
    outcome?;
    if (inside, outside) == ((is_pretty, 0), (false, 0)) {
        Ok(text)
    } else {
        String::from_str(alloc, "another mode or depth")
    }
}

fn pretty_maps(alloc: Global, count: u16) -> Result<String, AllocError> {
    text_in(alloc, true, &maps(alloc, count)?)
}

// A byte can't count these fields.
#[test]
fn wide_tuples_and_lists_print(rt: HostRuntime) {
    let alloc = rt.alloc();
    let map = "    {\n        1: 2,\n    },\n";
    for (given, wanted, length) in rows_of![
        text_in(alloc, false, &Zeros(256)), repeated(alloc, "(0", ", 0", 255, ")") => Ok(768);
        text_in(alloc, false, &Zeros(257)), repeated(alloc, "(0", ", 0", 256, ")") => Ok(771);
        text_in(alloc, false, &Zeros(300)), repeated(alloc, "(0", ", 0", 299, ")") => Ok(900);
        text_in(alloc, true, &Zeros(300)), repeated(alloc, "(\n", "    0,\n", 300, ")") => Ok(2103);
        pretty_maps(alloc, 300), repeated(alloc, "[\n", map, 300, "]") => Ok(8103);
    ] {
        let count = wanted.as_ref().map(|text| text.len());
        same(&rt, count, length, "its length");
        same(&rt, given, wanted, "a wide value");
    }
}
