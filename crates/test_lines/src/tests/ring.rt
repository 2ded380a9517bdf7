//! Tests of a user's own writer, which keeps the last bytes.
use super::asserts::has_wanted_rows;
use example_print::Ring;
use std::str::from_utf8;
use test_rows::rows::Table;
use ufmt::{uWrite, write_debug};

// Adds a row of what is kept, with a bar between the parts, or of nothing if a call failed.
fn put_kept<const N: usize>(table: &mut Table, is_ok: bool, ring: &Ring<N>, wanted: &str) {
    let (older, newer) = ring.kept();
    match (is_ok, from_utf8(older), from_utf8(newer)) {
        (true, Ok(older), Ok(newer)) => {
            let alloc = table.alloc();
            table.put_made(format!(in alloc; "{older}|{newer}"));
        }
        _ => table.put_nothing(),
    }
    table.wants(wanted);
}

#[test]
fn a_ring_keeps_the_last_bytes(rt: HostRuntime) {
    let mut table = Table::new(rt.alloc());
    let mut ring = Ring::<5>::new();
    for (piece, wanted) in [
        ("", "|"),
        ("ab", "|ab"),
        ("cde", "|abcde"),
        ("fg", "cde|fg"),
        ("", "cde|fg"),
        ("0123456789", "567|89"),
    ] {
        let outcome = ring.write_str(piece);
        put_kept(&mut table, outcome.is_ok(), &ring, wanted);
    }
    let mut ring = Ring::<4>::new();
    let outcome = write_debug(&mut ring, &[1u8, 23]);
    put_kept(&mut table, outcome.is_ok(), &ring, " |23]");
    let mut ring = Ring::<0>::new();
    let outcome = ring.write_str("a");
    put_kept(&mut table, outcome.is_ok(), &ring, "|");
    has_wanted_rows(&rt, &table);
}
