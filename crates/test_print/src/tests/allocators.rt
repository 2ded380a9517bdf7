//! Tests of values over an allocator that isn't `Global`, and of a `String` over one as a writer.
use super::asserts::{has_wanted_rows, same};
use std::alloc::{AllocError, Allocator};
use std::collections::{BTreeMap, BTreeSet};
use test_rows::put_rows;
use test_rows::rows::{Table, are_ok};
use ufmt::{Formatter, write_debug, write_display};

fn set_of_3<A: Allocator + Clone>(alloc: A) -> Result<BTreeSet<u8, A>, AllocError> {
    let mut set = BTreeSet::new(alloc);
    set.insert(3u8)?;
    Ok(set)
}

fn map_of_4<A: Allocator + Clone>(alloc: A) -> Result<BTreeMap<u8, u8, A>, AllocError> {
    let mut map = BTreeMap::new(alloc);
    map.insert(4u8, 5u8)?;
    Ok(map)
}

#[test]
fn values_over_a_lent_allocator_print(rt: HostRuntime) {
    let global = rt.alloc();
    let mut table = Table::new(rt.alloc());
    put_rows!(table;
        texts_of_made(Vec::from_slice(&global, &[1u8, 2])) => "[1, 2]~\n[\n    1,\n    2,\n]";
        texts_of_made(set_of_3(&global)) => "{3}~\n{\n    3,\n}";
        texts_of_made(map_of_4(&global)) => "{4: 5}~\n{\n    4: 5,\n}";
        texts_of_made(Box::new(&global, 6u8)) => "6";
        texts_of_made(String::from_str(&global, "7xé")) => "\"7xé\"";
    );
    has_wanted_rows(&rt, &table);
}

#[test]
fn strings_over_a_lent_allocator_are_writers(rt: HostRuntime) {
    let global = rt.alloc();
    let mut text = String::new(&global);
    let outcomes = [
        write_debug(&mut text, &7u8),
        write_display(&mut text, &"x"),
        Formatter::new(&mut text).write_char('é'),
    ];
    same(&rt, are_ok(&outcomes), true, "the outcomes");
    same(&rt, text.as_str(), "7xé", "a writer");
    let mut copy = String::new(&global);
    let outcome = write_display(&mut copy, &text);
    let given = (outcome.is_ok(), copy.as_str());
    same(&rt, given, (true, "7xé"), "displayed");
}
