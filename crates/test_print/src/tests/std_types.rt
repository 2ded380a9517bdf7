//! Tests of std's borrowed values, cells, queues, hashed collections and ranges. core::fmt prints the same texts, except for the
//! order of a hashed collection of several items. `tools/expected/show VALUE` prints them again. Shared values, lists, small types
//! and floats are what probe_model prints for rows of tools/data/rows.
use super::asserts::{has_wanted_rows, same};
use std::alloc::{AllocError, Global};
use std::borrow::{Cow, CowSlice, CowStr};
use std::boxed::BoxedStr;
use std::cell::{Cell, RefCell};
use std::collections::{BinaryHeap, HashMap, HashSet, VecDeque};
use std::num::{Saturating, Wrapping};
use std::rc::{Rc, RcStr, Weak};
use std::sync::{Arc, ArcStr};
use test_rows::printed::Displayed;
use test_rows::put_rows;
use test_rows::rows::Table;
use ufmt::cells::{CellValue, RefCellValue};
use ufmt::plain_text;

#[test]
fn what_is_shared_lent_or_borrowed_prints_as_by_core_fmt(rt: HostRuntime) {
    let mut table = Table::new(rt.alloc());
    put_rows!(table;
        texts(&Cow::Owned(5u8)) => "5";
        texts(&Some(Cow::Borrowed(&[6u8]))) => "Some([6])~\nSome(\n    [\n        6,\n    ],\n)";
        texts(&Weak::<u8>::new()) => "(Weak)";
        texts(&CowStr::<Global>::Borrowed("a\"b\n")) => "\"a\\\"b\\n\"";
        texts_of_made(String::from_str(rt.alloc(), "c'").map(|text| CowStr::Owned(text))) => "\"c'\"";
        texts(&CowSlice::<u8, Global>::Borrowed(&[1, 2])) => "[1, 2]~\n[\n    1,\n    2,\n]";
        texts_of_made(Vec::from_slice(rt.alloc(), &[3u8]).map(|items| CowSlice::Owned(items))) => "[3]~\n[\n    3,\n]";
    );
    let mut items = [1u8, 2];
    put_rows!(table;
        texts(&items.as_mut_slice()) => "[1, 2]~\n[\n    1,\n    2,\n]";
    );
    let cell = RefCell::new(Some(1u8));
    put_rows!(table;
        texts_of_made(cell.try_borrow()) => "Some(1)~\nSome(\n    1,\n)";
        texts_of_made(cell.try_borrow_mut()) => "Some(1)~\nSome(\n    1,\n)";
    );
    has_wanted_rows(&rt, &table);
}

#[test]
fn what_is_held_is_displayed_as_by_core_fmt(rt: HostRuntime) {
    let mut table = Table::new(rt.alloc());
    put_rows!(table;
        pieces_of_made(Rc::new(rt.alloc(), 1u8).map(Displayed)) => "1|";
        pieces_of_made(Arc::new(rt.alloc(), 'c').map(Displayed)) => "c|";
        pieces(&Displayed(Cow::Borrowed(&true))) => "true|";
        pieces(&Displayed(Cow::Owned(2u8))) => "2|";
        pieces(&Displayed(CowStr::<Global>::Borrowed("a\""))) => "a\"|";
        pieces_of_made(String::from_str(rt.alloc(), "b\n").map(|text| Displayed(CowStr::Owned(text)))) => "b\n|";
        pieces_of_made(RcStr::from_str(rt.alloc(), "c").map(Displayed)) => "c|";
        pieces_of_made(ArcStr::from_str(rt.alloc(), "d").map(Displayed)) => "d|";
        pieces_of_made(BoxedStr::from_str(rt.alloc(), "é").map(Displayed)) => "é|";
        pieces(&Displayed(Wrapping(-4i8))) => "-4|";
        pieces(&Displayed(Saturating(5u8))) => "5|";
        pieces(&Displayed(-4.5f64)) => "-4.5|";
        pieces(&Displayed(1e-7f32)) => "0.0000001|";
    );
    let cell = RefCell::new(3u8);
    put_rows!(table;
        pieces_of_made(cell.try_borrow().map(Displayed)) => "3|";
        pieces_of_made(cell.try_borrow_mut().map(Displayed)) => "3|";
    );
    has_wanted_rows(&rt, &table);
}

// Adds a row while the value is borrowed to be read, and one while it is borrowed to be written.
fn put_borrowed(table: &mut Table, cell: &RefCell<u8>) {
    let Ok(reader) = cell.try_borrow() else {
        return table.put_nothing();
    };
    put_rows!(table;
        texts(&RefCellValue::of(cell)) => "RefCell { value: 5 }~\nRefCell {\n    value: 5,\n}";
    );
    drop(reader);
    let Ok(writer) = cell.try_borrow_mut() else {
        return table.put_nothing();
    };
    put_rows!(table;
        texts(&RefCellValue::of(cell)) => "RefCell { value: <borrowed> }~\nRefCell {\n    value: <borrowed>,\n}";
    );
    drop(writer);
}

#[test]
fn what_was_read_of_a_cell_prints_as_the_cell_and_stays(rt: HostRuntime) {
    let mut table = Table::new(rt.alloc());
    put_rows!(table;
        texts(&CellValue::of(&Cell::new(5u8))) => "Cell { value: 5 }~\nCell {\n    value: 5,\n}";
        texts(&Some(CellValue::of(&Cell::new(Some(5u8)))))
            => "Some(Cell { value: Some(5) })~\nSome(\n    Cell {\n        value: Some(\n            5,\n        ),\n    },\n)";
    );
    let cell = RefCell::new(5u8);
    put_rows!(table;
        texts(&RefCellValue::of(&cell)) => "RefCell { value: 5 }~\nRefCell {\n    value: 5,\n}";
    );
    put_borrowed(&mut table, &cell);
    // A cell is read at the call, and not where its value prints.
    let cell = Cell::new(1u8);
    let value = CellValue::of(&cell);
    cell.set(2);
    put_rows!(table;
        plain(&value) => "Cell { value: 1 }";
        plain(&CellValue::of(&cell)) => "Cell { value: 2 }";
    );
    has_wanted_rows(&rt, &table);
}

// A queue of 3, 4, 5 and 6, of which the last two are at the start of its memory.
fn wrapped(alloc: Global) -> Result<VecDeque<u8>, AllocError> {
    let mut queue = VecDeque::with_capacity(alloc, 4)?;
    for item in [1, 2, 3, 4] {
        queue.push_back(item)?;
    }
    queue.pop_front();
    queue.pop_front();
    queue.push_back(5)?;
    queue.push_back(6)?;
    Ok(queue)
}

// The row above would show nothing of a queue in one slice.
#[test]
fn the_wrapped_queue_is_in_two_slices(rt: HostRuntime) {
    let lengths = wrapped(rt.alloc()).map(|queue| {
        let (front, back) = queue.as_slices();
        (front.len(), back.len())
    });
    same(&rt, lengths, Ok((2, 2)), "slices");
}

fn hashed_set(alloc: Global, items: &[u8]) -> Result<HashSet<u8>, AllocError> {
    let mut set = HashSet::new(alloc);
    for item in items {
        set.insert(*item)?;
    }
    Ok(set)
}

fn hashed_map(alloc: Global, keys: &[u8]) -> Result<HashMap<u8, Option<bool>>, AllocError> {
    let mut map = HashMap::new(alloc);
    for key in keys {
        map.insert(*key, Some(true))?;
    }
    Ok(map)
}

#[test]
fn queues_and_hashed_collections_print_as_by_core_fmt(rt: HostRuntime) {
    let mut table = Table::new(rt.alloc());
    put_rows!(table;
        texts_of_made(wrapped(rt.alloc())) => "[3, 4, 5, 6]~\n[\n    3,\n    4,\n    5,\n    6,\n]";
        texts_of_made(BinaryHeap::from_array(rt.alloc(), [2u8, 3, 1])) => "[3, 2, 1]~\n[\n    3,\n    2,\n    1,\n]";
        texts_of_made(hashed_set(rt.alloc(), &[])) => "{}";
        texts_of_made(hashed_set(rt.alloc(), &[1])) => "{1}~\n{\n    1,\n}";
        texts_of_made(hashed_map(rt.alloc(), &[])) => "{}";
        texts_of_made(hashed_map(rt.alloc(), &[1])) => "{1: Some(true)}~\n{\n    1: Some(\n        true,\n    ),\n}";
    );
    has_wanted_rows(&rt, &table);
}

// The map's plain text, by its iterator.
fn text_by_iterator(alloc: Global, map: &HashMap<u8, Option<bool>>) -> Result<String, AllocError> {
    let mut text = String::from_str(alloc, "{")?;
    for (key, value) in map {
        if text.len() > 1 {
            text.push_str(", ")?;
        }
        text.push_str(plain_text(alloc, key)?.as_str())?;
        text.push_str(": ")?;
        text.push_str(plain_text(alloc, value)?.as_str())?;
    }
    text.push_str("}")?;
    Ok(text)
}

fn prints_in_order(alloc: Global) -> Result<bool, AllocError> {
    let map = hashed_map(alloc, &[9, 3, 200, 7, 1])?;
    let wanted = text_by_iterator(alloc, &map)?;
    Ok(plain_text(alloc, &map)?.as_str() == wanted.as_str())
}

#[test]
fn a_hashed_map_prints_in_the_order_of_iteration(rt: HostRuntime) {
    same(&rt, prints_in_order(rt.alloc()), Ok(true), "five entries");
}

#[test]
fn ranges_print_as_by_core_fmt(rt: HostRuntime) {
    let mut table = Table::new(rt.alloc());
    put_rows!(table;
        pieces(&(-1i8..=5)) => "-1|..=|5|";
        texts(&('a'..'z')) => "'a'..'z'";
        texts(&("a"..="z")) => "\"a\"..=\"z\"";
        pieces(&Some(1u8..5)) => "Some|(|1|..|5|)|~\nSome|(|\n|    |1|..|5|,\n|)|";
        pieces(&(Some(1u8)..=Some(2))) => "Some|(|1|)|..=|Some|(|2|)|~\nSome|(|\n|    |1|,\n|)|..=|Some|(|\n|    |2|,\n|)|";
        pieces(&(..Some(1u8))) => "..|Some|(|1|)|~\n..|Some|(|\n|    |1|,\n|)|";
        pieces(&(..=(1u8, 2u8))) => "..=||(|1|, |2|)|~\n..=||(|\n|    |1|,\n|    |2|,\n|)|";
        pieces(&((1u8,)..)) => "|(|1|,|)|..|~\n|(|\n|    |1|,\n|)|..|";
        pieces(&(..)) => "..|";
    );
    let (mut range, mut from_back) = (1u8..=2, -1i8..=0);
    let (mut last, mut backward) = (u8::MAX..=u8::MAX, 5u8..=1);
    range.next();
    put_rows!(table; texts(&range) => "2..=2";);
    range.next();
    put_rows!(table; pieces(&range) => "2|..=|2| (exhausted)|";);
    range.next();
    from_back.next_back();
    from_back.next_back();
    last.next();
    backward.next();
    put_rows!(table;
        texts(&range) => "2..=2 (exhausted)";
        texts(&from_back) => "-1..=-1 (exhausted)";
        texts(&Some(last)) => "Some(255..=255 (exhausted))~\nSome(\n    255..=255 (exhausted),\n)";
        texts(&backward) => "5..=1";
    );
    has_wanted_rows(&rt, &table);
}
