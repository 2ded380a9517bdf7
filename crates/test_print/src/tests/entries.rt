//! Tests of how many items `entries` takes if the writer fails.
ghost use Rattle.std.specs.Prelude.{◌-◌};
ghost use Rattle.std.specs.Iterator.{at_most};

use super::asserts::same;
use test_rows::writers::FailAt;
use ufmt::{Cursor, Formatter, Full, uWrite};

/// The numbers 1 to 9, with how many of them were taken.
#[derive(Drop)]
struct Numbers {
    taken: u8,
}

impl Iterator for Numbers {
    type Item = u8;

    ghost remaining = { λ s. at_most (9 - s.taken) };

    fn next(&mut self) -> Option<u8> {
        if self.taken >= 9 {
            return None;
        }
        self.taken += 1;
        Some(self.taken)
    }
}

/// Pairs of each number and itself.
#[derive(Drop)]
struct Pairs<'a> {
    numbers: &'a mut Numbers,
}

impl Iterator for Pairs<'_> {
    type Item = (u8, u8);

    ghost remaining = { λ s. at_most (9 - s.numbers.now.taken) };

    fn next(&mut self) -> Option<(u8, u8)> {
        let number = self.numbers.next()?;
        Some((number, number))
    }
}

macro_rules! write_entries {
    ($builder:expr, $entries:expr) => {{
        let mut builder = $builder?;
        builder.entries($entries)?;
        builder.finish()
    }};
}

/// A block that is written by `entries`.
#[derive(Clone, Copy)]
enum Block {
    List,
    Set,
    Map,
}

impl Block {
    fn write<W: uWrite>(self, f: &mut Formatter<W>, numbers: &mut Numbers) -> Result<(), W::Error> {
        match self {
            Block::List => write_entries!(f.debug_list(), numbers),
            Block::Set => write_entries!(f.debug_set(), numbers),
            Block::Map => write_entries!(f.debug_map(), Pairs { numbers }),
        }
    }

    // The result in this mode, and how many numbers were taken.
    fn write_in<W: uWrite>(
        self,
        is_pretty: bool,
        f: &mut Formatter<W>,
    ) -> (Result<(), W::Error>, u8) {
        let mut numbers = Numbers { taken: 0 };
        let outcome = if is_pretty {
            f.pretty(|f| self.write(f, &mut numbers))
        } else {
            self.write(f, &mut numbers)
        };
        (outcome, numbers.taken)
    }
}

// The first piece whose refusal comes after a wrong number of items. A row has a piece and the
// items that are taken before its refusal.
fn wrong_number(block: Block, is_pretty: bool, rows: &[(usize, u8)]) -> Option<usize> {
    for (number, taken) in rows {
        let mut buffer = [0; 200];
        let mut f = Formatter::new(FailAt::once(&mut buffer, *number));
        if block.write_in(is_pretty, &mut f) != (Err(Full), *taken) {
            return Some(*number);
        }
    }
    None
}

// The bracket of a plain list is piece 1, its first item 2. A comma and an item are 3 and 4, up to
// 17 and 18. The last bracket is 19. A pretty list has a line feed as piece 2, and then three
// pieces an item.
const PLAIN_ITEMS: [(usize, u8); 7] = [(1, 0), (2, 1), (3, 2), (4, 2), (5, 3), (18, 9), (19, 9)];

const PRETTY_ITEMS: [(usize, u8); 7] = [(1, 0), (2, 1), (5, 1), (6, 2), (8, 2), (29, 9), (30, 9)];

// A pair has three pieces where an item has one: a key, a colon and a value.
const PLAIN_PAIRS: [(usize, u8); 7] = [(1, 0), (2, 1), (4, 1), (5, 2), (8, 2), (36, 9), (37, 9)];

const PRETTY_PAIRS: [(usize, u8); 7] = [(1, 0), (2, 1), (7, 1), (8, 2), (12, 2), (47, 9), (48, 9)];

#[test]
fn entries_takes_no_item_after_a_failure(rt: HostRuntime) {
    for (case, block, is_pretty, rows) in [
        ("a plain list", Block::List, false, PLAIN_ITEMS),
        ("a pretty list", Block::List, true, PRETTY_ITEMS),
        ("a plain set", Block::Set, false, PLAIN_ITEMS),
        ("a pretty set", Block::Set, true, PRETTY_ITEMS),
        ("a plain map", Block::Map, false, PLAIN_PAIRS),
        ("a pretty map", Block::Map, true, PRETTY_PAIRS),
    ] {
        same(&rt, wrong_number(block, is_pretty, &rows), None, case);
    }
}

#[test]
fn entries_takes_the_item_that_does_not_fit(rt: HostRuntime) {
    let mut buffer = [0; 3];
    let mut f = Formatter::new(Cursor::new(&mut buffer));
    let given = Block::List.write_in(false, &mut f);
    same(&rt, given, (Err(Full), 2), "the second doesn't fit");
    let cursor = f.into_inner();
    let left = (cursor.written(), cursor.remaining());
    same(&rt, left, (b"[1".as_slice(), 1), "the second doesn't fit");
}
