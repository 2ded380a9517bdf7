//! Tests of what `pieces!` evaluates: all of its values, before a piece can be written.
use super::super::asserts::has_wanted_rows;
use super::Turns;
use test_rows::rows::Table;
use ufmt::pieces;
use ufmt::pieces::Line;

// The line is made, and not written.
fn take<L: Line>(_line: &L) {}

// Each kind of piece by itself, with the turns that are wanted.
macro_rules! one_piece {
    ($number:expr, $turns:expr $(, $end:tt)?) => {
        match $number {
            0 => { take(&pieces!(text $turns.text(1, "x") $($end)?)); "a" }
            1 => { take(&pieces!(display $turns.number(1) $($end)?)); "a" }
            2 => { take(&pieces!(debug $turns.number(1) $($end)?)); "a" }
            3 => { take(&pieces!(pretty $turns.number(1) $($end)?)); "a" }
            4 => { take(&pieces!(hex ($turns.number(1)) with $turns.options() $($end)?)); "aO" }
            5 => { take(&pieces!(each display ($turns.items(1)) between $turns.separator() $($end)?)); "aS" }
            6 => { take(&pieces!(each debug ($turns.items(1)) between $turns.separator() $($end)?)); "aS" }
            7 => { take(&pieces!(each pretty ($turns.items(1)) between $turns.separator() $($end)?)); "aS" }
            8 => { take(&pieces!(each hex ($turns.items(1)) with ($turns.options()) between $turns.separator() $($end)?)); "aOS" }
            9 => { take(&pieces!(display ($turns.number(1)) in $turns.column() $($end)?)); "aC" }
            10 => { take(&pieces!(hex ($turns.number(1)) with ($turns.options()) in $turns.column() $($end)?)); "aOC" }
            11 => { take(&pieces!(each debug ($turns.items(1)) in ($turns.column()) between $turns.separator() $($end)?)); "aCS" }
            12 => { take(&pieces!(each hex ($turns.items(1)) with ($turns.options()) in ($turns.column()) between $turns.separator() $($end)?)); "aOCS" }
            13 => { take(&pieces!(each ($turns.items(1)) by ($turns.mark()) between $turns.separator() $($end)?)); "aMS" }
            14 => { take(&pieces!(bin ($turns.number(1)) with $turns.options() $($end)?)); "aO" }
            15 => { take(&pieces!(oct ($turns.number(1)) with $turns.options() $($end)?)); "aO" }
            16 => { take(&pieces!(zeros ($turns.number(1)) to $turns.width() $($end)?)); "aW" }
            17 => { take(&pieces!(each zeros ($turns.items(1)) to ($turns.width()) between $turns.separator() $($end)?)); "aWS" }
            _ => { take(&pieces!(zeros ($turns.number(1)) to ($turns.width()) in $turns.column() $($end)?)); "aWC" }
        }
    };
}

fn make_one(number: usize, turns: &mut Turns) -> &'static str {
    one_piece!(number, turns)
}

fn make_one_with_comma(number: usize, turns: &mut Turns) -> &'static str {
    one_piece!(number, turns, ,)
}

// Each kind of piece as the first, in the middle and as the last.
fn make_three(number: usize, turns: &mut Turns) -> &'static str {
    let ((), wanted) = of_number!(number;
        0 => take(&pieces!(text turns.text(1, "x"), pretty turns.number(2), each debug (turns.items(3)) between turns.separator())), "abcS";
        1 => take(&pieces!(display turns.number(1), hex (turns.number(2)) with turns.options(), each pretty (turns.items(3)) between turns.separator())), "abOcS";
        2 => take(&pieces!(debug turns.number(1), each display (turns.items(2)) between turns.separator(), each hex (turns.items(3)) with (turns.options()) between turns.separator())), "abScOS";
        3 => take(&pieces!(pretty turns.number(1), each debug (turns.items(2)) between turns.separator(), each (turns.items(3)) by (turns.mark()) between turns.separator())), "abScMS";
        4 => take(&pieces!(hex (turns.number(1)) with turns.options(), each pretty (turns.items(2)) between turns.separator(), text turns.text(3, "x"))), "aObSc";
        5 => take(&pieces!(each display (turns.items(1)) between turns.separator(), each hex (turns.items(2)) with (turns.options()) between turns.separator(), display turns.number(3))), "aSbOSc";
        6 => take(&pieces!(each debug (turns.items(1)) between turns.separator(), each (turns.items(2)) by (turns.mark()) between turns.separator(), debug turns.number(3))), "aSbMSc";
        7 => take(&pieces!(each pretty (turns.items(1)) between turns.separator(), text turns.text(2, "x"), pretty turns.number(3))), "aSbc";
        8 => take(&pieces!(each hex (turns.items(1)) with (turns.options()) between turns.separator(), display turns.number(2), hex (turns.number(3)) with turns.options())), "aOSbcO";
        _ => take(&pieces!(each (turns.items(1)) by (turns.mark()) between turns.separator(), debug turns.number(2), each display (turns.items(3)) between turns.separator())), "aMSbcS";
    );
    wanted
}

/// How many pieces, and whether a comma follows the last.
#[derive(Clone, Copy)]
enum Form {
    One,
    OneWithComma,
    Three,
}

impl Form {
    fn make(self, number: usize, turns: &mut Turns) -> &'static str {
        match self {
            Form::One => make_one(number, turns),
            Form::OneWithComma => make_one_with_comma(number, turns),
            Form::Three => make_three(number, turns),
        }
    }
}

fn put_rows(table: &mut Table, form: Form, count: usize) {
    for number in 0..count {
        let mut turns = Turns::new(table.alloc());
        let wanted = form.make(number, &mut turns);
        table.put(turns.noted.as_str());
        table.wants(wanted);
    }
}

// A comma at the end changes nothing.
#[test]
fn pieces_evaluates_in_order(rt: HostRuntime) {
    let mut table = Table::new(rt.alloc());
    put_rows(&mut table, Form::One, 19);
    put_rows(&mut table, Form::OneWithComma, 19);
    put_rows(&mut table, Form::Three, 10);
    has_wanted_rows(&rt, &table);
}
