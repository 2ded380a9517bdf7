//! Tests of what `fields!` and `variants!` evaluate, also where they take values apart, with field names that they may use
//! themselves.
use super::super::asserts::has_wanted_rows;
use super::Turns;
use std::alloc::AllocError;
use test_rows::rows::Table;
use ufmt::{Formatter, fields, variants};

#[derive(Drop)]
struct Unit;

// With names that a macro may use itself.
#[derive(Drop)]
struct Names {
    f: u8,
    formatter: u8,
}

#[derive(Drop)]
struct Two(u8, u8);

#[derive(Drop)]
struct Thirteen(u8, u8, u8, u8, u8, u8, u8, u8, u8, u8, u8, u8, u8);

#[derive(Drop)]
enum Event {
    Started,
    Said(u8, u8),
    Lost { since: u8 },
}

// A struct, one that ends in dots, and a tuple, with the values of these numbers.
macro_rules! named {
    ($f:ident, $turns:ident; $($field:ident $number:literal)*) => {
        fields!($turns.formatter($f), S { $($field: $turns.number($number)),* })
    };
}

macro_rules! with_dots {
    ($f:ident, $turns:ident; $($field:ident $number:literal)*) => {
        fields!($turns.formatter($f), S { $($field: $turns.number($number),)* .. })
    };
}

macro_rules! unnamed {
    ($f:ident, $turns:ident; $($number:literal)*) => {
        fields!($turns.formatter($f), S($($turns.number($number)),*))
    };
}

type Text = Formatter<String>;

type Outcome = Result<(), AllocError>;

/// A form's result, and what is wanted of its row: its turns and the text that it prints.
type Evaluated = (Outcome, &'static str);

// Forms with no field, with one and with two.
fn print_few(number: usize, f: &mut Text, turns: &mut Turns) -> Evaluated {
    let (a, b) = (1u8, 2u8);
    of_number!(number;
        0 => fields!(turns.formatter(f), S), "F=S";
        1 => fields!(turns.formatter(f), S {}), "F=S";
        2 => fields!(turns.formatter(f), S()), "F=S";
        3 => named!(f, turns; a 1), "Fa=S { a: 1 }";
        4 => unnamed!(f, turns; 1), "Fa=S(1)";
        5 => named!(f, turns; a 1 b 2), "Fab=S { a: 1, b: 2 }";
        6 => unnamed!(f, turns; 1 2), "Fab=S(1, 2)";
        _ => fields!(turns.formatter(f), S { a, b }), "F=S { a: 1, b: 2 }";
    )
}

// Forms that take a value apart. The fields that aren't named are not shown.
fn print_apart(number: usize, f: &mut Text, turns: &mut Turns) -> Evaluated {
    let (unit, names, two) = (Unit, Names { f: 1, formatter: 2 }, Two(1, 2));
    of_number!(number;
        8 => fields!(turns.formatter(f), unit, Unit), "F=Unit";
        9 => fields!(turns.formatter(f), names, Names { formatter, f }), "F=Names { formatter: 2, f: 1 }";
        10 => fields!(turns.formatter(f), two, Two(f, g)), "F=Two(1, 2)";
        11 => fields!(turns.formatter(f), names, Names { .. }), "F=Names { .. }";
        12 => fields!(turns.formatter(f), names, Names { formatter, .. }), "F=Names { formatter: 2, .. }";
        _ => fields!(turns.formatter(f), names, Names { formatter, f, .. }), "F=Names { formatter: 2, f: 1, .. }";
    )
}

// Forms with dots: with no field, with one and with two.
fn print_few_with_dots(number: usize, f: &mut Text, turns: &mut Turns) -> Evaluated {
    let (a, b) = (1u8, 2u8);
    of_number!(number;
        14 => fields!(turns.formatter(f), S { .. }), "F=S { .. }";
        15 => with_dots!(f, turns; a 1), "Fa=S { a: 1, .. }";
        16 => with_dots!(f, turns; a 1 b 2), "Fab=S { a: 1, b: 2, .. }";
        _ => fields!(turns.formatter(f), S { a, b, .. }), "F=S { a: 1, b: 2, .. }";
    )
}

// Twelve fields, which one call takes, or thirteen, which make a chain. Beside a form of so many, its long text would take
// the check past its limit of steps, so it is beside the call.
fn print_named(count: usize, f: &mut Text, turns: &mut Turns) -> Outcome {
    match count {
        12 => named!(f, turns; a 1 b 2 c 3 d 4 e 5 f 6 g 7 h 8 i 9 j 10 k 11 l 12),
        _ => named!(f, turns; a 1 b 2 c 3 d 4 e 5 f 6 g 7 h 8 i 9 j 10 k 11 l 12 m 13),
    }
}

fn print_unnamed(count: usize, f: &mut Text, turns: &mut Turns) -> Outcome {
    match count {
        12 => unnamed!(f, turns; 1 2 3 4 5 6 7 8 9 10 11 12),
        _ => unnamed!(f, turns; 1 2 3 4 5 6 7 8 9 10 11 12 13),
    }
}

fn print_with_dots(count: usize, f: &mut Text, turns: &mut Turns) -> Outcome {
    match count {
        12 => with_dots!(f, turns; a 1 b 2 c 3 d 4 e 5 f 6 g 7 h 8 i 9 j 10 k 11 l 12),
        _ => with_dots!(f, turns; a 1 b 2 c 3 d 4 e 5 f 6 g 7 h 8 i 9 j 10 k 11 l 12 m 13),
    }
}

fn print_thirteen(f: &mut Text, turns: &mut Turns) -> Outcome {
    let thirteen = Thirteen(1, 2, 3, 4, 5, 6, 7, 8, 9, 10, 11, 12, 13);
    fields!(
        turns.formatter(f),
        thirteen,
        Thirteen(a, b, c, d, e, f, g, h, i, j, k, l, m)
    )
}

fn print_many(number: usize, f: &mut Text, turns: &mut Turns) -> Evaluated {
    of_number!(number;
        18 => print_named(12, f, turns), "Fabcdefghijkl=S { a: 1, b: 2, c: 3, d: 4, e: 5, f: 6, g: 7, h: 8, i: 9, j: 10, k: 11, l: 12 }";
        19 => print_unnamed(12, f, turns), "Fabcdefghijkl=S(1, 2, 3, 4, 5, 6, 7, 8, 9, 10, 11, 12)";
        20 => print_with_dots(12, f, turns), "Fabcdefghijkl=S { a: 1, b: 2, c: 3, d: 4, e: 5, f: 6, g: 7, h: 8, i: 9, j: 10, k: 11, l: 12, .. }";
        21 => print_named(13, f, turns), "Fabcdefghijklm=S { a: 1, b: 2, c: 3, d: 4, e: 5, f: 6, g: 7, h: 8, i: 9, j: 10, k: 11, l: 12, m: 13 }";
        22 => print_unnamed(13, f, turns), "Fabcdefghijklm=S(1, 2, 3, 4, 5, 6, 7, 8, 9, 10, 11, 12, 13)";
        23 => print_with_dots(13, f, turns), "Fabcdefghijklm=S { a: 1, b: 2, c: 3, d: 4, e: 5, f: 6, g: 7, h: 8, i: 9, j: 10, k: 11, l: 12, m: 13, .. }";
        _ => print_thirteen(f, turns), "F=Thirteen(1, 2, 3, 4, 5, 6, 7, 8, 9, 10, 11, 12, 13)";
    )
}

// A variant of each kind.
fn print_variant(number: usize, f: &mut Text, turns: &mut Turns) -> Evaluated {
    let (event, wanted) = match number {
        25 => (Event::Started, "F=Started"),
        26 => (Event::Said(1, 2), "F=Said(1, 2)"),
        _ => (Event::Lost { since: 3 }, "F=Lost { since: 3 }"),
    };
    let event = &event;
    let outcome =
        variants!(turns.formatter(f), event, Event { Started, Said(a, b), Lost { since } });
    (outcome, wanted)
}

// The turns, and the text that is printed.
fn row(outcome: Outcome, turns: Turns, f: Text) -> Result<String, AllocError> {
    outcome?;
    let mut row = turns.noted;
    row.push('=')?;
    row.push_str(f.into_inner().as_str())?;
    Ok(row)
}

fn put_row(table: &mut Table, number: usize) {
    let mut turns = Turns::new(table.alloc());
    let mut f = Formatter::new(String::new(table.alloc()));
    let (outcome, wanted) = match number {
        0..=7 => print_few(number, &mut f, &mut turns),
        8..=13 => print_apart(number, &mut f, &mut turns),
        14..=17 => print_few_with_dots(number, &mut f, &mut turns),
        18..=24 => print_many(number, &mut f, &mut turns),
        _ => print_variant(number, &mut f, &mut turns),
    };
    table.put_made(row(outcome, turns, f));
    table.wants(wanted);
}

#[test]
fn fields_and_variants_evaluate_in_order(rt: HostRuntime) {
    let mut table = Table::new(rt.alloc());
    for number in 0..28usize {
        put_row(&mut table, number);
    }
    has_wanted_rows(&rt, &table);
}
