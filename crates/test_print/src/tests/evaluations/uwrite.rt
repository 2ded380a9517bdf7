//! Tests of what `uwrite!` and `uwriteln!` evaluate.
use super::super::asserts::has_wanted_rows;
use super::Turns;
use std::alloc::{AllocError, Global};
use test_rows::rows::Table;
use test_rows::writers::FailAt;
use ufmt::{Formatter, Full, uwrite, uwriteln};

// Each kind of piece by itself. Beside it is what is wanted by `uwrite!`, and by `uwriteln!`.
macro_rules! one_piece {
    ($write:ident, $number:expr, $f:expr, $turns:expr $(, $end:tt)?) => {
        match $number {
            0 => ($write!($turns.formatter($f), text $turns.text(1, "x") $($end)?), ("Fa! Fa=x", "Fa! Fa!x Fa=x\n")),
            1 => ($write!($turns.formatter($f), display $turns.number(1) $($end)?), ("Fa! Fa=1", "Fa! Fa!1 Fa=1\n")),
            2 => ($write!($turns.formatter($f), debug $turns.number(1) $($end)?), ("Fa! Fa=1", "Fa! Fa!1 Fa=1\n")),
            3 => ($write!($turns.formatter($f), pretty $turns.number(1) $($end)?), ("Fa! Fa=1", "Fa! Fa!1 Fa=1\n")),
            4 => ($write!($turns.formatter($f), hex ($turns.number(1)) with $turns.options() $($end)?), ("FaO! FaO=1", "FaO! FaO!1 FaO=1\n")),
            5 => ($write!($turns.formatter($f), debug ($turns.number(1)) in $turns.column() $($end)?), ("FaC! FaC=1", "FaC! FaC!1 FaC=1\n")),
            6 => ($write!($turns.formatter($f), hex ($turns.number(1)) with ($turns.options()) in $turns.column() $($end)?), ("FaOC! FaOC=1", "FaOC! FaOC!1 FaOC=1\n")),
            7 => ($write!($turns.formatter($f), bin ($turns.number(1)) with $turns.options() $($end)?), ("FaO! FaO=1", "FaO! FaO!1 FaO=1\n")),
            8 => ($write!($turns.formatter($f), oct ($turns.number(1)) with $turns.options() $($end)?), ("FaO! FaO=1", "FaO! FaO!1 FaO=1\n")),
            9 => ($write!($turns.formatter($f), zeros ($turns.number(1)) to $turns.width() $($end)?), ("FaW! FaW=1", "FaW! FaW!1 FaW=1\n")),
            _ => ($write!($turns.formatter($f), zeros ($turns.number(1)) to ($turns.width()) in $turns.column() $($end)?), ("FaWC! FaWC=1", "FaWC! FaWC!1 FaWC=1\n")),
        }
    };
}

type Written<'a> = Formatter<FailAt<'a>>;

/// A call's result, and what is wanted of the form's row.
type Evaluated = (Result<(), Full>, &'static str);

fn write_one(number: usize, f: &mut Written<'_>, turns: &mut Turns) -> Evaluated {
    let (outcome, (wanted, _)) = one_piece!(uwrite, number, f, turns);
    (outcome, wanted)
}

fn write_one_with_comma(number: usize, f: &mut Written<'_>, turns: &mut Turns) -> Evaluated {
    let (outcome, (wanted, _)) = one_piece!(uwrite, number, f, turns, ,);
    (outcome, wanted)
}

fn write_line(number: usize, f: &mut Written<'_>, turns: &mut Turns) -> Evaluated {
    let (outcome, (_, wanted)) = one_piece!(uwriteln, number, f, turns);
    (outcome, wanted)
}

fn write_line_with_comma(number: usize, f: &mut Written<'_>, turns: &mut Turns) -> Evaluated {
    let (outcome, (_, wanted)) = one_piece!(uwriteln, number, f, turns, ,);
    (outcome, wanted)
}

// Each kind of piece as the first, in the middle and as the last.
fn write_three(number: usize, f: &mut Written<'_>, turns: &mut Turns) -> Evaluated {
    of_number!(number;
        0 => uwrite!(turns.formatter(f), text turns.text(1, "x"), display turns.number(2), debug turns.number(3)), "Fa! Fab!x Fabc!x2 Fabc=x23";
        1 => uwrite!(turns.formatter(f), display turns.number(1), debug turns.number(2), pretty turns.number(3)), "Fa! Fab!1 Fabc!12 Fabc=123";
        2 => uwrite!(turns.formatter(f), debug turns.number(1), pretty turns.number(2), hex (turns.number(3)) with turns.options()), "Fa! Fab!1 FabcO!12 FabcO=123";
        3 => uwrite!(turns.formatter(f), pretty turns.number(1), hex (turns.number(2)) with turns.options(), text turns.text(3, "x")), "Fa! FabO!1 FabOc!12 FabOc=12x";
        _ => uwrite!(turns.formatter(f), hex (turns.number(1)) with turns.options(), text turns.text(2, "x"), display turns.number(3)), "FaO! FaOb!1 FaObc!1x FaObc=1x3";
    )
}

// Each kind of piece once, in lines of two and of three pieces.
fn write_longer_line(number: usize, f: &mut Written<'_>, turns: &mut Turns) -> Evaluated {
    of_number!(number;
        0 => uwriteln!(turns.formatter(f), pretty turns.number(1), hex (turns.number(2)) with turns.options()), "Fa! FabO!1 FabO!12 FabO=12\n";
        _ => uwriteln!(turns.formatter(f), text turns.text(1, "x"), display turns.number(2), debug turns.number(3)), "Fa! Fab!x Fabc!x2 Fabc!x23 Fabc=x23\n";
    )
}

/// How many pieces, by which macro, and whether a comma follows the last.
#[derive(Clone, Copy)]
enum Form {
    One,
    OneWithComma,
    Three,
    Line,
    LineWithComma,
    LongerLine,
}

impl Form {
    fn write(self, number: usize, f: &mut Written<'_>, turns: &mut Turns) -> Evaluated {
        match self {
            Form::One => write_one(number, f, turns),
            Form::OneWithComma => write_one_with_comma(number, f, turns),
            Form::Three => write_three(number, f, turns),
            Form::Line => write_line(number, f, turns),
            Form::LineWithComma => write_line_with_comma(number, f, turns),
            Form::LongerLine => write_longer_line(number, f, turns),
        }
    }

    // The turns and the text of calls whose writer refuses the first piece, the second, and so on.
    // Between them is `!` if the call fails, and `=` if not. Then the row that is wanted.
    fn row(self, alloc: Global, number: usize) -> Result<(String, &'static str), AllocError> {
        let mut row = String::new(alloc);
        let mut wanted = "";
        for refused in 1..6usize {
            let mut bytes = [0; 8];
            let mut turns = Turns::new(alloc);
            let mut f = Formatter::new(FailAt::once(&mut bytes, refused));
            let evaluated = self.write(number, &mut f, &mut turns);
            let writer = f.into_inner();
            wanted = evaluated.1;
            row.push_str(turns.noted.as_str())?;
            row.push(if evaluated.0.is_ok() { '=' } else { '!' })?;
            row.push_str(str::from_utf8(writer.written()).unwrap_or("bytes"))?;
            if evaluated.0.is_ok() {
                break;
            }
            row.push(' ')?;
        }
        Ok((row, wanted))
    }

    fn put_rows(self, table: &mut Table, count: usize) {
        for number in 0..count {
            match self.row(table.alloc(), number) {
                Ok((row, wanted)) => {
                    table.put(row.as_str());
                    table.wants(wanted);
                }
                Err(_) => table.put_nothing(),
            }
        }
    }
}

// A piece is evaluated after the one before it is written, and none after a failure. A comma at the end changes
// nothing.
#[test]
fn uwrite_evaluates_a_piece_after_writing_the_one_before(rt: HostRuntime) {
    let mut table = Table::new(rt.alloc());
    for (form, count) in [
        (Form::One, 11),
        (Form::OneWithComma, 11),
        (Form::Three, 5),
        (Form::Line, 11),
        (Form::LineWithComma, 11),
        (Form::LongerLine, 2),
    ] {
        form.put_rows(&mut table, count);
    }
    has_wanted_rows(&rt, &table);
}
