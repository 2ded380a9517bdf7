//! Tests of the mark `fixed` and of `Fixed`: columns, fields, and steps that buffers bound. Texts of floats, also with decimals, are
//! rows of tools/data/rows.
ghost use Rattle.std.specs.Prelude.{[], ◌∷◌};
ghost use Rattle.ufmt.specs.ValueDocuments.{named_struct};

use super::asserts::{has_wanted_rows, same};
use test_rows::printed::{Displayed, column};
use test_rows::rows::Table;
use test_rows::{put_rows, rows_of};
use ufmt::{Align, Fixed, Formatter, Full, laws, line_into, pieces, uDebug, uWrite};
use ufmt_fixed::ShortText;
use ufmt_float::shortest;

// A pressure with one decimal, as a field.
#[derive(Drop)]
struct Sample {
    hectopascal: Fixed<f32>,
}

impl uDebug for Sample {
    ghost document = { λ s. named_struct "Sample"
        (("hectopascal", ⟦<Fixed<f32> as uDebug>⟧.document s.hectopascal) ∷ []) };

    fn fmt<W: uWrite>(&self, f: &mut Formatter<W>) -> Result<(), W::Error> {
        ufmt::fields!(f, self, Sample { hectopascal })
    }
}

#[test]
fn laws_of_decimals_print_items_and_columns(rt: HostRuntime) {
    let mut f = Formatter::new(String::new(rt.alloc()));
    let (left, right) = (column(Align::Left, '*', 6), column(Align::Right, '*', 6));
    let line = laws::line_of_decimals(&mut f, ", ", &0.5f64, &[1.0, -0.125], 2, right);
    let written = laws::uwrite_decimals(&mut f, &0.5f64, 3, left);
    same(&rt, (line.is_ok(), written.is_ok()), (true, true), "laws");
    let wanted = "0.50**0.501.00, -0.12**1.00, *-0.120.5000.500*";
    same(&rt, f.into_inner().as_str(), wanted, "both laws");
}

#[test]
fn a_field_has_its_number_of_decimals(rt: HostRuntime) {
    let mut table = Table::new(rt.alloc());
    let (value, decimals) = (1013.25f32, 1);
    let hectopascal = Fixed { value, decimals };
    put_rows!(table;
        pieces(&Displayed(&hectopascal)) => "1013.2|";
        texts(&Sample { hectopascal }) => "Sample { hectopascal: 1013.2 }~\nSample {\n    hectopascal: 1013.2,\n}";
    );
    has_wanted_rows(&rt, &table);
}

// A text of so many decimals fills a small buffer, and is counted for a column without being printed.
#[test]
fn decimals_that_no_buffer_holds_fail_with_full(rt: HostRuntime) {
    for decimals in [1 << 63, usize::MAX] {
        for width in [0, usize::MAX] {
            for align in [Align::Left, Align::Center, Align::Right] {
                let mut buffer = [0; 8];
                let within = column(align, '*', width);
                let line = pieces!(fixed 0.5f64 to decimals in within);
                same(&rt, line_into(&mut buffer, &line), Err(Full), "decimals");
            }
        }
        let mut buffer = [0; 8];
        let line = pieces!(fixed (f64::NAN) to decimals);
        same(&rt, line_into(&mut buffer, &line), Ok(3), "NaN");
    }
}

#[test]
fn zeros_infinities_and_nan_have_no_shortest_decimal(rt: HostRuntime) {
    for (x, wanted) in rows_of![
        0.0 => None;
        f64::INFINITY => None;
        f64::NAN => None;
        -1500.0 => Some((15, 402));
    ] {
        let given = shortest(x).map(|decimal| (decimal.digits, decimal.power));
        same(&rt, given, wanted, "a decimal");
    }
    same(&rt, shortest(f32::NAN).is_some(), false, "32 bits");
}

// What has no short text takes more steps and stack.
#[test]
fn few_decimals_of_usual_floats_have_short_texts(rt: HostRuntime) {
    for (x, decimals, wanted) in rows_of![
        21.5, 2 => true;
        5e-324, 19 => true;
        9007199254740991.0, 3 => true;
        0.1, 20 => false;
        1e23, 0 => false;
        f64::NAN, 0 => false;
    ] {
        let given = ShortText::of(x, decimals).is_some();
        same(&rt, (decimals, given), (decimals, wanted), "a short text");
    }
    let given = ShortText::of(-0.0f32, 19).is_some();
    same(&rt, given, true, "32 bits");
}
