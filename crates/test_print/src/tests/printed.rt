//! Rows of what one call prints.
use std::alloc::AllocError;
use test_rows::rows::Table;
use ufmt::Formatter;

/// Adds a row of what each of these calls prints to the formatter `$f`, and after an arrow what is wanted of it.
macro_rules! put_printed {
    ($table:ident, $f:ident; $($call:expr => $wanted:literal)*) => {
        $(let mut formatter = Formatter::new(String::new($table.alloc()));
        let $f = &mut formatter;
        let outcome = $call;
        $crate::tests::printed::put_row($table, outcome, formatter, $wanted);)*
    };
}

pub(crate) use put_printed;

pub fn put_row(
    table: &mut Table,
    outcome: Result<(), AllocError>,
    f: Formatter<String>,
    wanted: &str,
) {
    match outcome {
        Ok(()) => table.put(f.into_inner().as_str()),
        Err(_) => table.put_nothing(),
    }
    table.wants(wanted);
}
