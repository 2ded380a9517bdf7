//! Tests of the pieces of a `Decimal`, and of the lines of `example_print` with numbers as firmware prints them. The texts of
//! decimals are rows of tools/data/rows.
use super::asserts::has_wanted_rows;
use example_print::{Time, write_status, write_time};
use test_rows::printed::{ZeroPadded, decimal};
use test_rows::rows::Table;
use test_rows::{put_filled, put_rows, rows_of};

#[test]
fn decimals_print_in_pieces(rt: HostRuntime) {
    let mut table = Table::new(rt.alloc());
    let (number, other) = (decimal(-125, 1), decimal(7, 0));
    put_rows!(table;
        number(decimal(-125, 1)) => "-|12|.|5|";
        number(decimal(-5, 2)) => "-|0|.|0|5|";
        number(decimal(7, 0)) => "7|";
        pieces(&ZeroPadded { number, width: 7 }) => "-|0|0|12|.|5|";
        pieces(&ZeroPadded { number: other, width: 3 }) => "0|0|7|";
    );
    has_wanted_rows(&rt, &table);
}

fn time(hours: u8, minutes: u8, seconds: u8, milliseconds: u16) -> Time {
    Time {
        hours,
        minutes,
        seconds,
        milliseconds,
    }
}

// By rustc: {:02}:{:02}:{:02}.{:03} of the time, and {:.1} {:#010b} of the temperature as an f64 and of the flags.
#[test]
fn lines_of_numbers_print_as_by_rustc(rt: HostRuntime) {
    let mut table = Table::new(rt.alloc());
    for (time, wanted) in rows_of![
        time(12, 7, 5, 42) => "Ok(12) 12:07:05.042~~~~~";
        time(0, 0, 0, 0) => "Ok(12) 00:00:00.000~~~~~";
        time(23, 59, 59, 999) => "Ok(12) 23:59:59.999~~~~~";
        time(255, 255, 255, 65535) => "Ok(17) 255:255:255.65535";
    ] {
        put_filled!(table; buffer[17] write_time(buffer, &time); 17 => wanted;);
    }
    for (tenths, flags, wanted) in rows_of![
        -125, 0x25 => "Ok(16) -12.5 0b00100101~";
        0, 0 => "Ok(14) 0.0 0b00000000~~~";
        5, 255 => "Ok(14) 0.5 0b11111111~~~";
        -5, 1 => "Ok(15) -0.5 0b00000001~~";
        10000, 128 => "Ok(17) 1000.0 0b10000000";
    ] {
        put_filled!(table; buffer[17] write_status(buffer, tenths, flags); 17 => wanted;);
    }
    put_filled!(table; buffer[12] write_time(buffer, &time(12, 7, 5, 42)); 9 => "Err(Full) 12:07:05.~~~";);
    put_filled!(table; buffer[12] write_status(buffer, -125, 0x25); 10 => "Err(Full) -12.5 0b00~~";);
    has_wanted_rows(&rt, &table);
}
