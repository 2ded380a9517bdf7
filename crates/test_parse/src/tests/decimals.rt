//! Tests of fixed-point numbers in other values, and of values that come back. Their texts are rows of tools/data/rows.
use super::{first_other, same};
use example_parse::Supply;
use test_rows::printed::decimal;
use ufmt::Decimal;
use ufmt_parse::{parse, round_trip, round_trip_in};

#[test]
fn numbers_in_a_struct_a_tuple_and_a_list(rt: HostRuntime) {
    let alloc = rt.alloc();
    let (channel, volts) = (2, decimal(-1250, 2));
    let supply = Supply { channel, volts };
    let text = b"Supply { channel: 2, volts: -12.50 }";
    same(&rt, parse((), text), Ok(supply), "a struct");
    same(&rt, round_trip(alloc, &supply), Ok(supply), "again");
    all_stop!(rt, Supply;
        "Supply { channel: 2, volts: -12.50 }" => "";
        "Supply { channel: 2, volts: -12.5. }" => "33 Punctuation";
        "Supply { channel: 2, volts: -12. }" => "28 Number";
        "Supply { channel: 2, volts: }" => "28 Number";
    );
    all_stop!(rt, (Decimal, Decimal);
        "(1.50, -0.05)" => "";
        "(1.50, -0.)" => "7 Number";
        "(1.50.5, 1)" => "5 Punctuation";
        "(1.50, 01)" => "7 Number";
    );
    all_stop!(rt, Vec<Decimal>;
        "[1.5, 1.50, -0.05, 0]" => "";
        "[1.5,1.50]" => "4 Punctuation";
        "[1.5, -0]" => "6 Number";
        "[1.5" => "4 Punctuation";
    );
}

#[test]
fn a_value_comes_back(rt: HostRuntime) {
    for (value, places) in [
        (i64::MIN, 255),
        (i64::MAX, 255),
        (i64::MIN, 19),
        (-1, 1),
        (0, 0),
    ] {
        let value = decimal(value, places);
        same(&rt, round_trip(rt.alloc(), &value), Ok(value), "in memory");
        let mut buffer = [0; 300];
        let found = round_trip_in((), &mut buffer, &value);
        same(&rt, found, Ok(Some(value)), "in a buffer");
    }
}
