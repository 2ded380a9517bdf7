//! Tests of numbers: each is one piece by both traits and in both modes, and its decimal text is right. Other numbers of each
//! width, such as powers of ten and their neighbours, are rows of tools/data/rows, also as nonzero ones.
use super::asserts::{has_wanted_rows, same};
use std::alloc::Global;
use std::fmt::Display;
use std::num::NonZeroI8;
use test_rows::put_rows;
use test_rows::rows::Table;
use ufmt::{Formatter, uDebug};

#[test]
fn numbers_print_as_one_piece(rt: HostRuntime) {
    let mut table = Table::new(rt.alloc());
    put_rows!(table;
        number(u8::MAX) => "255|";
        number(u16::MAX) => "65535|";
        number(u32::MAX) => "4294967295|";
        number(u64::MAX) => "18446744073709551615|";
        number(usize::MAX) => "18446744073709551615|";
        number(u128::MAX) => "340282366920938463463374607431768211455|";
        number(i8::MIN) => "-128|";
        number(i16::MIN) => "-32768|";
        number(i32::MIN) => "-2147483648|";
        number(i64::MIN) => "-9223372036854775808|";
        number(isize::MIN) => "-9223372036854775808|";
        number(i128::MIN) => "-170141183460469231731687303715884105728|";
        number(NonZeroI8::MIN) => "-128|";
    );
    has_wanted_rows(&rt, &table);
}

// Whether the number prints as by `to_string`. Without memory this is false.
fn is_decimal<N: uDebug + Display + Drop>(alloc: Global, n: N) -> bool {
    let mut text = String::new(alloc);
    let printed = uDebug::fmt(&n, &mut Formatter::new(&mut text));
    let expected = n.to_string(alloc);
    printed.is_ok() && expected.is_ok_and(|expected| text.as_str() == expected.as_str())
}

#[test]
fn each_number_of_two_bytes_prints_as_by_to_string(rt: HostRuntime) {
    let alloc = rt.alloc();
    for n in 0..=u16::MAX {
        let are_decimal = is_decimal(alloc, n)
            && is_decimal(alloc, u64::from(n))
            && is_decimal(alloc, u128::from(n))
            && is_decimal(alloc, n.cast_signed());
        same(&rt, (n, are_decimal), (n, true), "two bytes");
    }
}
