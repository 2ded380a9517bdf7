//! Tests of `fields!` with the numbers of fields that no type of `example_print` has. More than 12 make
//! a chain. The fields of a block differ in name and value, so a swap shows. Blocks that end in dots have
//! each number of fields.
use super::asserts::has_wanted_rows;
use super::printed::put_printed;
use test_rows::rows::Table;
use ufmt::{Formatter, fields};

fn put_one_to_eight_named(table: &mut Table) {
    put_printed!(table, f;
        fields!(f, S1 { a: 1u8 }) => "S1 { a: 1 }"
        fields!(f, S3 { a: 1u8, b: 2u8, c: 3u8 }) => "S3 { a: 1, b: 2, c: 3 }"
        fields!(f, S4 { a: 1u8, b: 2u8, c: 3u8, d: 4u8 }) => "S4 { a: 1, b: 2, c: 3, d: 4 }"
        fields!(f, S5 { a: 1u8, b: 2u8, c: 3u8, d: 4u8, e: 5u8 }) => "S5 { a: 1, b: 2, c: 3, d: 4, e: 5 }"
        fields!(f, S6 { a: 1u8, b: 2u8, c: 3u8, d: 4u8, e: 5u8, f: 6u8 }) => "S6 { a: 1, b: 2, c: 3, d: 4, e: 5, f: 6 }"
        fields!(f, S7 { a: 1u8, b: 2u8, c: 3u8, d: 4u8, e: 5u8, f: 6u8, g: 7u8 }) => "S7 { a: 1, b: 2, c: 3, d: 4, e: 5, f: 6, g: 7 }"
        fields!(f, S8 { a: 1u8, b: 2u8, c: 3u8, d: 4u8, e: 5u8, f: 6u8, g: 7u8, h: 8u8 }) => "S8 { a: 1, b: 2, c: 3, d: 4, e: 5, f: 6, g: 7, h: 8 }"
    );
}

fn put_nine_to_eleven_named(table: &mut Table) {
    put_printed!(table, f;
        fields!(f, S9 { a: 1u8, b: 2u8, c: 3u8, d: 4u8, e: 5u8, f: 6u8, g: 7u8, h: 8u8, i: 9u8 }) => "S9 { a: 1, b: 2, c: 3, d: 4, e: 5, f: 6, g: 7, h: 8, i: 9 }"
        fields!(f, S10 { a: 1u8, b: 2u8, c: 3u8, d: 4u8, e: 5u8, f: 6u8, g: 7u8, h: 8u8, i: 9u8, j: 10u8 }) => "S10 { a: 1, b: 2, c: 3, d: 4, e: 5, f: 6, g: 7, h: 8, i: 9, j: 10 }"
        fields!(f, S11 { a: 1u8, b: 2u8, c: 3u8, d: 4u8, e: 5u8, f: 6u8, g: 7u8, h: 8u8, i: 9u8, j: 10u8, k: 11u8 }) => "S11 { a: 1, b: 2, c: 3, d: 4, e: 5, f: 6, g: 7, h: 8, i: 9, j: 10, k: 11 }"
    );
}

fn put_many_named(table: &mut Table) {
    put_printed!(table, f;
        fields!(f, S12 { a: 1u8, b: 2u8, c: 3u8, d: 4u8, e: 5u8, f: 6u8, g: 7u8, h: 8u8, i: 9u8, j: 10u8, k: 11u8, l: 12u8 }) => "S12 { a: 1, b: 2, c: 3, d: 4, e: 5, f: 6, g: 7, h: 8, i: 9, j: 10, k: 11, l: 12 }"
        fields!(f, Long { a: 1u8, b: 2u8, c: 3u8, d: 4u8, e: 5u8, f: 6u8, g: 7u8, h: 8u8, i: 9u8, j: 10u8, k: 11u8, l: 12u8, m: 13u8 }) => "Long { a: 1, b: 2, c: 3, d: 4, e: 5, f: 6, g: 7, h: 8, i: 9, j: 10, k: 11, l: 12, m: 13 }"
    );
}

fn put_none_to_seven_with_dots(table: &mut Table) {
    put_printed!(table, f;
        fields!(f, D0 { .. }) => "D0 { .. }"
        fields!(f, D1 { a: 1u8, .. }) => "D1 { a: 1, .. }"
        fields!(f, D2 { a: 1u8, b: 2u8, .. }) => "D2 { a: 1, b: 2, .. }"
        fields!(f, D3 { a: 1u8, b: 2u8, c: 3u8, .. }) => "D3 { a: 1, b: 2, c: 3, .. }"
        fields!(f, D4 { a: 1u8, b: 2u8, c: 3u8, d: 4u8, .. }) => "D4 { a: 1, b: 2, c: 3, d: 4, .. }"
        fields!(f, D5 { a: 1u8, b: 2u8, c: 3u8, d: 4u8, e: 5u8, .. }) => "D5 { a: 1, b: 2, c: 3, d: 4, e: 5, .. }"
        fields!(f, D6 { a: 1u8, b: 2u8, c: 3u8, d: 4u8, e: 5u8, f: 6u8, .. }) => "D6 { a: 1, b: 2, c: 3, d: 4, e: 5, f: 6, .. }"
        fields!(f, D7 { a: 1u8, b: 2u8, c: 3u8, d: 4u8, e: 5u8, f: 6u8, g: 7u8, .. }) => "D7 { a: 1, b: 2, c: 3, d: 4, e: 5, f: 6, g: 7, .. }"
    );
}

fn put_eight_to_ten_with_dots(table: &mut Table) {
    put_printed!(table, f;
        fields!(f, D8 { a: 1u8, b: 2u8, c: 3u8, d: 4u8, e: 5u8, f: 6u8, g: 7u8, h: 8u8, .. }) => "D8 { a: 1, b: 2, c: 3, d: 4, e: 5, f: 6, g: 7, h: 8, .. }"
        fields!(f, D9 { a: 1u8, b: 2u8, c: 3u8, d: 4u8, e: 5u8, f: 6u8, g: 7u8, h: 8u8, i: 9u8, .. }) => "D9 { a: 1, b: 2, c: 3, d: 4, e: 5, f: 6, g: 7, h: 8, i: 9, .. }"
        fields!(f, D10 { a: 1u8, b: 2u8, c: 3u8, d: 4u8, e: 5u8, f: 6u8, g: 7u8, h: 8u8, i: 9u8, j: 10u8, .. }) => "D10 { a: 1, b: 2, c: 3, d: 4, e: 5, f: 6, g: 7, h: 8, i: 9, j: 10, .. }"
    );
}

fn put_many_with_dots(table: &mut Table) {
    put_printed!(table, f;
        fields!(f, D11 { a: 1u8, b: 2u8, c: 3u8, d: 4u8, e: 5u8, f: 6u8, g: 7u8, h: 8u8, i: 9u8, j: 10u8, k: 11u8, .. }) => "D11 { a: 1, b: 2, c: 3, d: 4, e: 5, f: 6, g: 7, h: 8, i: 9, j: 10, k: 11, .. }"
        fields!(f, D12 { a: 1u8, b: 2u8, c: 3u8, d: 4u8, e: 5u8, f: 6u8, g: 7u8, h: 8u8, i: 9u8, j: 10u8, k: 11u8, l: 12u8, .. }) => "D12 { a: 1, b: 2, c: 3, d: 4, e: 5, f: 6, g: 7, h: 8, i: 9, j: 10, k: 11, l: 12, .. }"
        fields!(f, D13 { a: 1u8, b: 2u8, c: 3u8, d: 4u8, e: 5u8, f: 6u8, g: 7u8, h: 8u8, i: 9u8, j: 10u8, k: 11u8, l: 12u8, m: 13u8, .. }) => "D13 { a: 1, b: 2, c: 3, d: 4, e: 5, f: 6, g: 7, h: 8, i: 9, j: 10, k: 11, l: 12, m: 13, .. }"
    );
}

fn put_three_to_seven_unnamed(table: &mut Table) {
    put_printed!(table, f;
        fields!(f, T3(1u8, 2u8, 3u8)) => "T3(1, 2, 3)"
        fields!(f, T4(1u8, 2u8, 3u8, 4u8)) => "T4(1, 2, 3, 4)"
        fields!(f, T5(1u8, 2u8, 3u8, 4u8, 5u8)) => "T5(1, 2, 3, 4, 5)"
        fields!(f, T6(1u8, 2u8, 3u8, 4u8, 5u8, 6u8)) => "T6(1, 2, 3, 4, 5, 6)"
        fields!(f, T7(1u8, 2u8, 3u8, 4u8, 5u8, 6u8, 7u8)) => "T7(1, 2, 3, 4, 5, 6, 7)"
    );
}

fn put_eight_to_ten_unnamed(table: &mut Table) {
    put_printed!(table, f;
        fields!(f, T8(1u8, 2u8, 3u8, 4u8, 5u8, 6u8, 7u8, 8u8)) => "T8(1, 2, 3, 4, 5, 6, 7, 8)"
        fields!(f, T9(1u8, 2u8, 3u8, 4u8, 5u8, 6u8, 7u8, 8u8, 9u8)) => "T9(1, 2, 3, 4, 5, 6, 7, 8, 9)"
        fields!(f, T10(1u8, 2u8, 3u8, 4u8, 5u8, 6u8, 7u8, 8u8, 9u8, 10u8)) => "T10(1, 2, 3, 4, 5, 6, 7, 8, 9, 10)"
    );
}

fn put_many_unnamed(table: &mut Table) {
    put_printed!(table, f;
        fields!(f, T11(1u8, 2u8, 3u8, 4u8, 5u8, 6u8, 7u8, 8u8, 9u8, 10u8, 11u8)) => "T11(1, 2, 3, 4, 5, 6, 7, 8, 9, 10, 11)"
        fields!(f, T12(1u8, 2u8, 3u8, 4u8, 5u8, 6u8, 7u8, 8u8, 9u8, 10u8, 11u8, 12u8)) => "T12(1, 2, 3, 4, 5, 6, 7, 8, 9, 10, 11, 12)"
        fields!(f, Long(1u8, 2u8, 3u8, 4u8, 5u8, 6u8, 7u8, 8u8, 9u8, 10u8, 11u8, 12u8, 13u8)) => "Long(1, 2, 3, 4, 5, 6, 7, 8, 9, 10, 11, 12, 13)"
    );
}

#[test]
fn fields_prints_each_number_of_fields(rt: HostRuntime) {
    let mut table = Table::new(rt.alloc());
    put_one_to_eight_named(&mut table);
    put_nine_to_eleven_named(&mut table);
    put_many_named(&mut table);
    put_none_to_seven_with_dots(&mut table);
    put_eight_to_ten_with_dots(&mut table);
    put_many_with_dots(&mut table);
    put_three_to_seven_unnamed(&mut table);
    put_eight_to_ten_unnamed(&mut table);
    put_many_unnamed(&mut table);
    has_wanted_rows(&rt, &table);
}
