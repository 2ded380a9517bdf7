//! Tests of calls that print a whole value: on a formatter, to a writer, and into a buffer.
use super::asserts::{has_wanted_rows, same};
use test_rows::put_filled;
use test_rows::rows::{Table, are_ok};
use ufmt::{
    Formatter, debug_into, display_into, pretty_into, write_debug, write_display, write_pretty,
};

#[test]
fn whole_values_print_in_one_call(rt: HostRuntime) {
    let mut text = String::new(rt.alloc());
    let mut f = Formatter::new(&mut text);
    let by_formatter = [
        f.list_of(&[1u8, 2]),
        f.set_of(&[1u8, 2]),
        f.map_of(&[(1u8, 2u8), (3, 4)]),
    ];
    let by_writer = [
        write_debug(&mut text, &7u8),
        write_display(&mut text, &"7"),
        write_pretty(&mut text, &[7u8]),
    ];
    let are_ok = are_ok(&by_formatter) && are_ok(&by_writer);
    let expected = "[1, 2]{1, 2}{1: 2, 3: 4}77[\n    7,\n]";
    same(&rt, (are_ok, text.as_str()), (true, expected), "one call");
}

#[test]
fn calls_that_print_into_a_buffer_fill_it(rt: HostRuntime) {
    let mut table = Table::new(rt.alloc());
    put_filled!(table; buffer[4] debug_into(buffer, &123u8);
        4 => "Ok(3) 123~";
        3 => "Ok(3) 123~";
        2 => "Err(Full) ~~~~";
    );
    put_filled!(table; buffer[4] display_into(buffer, &"123");
        4 => "Ok(3) 123~";
        3 => "Ok(3) 123~";
        2 => "Err(Full) ~~~~";
    );
    put_filled!(table; buffer[6] debug_into(buffer, &"a\"b");
        3 => "Err(Full) \"a~~~~";
        6 => "Ok(6) \"a\\\"b\"";
    );
    put_filled!(table; buffer[11] pretty_into(buffer, &[7u8]);
        11 => "Ok(10) [\n    7,\n]~";
        10 => "Ok(10) [\n    7,\n]~";
        9 => "Err(Full) [\n    7,\n~~";
        0 => "Err(Full) ~~~~~~~~~~~";
    );
    has_wanted_rows(&rt, &table);
}
