//! Tests of a user's own writer, which keeps its bytes in a fixed array.
use super::asserts::has_wanted_rows;
use example_print::FixedBuffer;
use test_rows::rows::Table;
use test_rows::{put_rows, rows_of};
use ufmt::{uWrite, write_debug};

#[test]
fn a_fixed_writer_takes_pieces_whole(rt: HostRuntime) {
    let mut table = Table::new(rt.alloc());
    // A piece that fits exactly is taken, and nothing of one that doesn't fit.
    let mut writer = FixedBuffer::<5>::new();
    for (piece, wanted) in rows_of![
        "ab" => "Ok(2) ab"; "cdef" => "Err(Full) ab"; "cde" => "Ok(5) abcde"; "" => "Ok(5) abcde"; "f" => "Err(Full) abcde";
    ] {
        put_rows!(table; put_written(writer.write_str(piece), writer.written().len(), writer.written()) => wanted;);
    }
    let mut writer = FixedBuffer::<7>::new();
    let outcome = write_debug(&mut writer, &[1u8, 23]);
    put_rows!(table; put_written(outcome, writer.written().len(), writer.written()) => "Ok(7) [1, 23]";);
    let mut writer = FixedBuffer::<6>::new();
    let outcome = write_debug(&mut writer, &[1u8, 23]);
    put_rows!(table; put_written(outcome, writer.written().len(), writer.written()) => "Err(Full) [1, 23";);
    has_wanted_rows(&rt, &table);
}
