//! Tests that each law can be called.
use ufmt_parse::laws::{leaves_hold_no_memory, tuples_hold_no_memory, wrappers_hold_no_memory};

#[test]
fn laws_on_memory_can_be_called() {
    leaves_hold_no_memory::<()>();
    wrappers_hold_no_memory::<(), u8, char>();
    tuples_hold_no_memory::<(), u8, u16, u32, u64, u128, usize, i8, i16, i32, i64, i128, isize>();
}
