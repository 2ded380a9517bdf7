//! Laws, each the contract of a function: which types hold no memory.
mod of_tuples;

use crate::uparse::uParse;
pub use of_tuples::tuples_hold_no_memory;
use std::borrow::Cow;
use std::cmp::{Ordering, Reverse};
use std::num::{
    NonZeroI8, NonZeroI16, NonZeroI32, NonZeroI64, NonZeroI128, NonZeroIsize, NonZeroU8,
    NonZeroU16, NonZeroU32, NonZeroU64, NonZeroU128, NonZeroUsize, Saturating, Wrapping,
};
use std::ops::{Bound, ControlFlow, RangeFull};
use ufmt::Decimal;
use ufmt::cells::CellValue;

// Promise (reading): Integers, nonzero integers, `bool`, floats, `Decimal`, `()`, `char`, `Ordering` and
// `RangeFull` hold no memory. Options, results, tuples and wrappers hold none if their parts don't. Also:
// `laws::wrappers_hold_no_memory`, `laws::of_tuples::tuples_hold_no_memory`.
/// Integers, nonzero integers, floats, fixed-point numbers, truth values, `()`, characters, orderings and `..`
/// hold no memory.
pub fn leaves_hold_no_memory<A: Copy>()
    ensures of_u8 { ⟦<u8 as uParse<A>>⟧.holds_no_memory }
    ensures of_u16 { ⟦<u16 as uParse<A>>⟧.holds_no_memory }
    ensures of_u32 { ⟦<u32 as uParse<A>>⟧.holds_no_memory }
    ensures of_u64 { ⟦<u64 as uParse<A>>⟧.holds_no_memory }
    ensures of_u128 { ⟦<u128 as uParse<A>>⟧.holds_no_memory }
    ensures of_usize { ⟦<usize as uParse<A>>⟧.holds_no_memory }
    ensures of_i8 { ⟦<i8 as uParse<A>>⟧.holds_no_memory }
    ensures of_i16 { ⟦<i16 as uParse<A>>⟧.holds_no_memory }
    ensures of_i32 { ⟦<i32 as uParse<A>>⟧.holds_no_memory }
    ensures of_i64 { ⟦<i64 as uParse<A>>⟧.holds_no_memory }
    ensures of_i128 { ⟦<i128 as uParse<A>>⟧.holds_no_memory }
    ensures of_isize { ⟦<isize as uParse<A>>⟧.holds_no_memory }
    ensures of_f32 { ⟦<f32 as uParse<A>>⟧.holds_no_memory }
    ensures of_f64 { ⟦<f64 as uParse<A>>⟧.holds_no_memory }
    ensures of_nonzero_u8 { ⟦<NonZeroU8 as uParse<A>>⟧.holds_no_memory }
    ensures of_nonzero_u16 { ⟦<NonZeroU16 as uParse<A>>⟧.holds_no_memory }
    ensures of_nonzero_u32 { ⟦<NonZeroU32 as uParse<A>>⟧.holds_no_memory }
    ensures of_nonzero_u64 { ⟦<NonZeroU64 as uParse<A>>⟧.holds_no_memory }
    ensures of_nonzero_u128 { ⟦<NonZeroU128 as uParse<A>>⟧.holds_no_memory }
    ensures of_nonzero_usize { ⟦<NonZeroUsize as uParse<A>>⟧.holds_no_memory }
    ensures of_nonzero_i8 { ⟦<NonZeroI8 as uParse<A>>⟧.holds_no_memory }
    ensures of_nonzero_i16 { ⟦<NonZeroI16 as uParse<A>>⟧.holds_no_memory }
    ensures of_nonzero_i32 { ⟦<NonZeroI32 as uParse<A>>⟧.holds_no_memory }
    ensures of_nonzero_i64 { ⟦<NonZeroI64 as uParse<A>>⟧.holds_no_memory }
    ensures of_nonzero_i128 { ⟦<NonZeroI128 as uParse<A>>⟧.holds_no_memory }
    ensures of_nonzero_isize { ⟦<NonZeroIsize as uParse<A>>⟧.holds_no_memory }
    ensures of_bool { ⟦<bool as uParse<A>>⟧.holds_no_memory }
    ensures of_unit { ⟦<() as uParse<A>>⟧.holds_no_memory }
    ensures of_char { ⟦<char as uParse<A>>⟧.holds_no_memory }
    ensures of_ordering { ⟦<Ordering as uParse<A>>⟧.holds_no_memory }
    ensures of_decimal { ⟦<Decimal as uParse<A>>⟧.holds_no_memory }
    ensures of_range_full { ⟦<RangeFull as uParse<A>>⟧.holds_no_memory }
{}

/// A type of these holds no memory if its parts hold none.
pub fn wrappers_hold_no_memory<'a, A: Copy, T: uParse<A> + 'a, U: uParse<A>>()
    ensures of_option { T.holds_no_memory → ⟦<Option<T> as uParse<A>>⟧.holds_no_memory }
    ensures of_result { T.holds_no_memory → U.holds_no_memory
        → ⟦<Result<T, U> as uParse<A>>⟧.holds_no_memory }
    ensures of_bound { T.holds_no_memory → ⟦<Bound<T> as uParse<A>>⟧.holds_no_memory }
    ensures of_control_flow { T.holds_no_memory → U.holds_no_memory
        → ⟦<ControlFlow<T, U> as uParse<A>>⟧.holds_no_memory }
    ensures of_wrapping { T.holds_no_memory → ⟦<Wrapping<T> as uParse<A>>⟧.holds_no_memory }
    ensures of_saturating { T.holds_no_memory → ⟦<Saturating<T> as uParse<A>>⟧.holds_no_memory }
    ensures of_reverse { T.holds_no_memory → ⟦<Reverse<T> as uParse<A>>⟧.holds_no_memory }
    ensures of_cell_value { T.holds_no_memory → ⟦<CellValue<T> as uParse<A>>⟧.holds_no_memory }
    ensures of_cow { T.holds_no_memory → ⟦<Cow<'a, T> as uParse<A>>⟧.holds_no_memory }
{}
