//! The lines of the report: a call, what it returned, and how many allocations it makes.
use crate::outcome::Outcome;
use std::alloc::{AllocError, Global};
use std::io;

/// Prints a line on a call. `x try memory` compares its number with the runs in which the
/// call was refused an allocation.
pub fn report(
    rt: &HostRuntime,
    call: &str,
    case: &str,
    allocations: u64,
    outcome: Outcome,
) -> io::Result<()> {
    println!(rt;
        "{call} of {case}: {}, {allocations} allocations",
        outcome.message()
    )
}

/// Prints a line on a call that takes no memory, with whether it is right. The program makes an
/// allocation of its own before the call. So an allocation that a call makes in secret is between
/// those of two lines.
pub fn report_free<F: FnOnce() -> bool>(
    rt: &HostRuntime,
    call: &str,
    case: &str,
    is_right: F,
) -> io::Result<()>
where
    requires { F.pre is_right }
{
    let before = one_box(rt.alloc());
    report(rt, call, case, 0, Outcome::of_call(before, is_right()))
}

/// Makes one allocation, and frees it.
pub fn one_box(alloc: Global) -> Result<(), AllocError> {
    boxes(alloc, 1)
}

/// Makes `count` allocations, and frees each before the next.
pub fn boxes(alloc: Global, count: u64) -> Result<(), AllocError> {
    for number in 0..count {
        let _box = Box::new(alloc, number)?;
    }
    Ok(())
}
