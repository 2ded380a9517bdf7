//! Makes each call of the library, and prints how many allocations it makes and what it returned:
//! the same as with ample memory, want of memory, or anything else. `x try memory` runs it
//! with one allocation after another refused, and counts.
//!
//! Standard input has the number of allocations that are made before the calls. With fewer of them,
//! the one allocation that is refused in each run is a later one of the calls.
#![tactic(auto)]

mod calls;
mod documents;
mod laws;
mod loose;
mod outcome;
mod parses;
mod printed;
mod report;
mod samples;
mod values;

use outcome::Outcome;
use report::{boxes, one_box, report};
use std::io::{self, Read};

fn main(rt: HostRuntime) -> io::Result<()> {
    let count = spare_count(&rt)?;
    if boxes(rt.alloc(), count).is_err() {
        return println!(rt; "refused before the calls");
    }
    for sample in samples::all() {
        calls::report_readers(&rt, &sample)?;
        calls::report_conversions(&rt, &sample)?;
    }
    calls::report_conversions(&rt, &samples::MANY)?;
    calls::report_debug_texts(&rt)?;
    calls::report_values(&rt)?;
    calls::report_quoted(&rt)?;
    calls::report_writers(&rt)?;
    printed::report(&rt)?;
    laws::report_laws(&rt)?;
    documents::report_documents(&rt)?;
    documents::report_conversions(&rt)?;
    documents::report_leaves(&rt)?;
    values::report_values(&rt)?;
    values::report_pieces(&rt)?;
    values::report_cuts_and_dumps(&rt)?;
    parses::report_parses(&rt)?;
    // This is the first allocation after the calls. If it is refused, each of theirs was made.
    let last = Outcome::of_memory(one_box(rt.alloc()));
    report(&rt, "one allocation", "the program itself", 1, last)
}

// The number on standard input, or 0 if there is none.
fn spare_count(rt: &HostRuntime) -> io::Result<u64> {
    let mut bytes = [0; 20];
    let count = rt.reader().read(&mut bytes)?;
    let text = str::from_utf8(&bytes[..count]).unwrap_or("");
    Ok(text.trim().parse().unwrap_or(0))
}
