//! Tests that `end_entry`, `begin_value` and `end_field` set the depth back, if what was written
//! before them left the formatter deeper.
use super::asserts::same;
use std::alloc::{AllocError, Global};
use ufmt::Formatter;

// Opens a list and drops its builder, which leaves the formatter a level deeper.
fn leave_deeper(f: &mut Formatter<String>) -> Result<(), AllocError> {
    let _list = f.debug_list()?;
    Ok(())
}

fn write_list(f: &mut Formatter<String>) -> Result<(), AllocError> {
    let mut list = f.debug_list()?;
    let outcome = leave_deeper(list.begin_entry()?);
    list.end_entry(outcome)?;
    list.entry(&1u8)?;
    list.finish()
}

fn write_map(f: &mut Formatter<String>) -> Result<(), AllocError> {
    let mut map = f.debug_map()?;
    let key_outcome = leave_deeper(map.begin_entry()?);
    let outcome = leave_deeper(map.begin_value(key_outcome)?);
    map.end_entry(outcome)?;
    map.entry(&1u8, &2u8)?;
    map.finish()
}

fn write_struct(f: &mut Formatter<String>) -> Result<(), AllocError> {
    let mut builder = f.debug_struct("S")?;
    let outcome = leave_deeper(builder.begin_field("a")?);
    builder.end_field(outcome)?;
    builder.field("b", &1u8)?;
    builder.finish()
}

fn write_tuple(f: &mut Formatter<String>) -> Result<(), AllocError> {
    let mut builder = f.debug_tuple("T")?;
    let outcome = leave_deeper(builder.begin_field()?);
    builder.end_field(outcome)?;
    builder.field(&1u8)?;
    builder.finish()
}

const BLOCKS: &str = "\
[
    [,
    1,
]{
    [: [,
    1: 2,
}S {
    a: [,
    b: 1,
}T(
    [,
    1,
)";

fn write_blocks(f: &mut Formatter<String>) -> Result<(), AllocError> {
    write_list(f)?;
    write_map(f)?;
    write_struct(f)?;
    write_tuple(f)
}

fn blocks(alloc: Global) -> Result<(String, u8), AllocError> {
    let mut f = Formatter::new(String::new(alloc));
    f.pretty(write_blocks)?;
    let depth = f.depth();
    Ok((f.into_inner(), depth))
}

#[test]
fn end_entry_begin_value_and_end_field_set_the_depth_back(rt: HostRuntime) {
    let given = blocks(rt.alloc());
    let given = given.as_ref().map(|(text, depth)| (text.as_str(), *depth));
    same(&rt, given.ok(), Some((BLOCKS, 0)), "blocks");
}
