//! Blocks whose names, field names and values are the payload: by the calls for whole values, and by builders.
use crate::digest::Digest;
use crate::pieces::Pieces;
use ufmt::{Formatter, uWrite};

/// Writes structs and tuples by the calls for whole values, and blocks by builders, in each mode.
pub fn pieces(name: &str) -> Digest {
    let mut pieces = Pieces::new();
    let mut f = Formatter::new(&mut pieces);
    let _ = write(name, &mut f);
    let _ = f.pretty(|f| write(name, f));
    pieces.digest
}

fn write<W: uWrite>(name: &str, f: &mut Formatter<W>) -> Result<(), W::Error> {
    write_structs(name, f)?;
    write_tuples(name, f)?;
    write_list(name, f)?;
    write_map(name, f)?;
    write_struct(name, f)?;
    write_tuple(name, f)?;
    write_structs_with_dots(name, f)
}

// The calls for whole structs. Each further field costs the proof as much as all before it.
fn write_structs<W: uWrite>(name: &str, f: &mut Formatter<W>) -> Result<(), W::Error> {
    f.struct_0(name)?;
    f.struct_1(name, name, &name)?;
    f.struct_3(name, name, &name, name, &name, name, &name)
}

fn write_tuples<W: uWrite>(name: &str, f: &mut Formatter<W>) -> Result<(), W::Error> {
    f.tuple_0(name)?;
    f.tuple_1(name, &name)?;
    f.tuple_3(name, &name, &name, &name)
}

fn write_list<W: uWrite>(value: &str, f: &mut Formatter<W>) -> Result<(), W::Error> {
    let mut list = f.debug_list()?;
    list.entry(&value)?;
    let outcome = list.begin_entry()?.write_str(value);
    list.end_entry(outcome)?;
    list.finish()
}

fn write_map<W: uWrite>(value: &str, f: &mut Formatter<W>) -> Result<(), W::Error> {
    let mut map = f.debug_map()?;
    map.entry(&value, &value)?;
    let outcome = map.begin_entry()?.write_str(value);
    let outcome = map.begin_value(outcome)?.write_str(value);
    map.end_entry(outcome)?;
    map.finish()
}

fn write_struct<W: uWrite>(name: &str, f: &mut Formatter<W>) -> Result<(), W::Error> {
    let mut builder = f.debug_struct(name)?;
    builder.field(name, &name)?;
    let outcome = builder.begin_field(name)?.write_str(name);
    builder.end_field(outcome)?;
    builder.finish()
}

fn write_tuple<W: uWrite>(name: &str, f: &mut Formatter<W>) -> Result<(), W::Error> {
    let mut builder = f.debug_tuple(name)?;
    builder.field(&name)?;
    let outcome = builder.begin_field()?.write_str(name);
    builder.end_field(outcome)?;
    builder.finish()
}

fn write_structs_with_dots<W: uWrite>(name: &str, f: &mut Formatter<W>) -> Result<(), W::Error> {
    f.non_exhaustive_0(name)?;
    f.non_exhaustive_1(name, name, &name)?;
    let mut builder = f.debug_struct(name)?;
    builder.field(name, &name)?;
    let outcome = builder.begin_field(name)?.write_str(name);
    builder.end_field(outcome)?;
    builder.finish_non_exhaustive()
}
