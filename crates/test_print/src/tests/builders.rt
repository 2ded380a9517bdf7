//! Tests of structs and tuples that builders write, with each way to write a field.
use super::asserts::has_wanted_rows;
use std::collections::BTreeMap;
use test_rows::printed::Printed;
use test_rows::rows::{Table, map};
use test_rows::{put_rows, rows_of};
use ufmt::{Formatter, uDebug, uWrite};

/// What builders write.
#[derive(Drop)]
enum Built {
    Settings(BTreeMap<u64, u64>),
    Unit,
    /// Tuples with this name. `TwoFields` writes its second field by `begin_field` and `end_field`.
    NoField(&'static str),
    OneField(&'static str),
    TwoFields(&'static str),
    /// A struct without a name. Its fields have no name, and each is written in another way.
    NoNames,
    /// The same struct in one call.
    NoNamesInOneCall,
    /// A struct and two tuples without a name, each in one call.
    UnnamedInOneCall,
    /// Structs that end in dots, with this name: without fields, and with a field in each of two ways.
    OnlyDots(&'static str),
    FieldsAndDots(&'static str),
    /// The same two structs, each in one call.
    DotsInOneCall,
}

impl Printed for Built {
    fn print<W: uWrite>(&self, f: &mut Formatter<W>) -> Result<(), W::Error> {
        match self {
            Built::Settings(map) => {
                let mut settings = f.debug_struct("S")?;
                settings.field("m", map)?;
                let outcome = 3i32.fmt(settings.begin_field("n")?);
                settings.end_field(outcome)?;
                settings.finish()
            }
            Built::Unit => f.debug_struct("A")?.finish(),
            Built::NoField(name) => f.debug_tuple(name)?.finish(),
            Built::OneField(name) => {
                let mut tuple = f.debug_tuple(name)?;
                tuple.field(&1u64)?;
                tuple.finish()
            }
            Built::TwoFields(name) => {
                let mut tuple = f.debug_tuple(name)?;
                tuple.field(&1u64)?;
                let outcome = 2i32.fmt(tuple.begin_field()?);
                tuple.end_field(outcome)?;
                tuple.finish()
            }
            Built::NoNames => {
                let mut builder = f.debug_struct("")?;
                builder.field("", &1u8)?;
                let outcome = 2u8.fmt(builder.begin_field("")?);
                builder.end_field(outcome)?;
                builder.finish()
            }
            Built::NoNamesInOneCall => f.struct_2("", "", &1u8, "", &2u8),
            Built::UnnamedInOneCall => {
                f.struct_0("")?;
                f.tuple_0("")?;
                f.tuple_1("", &1u8)
            }
            Built::OnlyDots(name) => f.debug_struct(name)?.finish_non_exhaustive(),
            Built::FieldsAndDots(name) => {
                let mut builder = f.debug_struct(name)?;
                builder.field("m", &1u8)?;
                let outcome = 2u8.fmt(builder.begin_field("n")?);
                builder.end_field(outcome)?;
                builder.finish_non_exhaustive()
            }
            Built::DotsInOneCall => {
                f.non_exhaustive_0("A")?;
                f.non_exhaustive_2("S", "m", &1u8, "n", &2u8)
            }
        }
    }
}

#[test]
fn builders_write_structs_and_tuples_in_pieces(rt: HostRuntime) {
    let mut table = Table::new(rt.alloc());
    table.pieces_of_made(map(rt.alloc(), &[(1u64, 2u64)]).map(Built::Settings));
    table.wants(
        "\
S| {| |m|: |{|1|: |2|}|, |n|: |3| |}|~
S| {|\n|    |m|: |{|\n|    |    |1|: |2|,\n|    |}|,\n|    |n|: |3|,\n|}|",
    );
    for (built, wanted) in rows_of![
        Built::Unit => "A|";
        Built::NoField("") => "|";
        Built::NoField("T") => "T|";
        Built::OneField("") => "|(|1|,|)|~\n|(|\n|    |1|,\n|)|";
        Built::OneField("T") => "T|(|1|)|~\nT|(|\n|    |1|,\n|)|";
        Built::TwoFields("") => "|(|1|, |2|)|~\n|(|\n|    |1|,\n|    |2|,\n|)|";
        Built::TwoFields("T") => "T|(|1|, |2|)|~\nT|(|\n|    |1|,\n|    |2|,\n|)|";
        Built::NoNames => "| {| ||: |1|, ||: |2| |}|~\n| {|\n|    ||: |1|,\n|    ||: |2|,\n|}|";
        Built::NoNamesInOneCall => "| {| ||: |1|, ||: |2| |}|~\n| {|\n|    ||: |1|,\n|    ||: |2|,\n|}|";
        Built::UnnamedInOneCall => "|||(|1|,|)|~\n|||(|\n|    |1|,\n|)|";
        Built::OnlyDots("") => "| { .. }|";
        Built::OnlyDots("A") => "A| { .. }|";
        Built::FieldsAndDots("") => "| {| |m|: |1|, |n|: |2|, ..| |}|~\n| {|\n|    |m|: |1|,\n|    |n|: |2|,\n|    |..\n|}|";
        Built::FieldsAndDots("S") => "S| {| |m|: |1|, |n|: |2|, ..| |}|~\nS| {|\n|    |m|: |1|,\n|    |n|: |2|,\n|    |..\n|}|";
        Built::DotsInOneCall => "A| { .. }|S| {| |m|: |1|, |n|: |2|, ..| |}|~\nA| { .. }|S| {|\n|    |m|: |1|,\n|    |n|: |2|,\n|    |..\n|}|";
    ] {
        put_rows!(table; pieces(&built) => wanted;);
    }
    has_wanted_rows(&rt, &table);
}
