//! Structs and tuples by their number of fields, and an enum, by the calls and the macros for a user's types.
use crate::read::calls::Calls;
use crate::read::fault::Fault;
use std::alloc::Global;
use ufmt::layout::Mode;
use ufmt::{plain_text, uDebug};
use ufmt_parse::{
    ByType, Fault as Unparsed, ParseMode, Parser, PlainText, PrettyText, by_type, parse_fields,
    parse_struct_1, parse_struct_2, parse_struct_3, parse_struct_12, parse_tuple_1, parse_tuple_2,
    parse_tuple_3, parse_tuple_12, parse_variants,
};

/// Returns the fields of each struct, tuple and variant that has the text, as the texts of tuples.
pub fn fields_of(calls: Calls<'_>) -> Result<String, Fault> {
    match calls.mode {
        Mode::Plain => fields_in::<PlainText>(calls.alloc, calls.text),
        Mode::Pretty => fields_in::<PrettyText>(calls.alloc, calls.text),
    }
}

fn fields_in<M: ParseMode>(alloc: Global, text: &[u8]) -> Result<String, Fault> {
    let mut out = String::new(alloc);
    note_structs::<M>(alloc, text, &mut out)?;
    note_long_struct::<M>(alloc, text, &mut out)?;
    note_tuples::<M>(alloc, text, &mut out)?;
    note_long_tuple::<M>(alloc, text, &mut out)?;
    note(alloc, "w", twelve_fields::<M>(alloc, text)?, &mut out)?;
    note(alloc, "o", one_field::<M>(alloc, text)?, &mut out)?;
    note(alloc, "e", signal_fields::<M>(alloc, text)?, &mut out)?;
    Ok(out)
}

// Notes the fields after a letter, if the text is a value's.
fn note<T: uDebug + Drop>(
    alloc: Global,
    letter: &str,
    found: Option<T>,
    out: &mut String,
) -> Result<(), Fault> {
    if let Some(fields) = found {
        out.push_str(letter)?;
        out.push_str(&plain_text(alloc, &fields)?)?;
        out.push(';')?;
    }
    Ok(())
}

// What was taken, if that is the whole text.
fn whole<T: Drop, M: ParseMode>(
    taken: Result<T, Unparsed>,
    parser: &Parser<'_, M>,
) -> Result<Option<T>, Fault> {
    match taken {
        Ok(value) if parser.len() == 0 => Ok(Some(value)),
        Ok(_) => Ok(None),
        Err(Unparsed::NotText) => Ok(None),
        Err(Unparsed::OutOfMemory) => Err(Fault::WantOfMemory),
    }
}

// Notes what this call takes of a struct with these fields. A number and a character in turn.
macro_rules! named {
    ($alloc:ident $text:ident $out:ident $mode:ident $call:ident($($type:ident $name:literal)+)) => {{
        let mut parser: Parser<'_, $mode> = Parser::new($text);
        let taken: Result<($($type),+), Unparsed> = $call((), &mut parser, "S", $($name, &ByType),+);
        note($alloc, "s", whole(taken, &parser)?, $out)?
    }};
}

// The same of a tuple.
macro_rules! unnamed {
    ($alloc:ident $text:ident $out:ident $mode:ident $call:ident($($type:ident)+)) => {{
        let mut parser: Parser<'_, $mode> = Parser::new($text);
        let taken: Result<($($type),+), Unparsed> = $call((), &mut parser, "T", $(by_type!($type)),+);
        note($alloc, "t", whole(taken, &parser)?, $out)?
    }};
}

fn note_structs<M: ParseMode>(alloc: Global, text: &[u8], out: &mut String) -> Result<(), Fault> {
    named!(alloc text out M parse_struct_1(u8 "a"));
    named!(alloc text out M parse_struct_2(u8 "a" char "b"));
    named!(alloc text out M parse_struct_3(u8 "a" char "b" u8 "c"));
    Ok(())
}

fn note_long_struct<M: ParseMode>(
    alloc: Global,
    text: &[u8],
    out: &mut String,
) -> Result<(), Fault> {
    named!(alloc text out M parse_struct_12(u8 "a" char "b" u8 "c" char "d" u8 "e" char "f" u8 "g" char "h" u8 "i" char "j" u8 "k" char "l"));
    Ok(())
}

fn note_tuples<M: ParseMode>(alloc: Global, text: &[u8], out: &mut String) -> Result<(), Fault> {
    unnamed!(alloc text out M parse_tuple_1(u8));
    unnamed!(alloc text out M parse_tuple_2(u8 char));
    unnamed!(alloc text out M parse_tuple_3(u8 char u8));
    Ok(())
}

fn note_long_tuple<M: ParseMode>(
    alloc: Global,
    text: &[u8],
    out: &mut String,
) -> Result<(), Fault> {
    unnamed!(alloc text out M parse_tuple_12(u8 char u8 char u8 char u8 char u8 char u8 char));
    Ok(())
}

#[derive(Drop)]
struct Twelve {
    a: u8,
    b: u8,
    c: u8,
    d: u8,
    e: u8,
    f: u8,
    g: u8,
    h: u8,
    i: u8,
    j: u8,
    k: u8,
    l: String,
}

#[derive(Drop)]
struct One(String);

#[derive(Drop)]
enum Signal {
    Started,
    Said(u8, String),
    Lost { since: u8, peers: Vec<u8> },
    Ended,
}

fn take_twelve<M: ParseMode>(
    alloc: Global,
    parser: &mut Parser<'_, M>,
) -> Result<Twelve, Unparsed> {
    parse_fields!(
        alloc,
        parser,
        Twelve {
            a,
            b,
            c,
            d,
            e,
            f,
            g,
            h,
            i,
            j,
            k,
            l
        }
    )
}

fn take_one<M: ParseMode>(alloc: Global, parser: &mut Parser<'_, M>) -> Result<One, Unparsed> {
    parse_fields!(alloc, parser, One(text))
}

fn take_signal<M: ParseMode>(
    alloc: Global,
    parser: &mut Parser<'_, M>,
) -> Result<Signal, Unparsed> {
    parse_variants!(alloc, parser, Signal { Started, Said(node, text), Lost { since, peers }, Ended })
}

type Numbers = (u8, u8, u8, u8, u8, u8, u8, u8, u8, u8, u8);

fn twelve_fields<M: ParseMode>(
    alloc: Global,
    text: &[u8],
) -> Result<Option<(Numbers, String)>, Fault> {
    let mut parser: Parser<'_, M> = Parser::new(text);
    let taken = take_twelve(alloc, &mut parser);
    let Some(t) = whole(taken, &parser)? else {
        return Ok(None);
    };
    let numbers = (t.a, t.b, t.c, t.d, t.e, t.f, t.g, t.h, t.i, t.j, t.k);
    Ok(Some((numbers, t.l)))
}

fn one_field<M: ParseMode>(alloc: Global, text: &[u8]) -> Result<Option<String>, Fault> {
    let mut parser: Parser<'_, M> = Parser::new(text);
    let taken = take_one(alloc, &mut parser);
    match whole(taken, &parser)? {
        Some(one) => Ok(Some(one.0)),
        None => Ok(None),
    }
}

// A variant's number, and the fields of the second and the third one.
type Fields = (u8, Option<(u8, String)>, Option<(u8, Vec<u8>)>);

fn signal_fields<M: ParseMode>(alloc: Global, text: &[u8]) -> Result<Option<Fields>, Fault> {
    let mut parser: Parser<'_, M> = Parser::new(text);
    let taken = take_signal(alloc, &mut parser);
    Ok(match whole(taken, &parser)? {
        None => None,
        Some(Signal::Started) => Some((0, None, None)),
        Some(Signal::Said(node, text)) => Some((1, Some((node, text)), None)),
        Some(Signal::Lost { since, peers }) => Some((2, None, Some((since, peers)))),
        Some(Signal::Ended) => Some((3, None, None)),
    })
}
