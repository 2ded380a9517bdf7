//! The calls on documents, texts and leaves that take no memory, and `unquoted`, which takes some.
use crate::loose::{loosen, read_twice};
use crate::outcome::{Outcome, has_plain_text};
use crate::report::{report, report_free};
use crate::samples::{DEBUG, MANY_PLAIN, MANY_PRETTY};
use std::alloc::{AllocError, Global};
use std::io;
use ufmt::Cursor;
use ufmt::class::Class;
use ufmt::layout::Mode;
use ufmt_doc::convert::{convert_into, write_converted};
use ufmt_doc::doc::{Doc, same_text};
use ufmt_doc::is_text;
use ufmt_scan::internal::split_escaped;
use ufmt_scan::leaf::{is_leaf, is_leaf_of, is_name_of, is_symbol, is_word};

const MANY: &str = "many entries";

/// Makes each call on a document of many entries, and on another with the same text.
pub fn report_documents(rt: &HostRuntime) -> io::Result<()> {
    let (outcome, doc) = read_twice(rt.alloc(), Mode::Plain, MANY_PLAIN);
    report(rt, "read_plain", MANY, 45, outcome)?;
    let (outcome, other) = read_twice(rt.alloc(), Mode::Pretty, MANY_PRETTY);
    report(rt, "read_pretty", MANY, 45, outcome)?;
    match (doc, other) {
        (Some(doc), Some(other)) => {
            report_parts(rt, &doc)?;
            report_unquoted(rt, &doc)?;
            report_both(rt, &doc, other)
        }
        _ => Ok(()),
    }
}

// Calls on a document, and on another that has the same text but is not in normal form.
fn report_both(rt: &HostRuntime, doc: &Doc, mut other: Doc) -> io::Result<()> {
    loosen(&mut other, rt.alloc());
    report_free(rt, "is_token", MANY, || doc.is_token() && other.is_token())?;
    report_free(rt, "is_debug", MANY, || doc.is_debug() && other.is_debug())?;
    report_free(rt, "same_text", MANY, || have_same_text(doc, &other))?;
    report_free(
        rt,
        "fmt, plain,",
        MANY,
        || has_plain_text(doc, Some(MANY_PLAIN)),
    )?;
    report_free(rt, "fmt, pretty,", MANY, || has_pretty_text(doc))?;
    report_free(
        rt,
        "fmt",
        "blocks without entries",
        || has_both_texts(&other),
    )?;
    report_free(rt, "normalize", MANY, || {
        other.normalize(rt.alloc());
        has_plain_text(&other, Some(MANY_PLAIN))
    })
}

fn have_same_text(doc: &Doc, other: &Doc) -> bool {
    doc.is_token() && other.is_token() && same_text(doc, other) && same_text(doc, doc)
}

fn has_pretty_text(doc: &Doc) -> bool {
    let mut buffer = [0; 1024];
    match ufmt::pretty_into(&mut buffer, doc) {
        Ok(count) => buffer.get(..count) == Some(MANY_PRETTY.as_bytes()),
        Err(_) => false,
    }
}

fn has_both_texts(doc: &Doc) -> bool {
    has_plain_text(doc, Some(MANY_PLAIN)) && has_pretty_text(doc)
}

// The entries are a set, a map, a struct, tuples, and leaves from the ninth on.
fn report_parts(rt: &HostRuntime, doc: &Doc) -> io::Result<()> {
    let Doc::Listed(entries) = doc else {
        return Ok(());
    };
    let leaf = entries.get(8).unwrap_or(doc);
    let named = entries.get(2).unwrap_or(doc);
    let map = entries.get(1).unwrap_or(doc);
    report_free(rt, "as_leaf", MANY, || leaf.as_leaf() == Some("()"))?;
    report_free(rt, "name", MANY, || named.name() == Some("S"))?;
    report_free(
        rt,
        "entries",
        MANY,
        || doc.entries().map(|entries| entries.len()) == Some(14),
    )?;
    report_free(
        rt,
        "pairs",
        MANY,
        || map.pairs().map(|pairs| pairs.len()) == Some(4),
    )?;
    report_free(
        rt,
        "fields",
        MANY,
        || named.fields().map(|fields| fields.len()) == Some(5),
    )?;
    report_free(
        rt,
        "field",
        MANY,
        || named.field("l").is_some() && named.field("m").is_none(),
    )
}

fn report_unquoted(rt: &HostRuntime, doc: &Doc) -> io::Result<()> {
    let Doc::Listed(entries) = doc else {
        return Ok(());
    };
    for (case, number, ample) in [
        ("a text", 9usize, "\"é\"\n"),
        ("a character", 11, "€"),
        ("escapes", 13, "\0\t\r\\\u{1}\u{7f}'"),
    ] {
        let leaf = entries.get(number).unwrap_or(doc);
        let outcome = Outcome::of_text(unquoted(rt.alloc(), leaf), ample);
        report(rt, "unquoted", case, 1, outcome)?;
    }
    report_free(
        rt,
        "unquoted",
        "a list",
        || doc.unquoted(rt.alloc()) == Ok(None),
    )
}

// The text between the quotes, empty if there are none.
fn unquoted(alloc: Global, doc: &Doc) -> Result<String, AllocError> {
    match doc.unquoted(alloc)? {
        Some(text) => Ok(text),
        None => Ok(String::new(alloc)),
    }
}

/// Converts into buffers, and tests texts, of each class.
pub fn report_conversions(rt: &HostRuntime) -> io::Result<()> {
    for (class, case, plain, pretty) in [
        (Class::Token, MANY, MANY_PLAIN, MANY_PRETTY),
        (Class::Debug, DEBUG.name, DEBUG.plain, DEBUG.pretty),
    ] {
        let (plain, pretty) = (plain.as_bytes(), pretty.as_bytes());
        let to_pretty = ["convert_into, to pretty,", "write_converted, to pretty,"];
        report_converted(rt, (to_pretty, case), (class, Mode::Pretty), plain, pretty)?;
        let to_plain = ["convert_into, to plain,", "write_converted, to plain,"];
        report_converted(rt, (to_plain, case), (class, Mode::Plain), pretty, plain)?;
        report_free(rt, "is_text, plain,", case, || {
            is_text(class, Mode::Plain, plain) && !is_text(class, Mode::Plain, pretty)
        })?;
        report_free(rt, "is_text, pretty,", case, || {
            is_text(class, Mode::Pretty, pretty) && !is_text(class, Mode::Pretty, plain)
        })?;
    }
    Ok(())
}

// Converts a text of this class to this mode, into a buffer and to a writer.
fn report_converted(
    rt: &HostRuntime,
    ([into, written], case): ([&str; 2], &str),
    (class, to): (Class, Mode),
    text: &[u8],
    other: &[u8],
) -> io::Result<()> {
    let mut buffer = [0; 1024];
    report_free(rt, into, case, || {
        convert_into(&mut buffer, class, to, text).is_ok() && buffer.starts_with(other)
    })?;
    report_free(rt, written, case, || {
        let mut cursor = Cursor::new(&mut buffer);
        write_converted(&mut cursor, class, to, text).is_ok() && cursor.written() == other
    })
}

/// Asks of which kind leaves are, and decodes one byte of a text in quotes.
pub fn report_leaves(rt: &HostRuntime) -> io::Result<()> {
    let (quoted, case) = ("\"é\\u{1b}\"", "leaves");
    report_free(rt, "is_leaf", case, || {
        is_leaf(quoted) && is_leaf("'€'") && is_leaf("word") && !is_leaf("'ab'")
    })?;
    report_free(rt, "is_word", case, || is_word("word") && !is_word(quoted))?;
    report_free(
        rt,
        "is_symbol",
        case,
        || is_symbol(quoted) && !is_symbol("word"),
    )?;
    report_free(rt, "is_leaf_of", case, || {
        is_leaf_of(Class::Debug, "b\"x\"") && !is_leaf_of(Class::Token, "1.5")
    })?;
    report_free(rt, "is_name_of", case, || {
        is_name_of(Class::Debug, "a::B") && !is_name_of(Class::Debug, quoted)
    })?;
    report_free(rt, "split_escaped", case, || {
        split_escaped(b'"', b"\\u{1b}\"") == Some((0x1b, b"\"".as_slice()))
    })
}
