//! Conversions of plain texts to pretty ones and back. A text is in the other mode than its result.
ghost use Rattle.std.specs.Prelude.{◌≡◌};
ghost use Rattle.ufmt_core.specs.Layout.{layout, plain_text, pretty_text, setting};
ghost use Rattle.ufmt_grammar.specs.declared.class.Class.TheVariants.{Token};
ghost use Rattle.ufmt_scan.specs.Texts.{Converts, ConvertsInto, ConvertsTo, other_mode};

mod growing;
pub(crate) mod text_sink;

use crate::error::ReadError;
use crate::mode::{ParseMode, PlainText, PrettyText};
use crate::scan::{ScanError, scan};
use growing::Growing;
use std::alloc::Global;
use std::marker::PhantomData;
use text_sink::TextSink;
use ufmt_core::layout::Mode;
use ufmt_core::{Cursor, Full, uWrite};
use ufmt_grammar::class::Class;

// Promise (reading): A conversion accepts the texts of its class in one mode, and returns the text of the same
// document in the other. Also: `to_pretty`, `to_plain`.
/// Returns the text in the mode `to` of the documents of the class that have this text in the other mode.
/// Undoes the conversion to the other mode. Fails with `NotText` only if no document of the class has
/// this text; the other error is `OutOfMemory`.
#[inline(always)]
pub fn convert(alloc: Global, class: Class, to: Mode, text: &[u8]) -> Result<String, ReadError>
    ensures { Converts class (layout (setting (other_mode to) 0)) (layout (setting to 0)) text.now
        result }
{
    let mut converted = Growing::new(alloc);
    write_converted(&mut converted, class, to, text)?;
    Ok(converted.into_string())
}

/// Writes the converted text to the front of the buffer, and returns its length. Fails with `NotText`
/// only if no document of the class has this text, and never with `Full` if one has it and the converted
/// text fits. On `Ok`, the bytes after it are as before.
#[inline(always)]
pub fn convert_into(
    buffer: &mut [u8],
    class: Class,
    to: Mode,
    text: &[u8],
) -> Result<usize, ScanError<Full>>
    ensures { ConvertsInto class (layout (setting (other_mode to) 0)) (layout (setting to 0)) text.now
        buffer.old result buffer.new }
{
    let mut cursor = Cursor::new(buffer);
    write_converted(&mut cursor, class, to, text)?;
    Ok(cursor.written().len())
}

// Promise (reading): A conversion into a writer whose text is known, or into a buffer, writes everything if
// there is room, and a prefix if it fails. Also: `convert_into`.
/// Writes the converted text to the writer, and doesn't allocate. Fails with `NotText` only if
/// no document of the class has this text; any other error is the writer's. Part of the converted text
/// may have been written.
#[inline(always)]
pub fn write_converted<W: uWrite>(
    writer: &mut W,
    class: Class,
    to: Mode,
    text: &[u8],
) -> Result<(), ScanError<W::Error>>
    ensures { ConvertsTo W.seen class (layout (setting (other_mode to) 0)) (layout (setting to 0)) text.now
        writer.old result writer.new }
{
    match to {
        Mode::Plain => write_in::<W, PlainText>(writer, class, text),
        Mode::Pretty => write_in::<W, PrettyText>(writer, class, text),
    }
}

// Writes the text in the mode `M`.
#[inline(always)]
fn write_in<W: uWrite, M: ParseMode>(
    writer: &mut W,
    class: Class,
    text: &[u8],
) -> Result<(), ScanError<W::Error>>
    ensures { ConvertsTo W.seen class (layout (setting (other_mode M.mode) 0)) (layout (setting M.mode 0)) text.now
        writer.old result writer.new }
{
    let mut sink = TextSink::<_, M> {
        writer,
        depth: 0,
        mode: PhantomData,
    };
    scan(class, other_mode(M::mode()), text, &mut sink)
}

/// Returns the pretty text of the token documents with this plain text, as `convert` does.
pub fn to_pretty(alloc: Global, input: &[u8]) -> Result<String, ReadError>
    ensures { Converts Token plain_text pretty_text input.now result }
{
    convert(alloc, Class::Token, Mode::Pretty, input)
}

/// Returns the plain text of the token documents with this pretty text, as `convert` does.
pub fn to_plain(alloc: Global, input: &[u8]) -> Result<String, ReadError>
    ensures { Converts Token pretty_text plain_text input.now result }
{
    convert(alloc, Class::Token, Mode::Plain, input)
}

/// Returns `Pretty` for `Plain`, and `Plain` for `Pretty`.
#[inline(always)]
pub fn other_mode(mode: Mode) -> Mode
    ensures { result ≡ other_mode mode }
{
    match mode {
        Mode::Plain => Mode::Pretty,
        Mode::Pretty => Mode::Plain,
    }
}
