//! Values that no text makes: columns, hexadecimal texts, dumps, lines, and values of std's types. Each is printed to a
//! writer that notes pieces.
//!
//! A request begins with `REQUEST_PREFIX`. Its first line has the numbers of the options, and its
//! payload follows: a text, or bytes for a dump. An offset past a `u32` is none.
ghost use Rattle.std.specs.Prelude.{◌<◌};

mod costs;
mod lines;
mod names;
mod numbers;
mod values;

use crate::digest::Digest;
use crate::pieces::Pieces;
use std::alloc::{AllocError, Global};
use ufmt::{Align, Column, HexDump, HexOptions, write_hex_dump};

const REQUEST_PREFIX: &[u8] = b"\0pieces ";

/// The options, and a payload.
#[derive(Clone, Copy)]
pub struct Request<'a> {
    pub alloc: Global,
    pub column: Column,
    pub hex: HexOptions,
    pub dump: HexDump,
    pub payload: &'a [u8],
    ghost has_ascii_pad: { hex.pad_char < 128 },
}

impl<'a> Request<'a> {
    /// Returns the request that the text is, if it is one.
    pub fn from_text(alloc: Global, text: &'a [u8]) -> Option<Request<'a>> {
        let rest = text.strip_prefix(REQUEST_PREFIX)?;
        let end = rest.iter().position(|byte| *byte == b'\n')?;
        let (line, payload) = rest.split_at_checked(end)?;
        Request::with_numbers(alloc, numbers_of(line)?, payload.get(1..)?)
    }

    fn with_numbers(alloc: Global, numbers: [usize; 11], payload: &'a [u8]) -> Option<Request<'a>> {
        let [
            width,
            align,
            fill,
            upper_case,
            pad,
            pad_length,
            prefix,
            per_row,
            group,
            offset,
            ascii,
        ] = numbers;
        let hex = HexOptions {
            upper_case: upper_case == 1,
            pad_char: u8::try_from(pad).ok()?,
            pad_length,
            ox_prefix: prefix == 1,
        };
        if !hex.has_ascii_pad() {
            return None;
        }
        Some(Request {
            alloc,
            column: column(width, align, char::from_u32(u32::try_from(fill).ok()?)?),
            hex,
            dump: HexDump {
                per_row,
                group,
                offset: u32::try_from(offset).ok(),
                ascii: ascii == 1,
            },
            payload,
        })
    }

    /// Returns the digests of what the request prints, as a message.
    pub fn verdict(&self) -> Result<String, AllocError> {
        let mut line = String::new(self.alloc);
        self.note("request: dump ", &self.dump_pieces(), &mut line)?;
        if let Ok(text) = str::from_utf8(self.payload) {
            self.note_texts(text, &mut line)?;
            self.note(", values ", &values::pieces(self, text)?, &mut line)?;
        }
        Ok(line)
    }

    fn note_texts(&self, text: &str, line: &mut String) -> Result<(), AllocError> {
        self.note(", lines ", &lines::pieces(self, text), line)?;
        self.note(", names ", &names::pieces(text), line)?;
        self.note(", numbers ", &numbers::pieces(self, text), line)
    }

    fn note(&self, name: &str, digest: &Digest, line: &mut String) -> Result<(), AllocError> {
        line.push_str(name)?;
        line.push_str(&digest.message(self.alloc)?)
    }

    fn dump_pieces(&self) -> Digest {
        let mut pieces = Pieces::new();
        let _ = write_hex_dump(&mut pieces, self.payload, &self.dump);
        pieces.digest
    }
}

fn column(width: usize, align: usize, fill: char) -> Column {
    Column {
        width,
        align: match align {
            0 => Align::Left,
            1 => Align::Center,
            _ => Align::Right,
        },
        fill,
    }
}

fn numbers_of(line: &[u8]) -> Option<[usize; 11]> {
    let mut items = str::from_utf8(line).ok()?.split(' ');
    let mut numbers = [0; 11];
    for number in numbers.iter_mut() {
        *number = items.next()?.parse().ok()?;
    }
    Some(numbers)
}
