//! The calls of one mode on one text: those on token texts, and those on debug texts.
ghost use Rattle.std.specs.Prelude.{[], ⊤};

use crate::digest::Digest;
use crate::read::calls::{Calls, Name};
use crate::read::events::Events;
use crate::read::fault::{Fault, agree};
use crate::read::parts::Parts;
use crate::read::text_pieces::{self, TextPieces};
use crate::read::tokens;
use std::alloc::{AllocError, Global};
use ufmt::{Full, uDebug, uWrite};
use ufmt_doc::doc::{DebugName, Tree, same_text};
use ufmt_doc::plain_reader::ReadError;
use ufmt_doc::scan::ScanError;

/// Returns what the calls on token texts say of the text, as a message. After it, the message has what
/// the calls on debug texts say, or `=` if they say the same.
pub fn verdict(calls: Calls<'_>) -> Result<String, AllocError> {
    let token = of_class::<String>(calls)?;
    let others = tokens::verdict(calls)?;
    let debug = of_class::<DebugName>(calls.on_debug_text())?;
    let debug = if debug.as_str() == token.as_str() {
        "="
    } else {
        debug.as_str()
    };
    format!(in calls.alloc; "{token}{others}; debug: {debug}")
}

// What the calls of the class say that both classes have.
fn of_class<N: Name>(calls: Calls<'_>) -> Result<String, AllocError> {
    let outcome = match calls.read::<N>() {
        Ok(doc) => of_text(calls, &doc).map(Some),
        Err(ReadError::NotText) => of_no_text(calls).map(|()| None),
        Err(ReadError::OutOfMemory) => Err(Fault::Other("the reader wants memory")),
    };
    match outcome {
        Ok(Some(half)) => half.message(calls.alloc),
        Ok(None) => {
            let place = calls.valid_up_to();
            format!(in calls.alloc; "no text, read to {place}")
        }
        Err(fault) => fault.message(calls.alloc),
    }
}

// The results for a text.
#[derive(Clone, Copy)]
struct Half {
    is_token: bool,
    events: Digest,
    converted: Digest,
    parts: Digest,
    // What its leaves and fields show.
    shown: Digest,
    pieces: TextPieces,
}

impl Half {
    fn message(&self, alloc: Global) -> Result<String, AllocError> {
        let token = if self.is_token { "yes" } else { "no" };
        let events = self.events.message(alloc)?;
        let converted = self.converted.message(alloc)?;
        let parts = self.parts.message(alloc)?;
        let shown = self.shown.message(alloc)?;
        let pieces = self.pieces.message(alloc)?;
        format!(in alloc;
            "token {token}, events {events}, converted {converted}, parts {parts}, shown {shown}, pieces {pieces}"
        )
    }
}

fn of_text<N: Name>(calls: Calls<'_>, doc: &Tree<N>) -> Result<Half, Fault> {
    let mut events = Events::new(calls.alloc);
    agree(calls.scan(&mut events).is_ok(), "scan")?;
    agree(calls.is_text(), "is_text")?;
    agree(calls.valid_up_to() == calls.text.len(), "valid_up_to")?;
    let converted = calls.convert()?;
    converts_alike(calls, &converted)?;
    prints(calls, doc)?;
    prints(calls.on_converted(&converted), doc)?;
    let (parts, shown) = Parts::and_shown(calls.alloc, doc)?;
    is_normal::<N>(calls, &parts)?;
    is_normal_of_loose(calls, doc, &parts)?;
    Ok(Half {
        is_token: doc.is_token(),
        events: Digest::of(&events.text),
        converted: Digest::of(&converted),
        parts: Digest::of(&parts),
        shown: Digest::of(&shown),
        pieces: TextPieces::of(calls, doc)?,
    })
}

// Converts to a writer, into buffers of the exact length and of one byte less, and back.
fn converts_alike(calls: Calls<'_>, converted: &str) -> Result<(), Fault> {
    let mut text = String::new(calls.alloc);
    calls.convert_to(&mut text)?;
    agree(text.as_str() == converted, "conversion to a writer")?;
    let mut buffer = vec![in calls.alloc; 0u8; converted.len()]?;
    let count = calls.convert_into(&mut buffer)?;
    let is_whole = count == converted.len() && buffer.as_slice() == converted.as_bytes();
    agree(is_whole, "conversion into a buffer")?;
    let is_full = match buffer.split_last_mut() {
        Some((_, shorter)) => is_full(calls.convert_into(shorter)),
        None => false,
    };
    agree(is_full, "conversion into a buffer of one byte less")?;
    let back = calls.on_converted(converted).convert()?;
    agree(back.as_bytes() == calls.text, "converted back")
}

fn is_full(outcome: Result<usize, ScanError<Full>>) -> bool {
    match outcome {
        Err(ScanError::Sink(Full)) => true,
        _ => false,
    }
}

// Prints the document to a `String` and into buffers. The result must be the text.
fn prints<T: uDebug>(calls: Calls<'_>, doc: &T) -> Result<(), Fault> {
    let text = calls.print(doc)?;
    agree(text.as_bytes() == calls.text, "print")?;
    let mut buffer = vec![in calls.alloc; 0u8; text.len()]?;
    let count = calls.print_into(&mut buffer, doc)?;
    let is_whole = count == text.len() && buffer.as_slice() == calls.text;
    agree(is_whole, "print into a buffer")?;
    let is_full = match buffer.split_last_mut() {
        Some((_, shorter)) => calls.print_into(shorter, doc) == Err(Full),
        None => false,
    };
    agree(is_full, "print into a buffer of one byte less")
}

// A document that was read is in normal form.
fn is_normal<N: Name>(calls: Calls<'_>, parts: &str) -> Result<(), Fault> {
    let mut doc = calls.read::<N>()?;
    doc.normalize(calls.alloc);
    has_parts(calls, &doc, parts, "normalize of what was read")
}

// A document that isn't in normal form has the same texts and the same normal form.
fn is_normal_of_loose<N: Name>(calls: Calls<'_>, doc: &Tree<N>, parts: &str) -> Result<(), Fault> {
    let mut loose = calls.read_loose::<N>()?;
    prints(calls, &loose)?;
    let is_alike = text_pieces::printed(calls, &loose) == text_pieces::printed(calls, doc);
    agree(is_alike, "pieces of a document that isn't in normal form")?;
    have_one_text(&loose, doc)?;
    loose.normalize(calls.alloc);
    has_parts(calls, &loose, parts, "normalize")
}

fn have_one_text<N: Name>(loose: &Tree<N>, doc: &Tree<N>) -> Result<(), Fault> {
    agree(loose.is_token() == doc.is_token(), "is_token")?;
    agree(doc.is_debug() && loose.is_debug(), "is_debug")?;
    agree(same_text(doc, doc), "same_text with itself")?;
    agree(same_text(loose, doc), "same_text with the normal form")?;
    agree(same_text(doc, loose), "same_text of the normal form")
}

/// Compares a document with its parts. The call of this name returned it.
pub fn has_parts<N: Name>(
    calls: Calls<'_>,
    doc: &Tree<N>,
    parts: &str,
    call: &'static str,
) -> Result<(), Fault> {
    let found = Parts::of(calls.alloc, doc)?;
    agree(found.as_str() == parts, call)
}

// A writer that counts bytes.
#[derive(Drop)]
struct Counted {
    count: usize,
}

impl uWrite for Counted {
    type Error = Full;

    ghost seen = { record { known = λ _. ⊥; text = λ _. []; room = λ _. 0; failed = λ _. ⊤; identity = λ _. []; whole_buffer = λ _. [] } };

    fn write_str(&mut self, s: &str) -> Result<(), Full> {
        self.count = self.count.saturating_add(s.len());
        Ok(())
    }
}

// Every call must fail with `NotText`. The buffer has room for what is written before the failure.
fn of_no_text(calls: Calls<'_>) -> Result<(), Fault> {
    let mut events = Events::new(calls.alloc);
    agree(is_not_text(calls.scan(&mut events)), "scan of no text")?;
    agree(!calls.is_text(), "is_text of no text")?;
    agree(
        calls.convert() == Err(ReadError::NotText),
        "conversion of no text",
    )?;
    let mut counted = Counted { count: 0 };
    agree(
        is_not_text(calls.convert_to(&mut counted)),
        "conversion of no text to a writer",
    )?;
    let mut buffer = vec![in calls.alloc; 0u8; counted.count]?;
    let into_buffer = calls.convert_into(&mut buffer).map(|_count| ());
    agree(
        is_not_text(into_buffer),
        "conversion of no text into a buffer",
    )
}

fn is_not_text<E: Drop>(outcome: Result<(), ScanError<E>>) -> bool {
    match outcome {
        Err(ScanError::NotText) => true,
        _ => false,
    }
}
