//! Which types have a value with the text, of either class, and where it stops to be that of a value of the others.
use crate::digest::Digest;
use crate::parse::parsing::parse_in_mode;
use crate::parse::shapes;
use crate::parse::types::{
    Decimals, Floats, Further, FurtherKeys, Keyed, Leaves, Lists, Nested, NonZeros, Numbers, Owned,
    Results, Shared, Slices, Tuples, Types, Wrappers,
};
use crate::pieces::Pieces;
use crate::read::calls::Calls;
use crate::read::fault::{Fault, agree};
use std::alloc::{AllocError, Global};
use ufmt::{pieces, write_line};
use ufmt_parse::{ParseError, uParse};

/// The letters of the types that have a value with the text, and the pieces of those values. And what the errors
/// of the other types say.
#[derive(Drop)]
pub struct TypeLetters {
    text: String,
    pieces: Pieces,
    errors: Digest,
}

/// Returns which types have a value with the text, and the fields of those of a user's types, as a message.
pub fn verdict(calls: Calls<'_>) -> Result<String, AllocError> {
    match values(calls) {
        Ok((letters, fields)) => message(calls.alloc, &letters, &fields),
        Err(fault) => fault.message(calls.alloc),
    }
}

fn values(calls: Calls<'_>) -> Result<(TypeLetters, Digest), Fault> {
    let fields = Digest::of(&shapes::fields_of(calls)?);
    Ok((letters(calls)?, fields))
}

fn message(alloc: Global, letters: &TypeLetters, fields: &Digest) -> Result<String, AllocError> {
    let pieces = letters.pieces.digest.message(alloc)?;
    let fields = fields.message(alloc)?;
    let errors = letters.errors.message(alloc)?;
    format!(in alloc;
        "types [{}] in pieces {pieces}, fields {fields}, errors {errors}",
        letters.text
    )
}

// Values that take no memory are parsed with no allocator.
fn letters(calls: Calls<'_>) -> Result<TypeLetters, Fault> {
    let alloc = calls.alloc;
    let mut letters = TypeLetters {
        text: String::new(alloc),
        pieces: Pieces::new(),
        errors: Digest::of(""),
    };
    Numbers::add_all(calls, (), "abcdefghijkl", &mut letters)?;
    NonZeros::add_all(calls, (), "mnopqrstuv", &mut letters)?;
    Leaves::add_all(calls, (), "ABDF", &mut letters)?;
    Owned::add_all(calls, alloc, "CEGJν", &mut letters)?;
    Results::add_all(calls, alloc, "HI", &mut letters)?;
    Lists::add_all(calls, alloc, "KLMNOPQR", &mut letters)?;
    Keyed::add_all(calls, alloc, "STUVWXYZ012345", &mut letters)?;
    Wrappers::add_all(calls, (), "ξοπρστυφ", &mut letters)?;
    Shared::add_all(calls, alloc, "ψωбвг", &mut letters)?;
    Slices::add_all(calls, alloc, "ежзий", &mut letters)?;
    FurtherKeys::add_all(calls, alloc, "но", &mut letters)?;
    Nested::add_all(calls, alloc, "678", &mut letters)?;
    Tuples::add_all(calls, (), "αβγδεζηθικλμ", &mut letters)?;
    Floats::add_all(calls, (), "пр", &mut letters)?;
    Decimals::add_all(calls, (), "д", &mut letters)?;
    Further::add_all(calls, alloc, "wxyz9лтфц", &mut letters)?;
    Ok(letters)
}

/// Adds the letter of the type if it has a value with the text. Each such value must print as the text.
//
// Out of line: each type calls it in one place, so LLVM would make one function of the calls for all types.
#[inline(never)]
pub fn add<T: uParse<A>, A>(
    calls: Calls<'_>,
    alloc: A,
    letters: &mut TypeLetters,
    letter: char,
) -> Result<(), Fault> {
    match parse_in_mode::<T, A>(calls, alloc) {
        Ok(value) => {
            let printed = calls.print(&value)?;
            agree(printed.as_bytes() == calls.text, "a parsed value, printed")?;
            calls.print_to(&mut letters.pieces, &value);
            letters.text.push(letter)?;
            Ok(())
        }
        Err(ParseError::OutOfMemory) => Err(Fault::WantOfMemory),
        Err(error) => note_error(calls, letter, error, &mut letters.errors),
    }
}

// Adds the type's letter, and what the error says with and without its text.
fn note_error(
    calls: Calls<'_>,
    letter: char,
    error: ParseError,
    errors: &mut Digest,
) -> Result<(), Fault> {
    let mut told = String::new(calls.alloc);
    let placed = error.in_text(calls.text);
    write_line(
        &mut told,
        &pieces!(display letter, display placed, text ", ", debug error, text ";"),
    )?;
    errors.add(told.as_bytes());
    Ok(())
}
