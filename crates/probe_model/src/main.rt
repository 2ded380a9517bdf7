//! Makes each call of the library on each text of its input, and prints a line of verdicts for each
//! text. `x try texts` runs it and compares the lines with a model's.
//!
//! Standard input has the texts in a row. Each is a line with its length, and then its bytes.
//!
//! A half of a line, `plain` or `pretty`, is `no text` if the calls of that mode on token texts fail
//! with `NotText`. Else it has digests of their results. If a call is wrong, it is `FAULT` with the
//! call's name, or with the error of a call that should be `Ok`. After each half, `debug` has the same
//! of the calls on debug texts, or `=` if they say the same as those on token texts, and `values` has
//! the types that have a value with the text.
//!
//! With the argument `costs` it makes each call by itself, and a line has the names of the calls.
//!
//! A text that begins as a request does asks for other values to be printed. Its line has digests of
//! their pieces.
#![tactic(auto)]

mod costs;
mod digest;
mod parse;
mod pieces;
mod read;
mod requests;

use crate::read::calls::Calls;
use crate::read::{half, leaf, nested};
use crate::requests::Request;
use std::alloc::AllocError;
use std::env;
use std::io::{self, Read, Write};
use ufmt::layout::Mode;

fn main(rt: HostRuntime) -> io::Result<()> {
    let arguments: Vec<String> = env::args(&rt)?.skip(1).collect(rt.alloc())?;
    let mut input = Vec::new(rt.alloc());
    rt.reader().read_to_end(&mut input)?;
    let mut output = io::BufWriter::new(rt.alloc(), io::writer(&rt))?;
    let mut rest = input.as_slice();
    // Each text has at least its line feed.
    for _text in 0..input.len() {
        let Some((text, after)) = split_text(rest) else {
            break;
        };
        if arguments.is_empty() {
            report(&rt, &mut output, text)?;
        } else {
            let names = parse::costs::calls_made(rt.alloc(), text)?;
            output.write_all(names.as_bytes())?;
            output.write_all(b"\n")?;
        }
        rest = after;
    }
    output.flush()
}

// The first text, and what follows it.
fn split_text(input: &[u8]) -> Option<(&[u8], &[u8])> {
    let end = input.iter().position(|byte| *byte == b'\n')?;
    let (number, rest) = input.split_at_checked(end)?;
    let length = str::from_utf8(number).ok()?.parse().ok()?;
    rest.get(1..)?.split_at_checked(length)
}

fn report<W: Write>(rt: &HostRuntime, output: &mut W, text: &[u8]) -> io::Result<()> {
    let alloc = rt.alloc();
    if let Some(request) = Request::from_text(alloc, text) {
        let line = of_request(&request)?;
        return output.write_all(line.as_bytes());
    }
    let plain = of_mode(Calls::on_token_text(alloc, Mode::Plain, text))?;
    let pretty = of_mode(Calls::on_token_text(alloc, Mode::Pretty, text))?;
    let leaf = leaf::verdict(alloc, text)?;
    let line = format!(in alloc; "plain: {plain}; pretty: {pretty}; leaf: {leaf}\n")?;
    output.write_all(line.as_bytes())
}

// What a request prints, and lists around its text.
fn of_request(request: &Request<'_>) -> Result<String, AllocError> {
    let printed = request.verdict()?;
    let alloc = request.alloc;
    match str::from_utf8(request.payload) {
        Ok(text) => {
            let nested = nested::pieces(request, text)?.message(alloc)?;
            format!(in alloc; "{printed}, nested {nested}\n")
        }
        Err(_) => format!(in alloc; "{printed}\n"),
    }
}

// What the calls of one mode say of the text, and which types have a value with it.
fn of_mode(calls: Calls<'_>) -> Result<String, AllocError> {
    let read = half::verdict(calls)?;
    let values = parse::parsed::verdict(calls)?;
    format!(in calls.alloc; "{read}; values: {values}")
}
