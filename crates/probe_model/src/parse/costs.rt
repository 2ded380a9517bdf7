//! Makes each call on a text by itself, and notes it.
use crate::costs::Costs;
use crate::parse::parsing::parse_in_mode;
use crate::read::calls::Calls;
use crate::read::costs::{on_debug_doc, on_leaf, on_text, on_token_text};
use crate::requests::Request;
use example_parse::{Node, Tree};
use std::alloc::{AllocError, Global};
use std::collections::{BTreeMap, BTreeSet};
use ufmt::layout::Mode;
use ufmt_doc::doc::DebugName;
use ufmt_parse::uParse;

/// Returns the names of the calls that were made, in order, each with whether its result was a value.
pub fn calls_made(alloc: Global, text: &[u8]) -> Result<String, AllocError> {
    let mut costs = Costs::new(alloc);
    if let Some(request) = Request::from_text(alloc, text) {
        costs.on_request(&request)?;
        return Ok(costs.line);
    }
    on_mode(
        &mut costs,
        "plain",
        Calls::on_token_text(alloc, Mode::Plain, text),
    )?;
    on_mode(
        &mut costs,
        "pretty",
        Calls::on_token_text(alloc, Mode::Pretty, text),
    )?;
    costs.line.push_str("leaf: ")?;
    if let Ok(text) = str::from_utf8(text) {
        on_leaf(&mut costs, text)?;
    }
    Ok(costs.line)
}

// A half of the line: calls on token texts and those that parse values, and after them calls on debug texts.
fn on_mode(costs: &mut Costs, name: &str, calls: Calls<'_>) -> Result<(), AllocError> {
    costs.line.push_str(name)?;
    costs.line.push_str(": ")?;
    on_text::<String>(costs, calls)?;
    on_types(costs, calls)?;
    on_token_text(costs, calls)?;
    costs.line.push_str("; debug ")?;
    costs.line.push_str(name)?;
    costs.line.push_str(": ")?;
    on_text::<DebugName>(costs, calls.on_debug_text())?;
    on_debug_doc(costs, calls.on_debug_text())?;
    costs.line.push_str("; ")
}

fn on_types(costs: &mut Costs, calls: Calls<'_>) -> Result<(), AllocError> {
    on_type::<i128>(costs, "parse i128", calls)?;
    on_type::<char>(costs, "parse char", calls)?;
    on_type::<String>(costs, "parse String", calls)?;
    on_type::<Option<Box<i8>>>(costs, "parse Option", calls)?;
    on_type::<Vec<u64>>(costs, "parse Vec", calls)?;
    on_type::<Vec<String>>(costs, "parse texts", calls)?;
    on_type::<BTreeSet<u16>>(costs, "parse BTreeSet", calls)?;
    on_type::<BTreeMap<String, Option<u8>>>(costs, "parse BTreeMap", calls)?;
    on_type::<Vec<Tree>>(costs, "parse trees", calls)?;
    on_type::<Node>(costs, "parse Node", calls)
}

fn on_type<T: uParse<Global>>(
    costs: &mut Costs,
    name: &str,
    calls: Calls<'_>,
) -> Result<(), AllocError> {
    costs.begin();
    costs.note(name, parse_in_mode::<T, Global>(calls, calls.alloc).ok())
}
