//! A field of a struct in a line of a log.
ghost use Rattle.std.specs.Prelude.{◌≡◌, ◌<◌, ◌≤◌, ◌+◌, ℕ, List, Option, Some, MatchOption, drop, length, option_map, ⊤};
ghost use Rattle.ufmt.specs.Document.{Document};
ghost use Rattle.ufmt_values.specs.Fields.{IsPlaced, field_of, placed_field};
ghost use Rattle.ufmt_values.specs.Values.{before_bracket, value_in};
ghost use Rattle.ufmt_values.specs.Private.FieldsLeft.{Comes, IsFoundAt, LeafAndRest, Looks, both_of, leaf_in};

use crate::values::{next_bracket, value_at, value_start, values_end};
use ufmt::class::Class;
use ufmt::layout::Mode;
use ufmt_scan::internal::{strip_byte, strip_two};
use ufmt_scan::{FrontText, front_text, split_name};

/// The text of a field, and where it begins in its line.
#[derive(Clone, Copy)]
pub struct Field<'a> {
    pub start: usize,
    pub text: &'a [u8],
}

// Promise (reading): A field of a line is the leaf of the first struct that has the field as a leaf, at the
// place that `find_field` returns. It is `None` if and only if no struct has it. Also: `find_field`.
/// Returns the text of a field in a line of a log: of the values in the line, from the left on, the first
/// that is a struct with this field, where the field is a leaf. Nothing inside a value is looked at, but
/// texts in quotes outside of values are: whoever controls one controls the result. A leaf in quotes keeps
/// them. Returns `None` if there is none.
pub fn field_of<'a>(class: Class, line: &'a [u8], name: &str) -> Option<&'a [u8]>
    ensures { option_map (λ text. text.now) result ≡ field_of class line.now name.now }
{
    let field = find_field(class, line, name)?;
    Some(field.text)
}

/// Returns what `field_of` returns, and where it begins in the line.
pub fn find_field<'a>(class: Class, line: &'a [u8], name: &str) -> Option<Field<'a>>
    ensures field { option_map (λ field. (field.start, field.text.now)) result ≡ placed_field class line.now name.now }
    ensures place { MatchOption result ⊤ (λ field. IsPlaced line.now field.start field.text.now) }
{
    let mut end = line.len();
    let mut at = 0;
    while let Some(bracket) = next_bracket(line, end, at) {
        match look_at(class, line, at, bracket, name) {
            Look::Found(field) => return Some(field),
            Look::Next(next) => {
                end = values_end(line, end, next == bracket + 1);
                at = next;
            }
        }
    }
    None
}

// What comes of a bracket: the field is in its value, or may be from another place on.
#[derive(Clone, Copy)]
enum Look<'a> {
    Found(Field<'a>),
    Next(usize),
}

// Looks for the field in the value with the next bracket.
fn look_at<'a>(class: Class, line: &'a [u8], at: usize, bracket: usize, name: &str) -> Look<'a>
    requires next { bracket ≡ at + before_bracket (drop at line.now) }
    requires order { at ≤ bracket }
    requires within { bracket < length line.now }
    ensures { Looks class line.now name.now at result }
{
    let Some((start, value)) = value_with(class, line, at, bracket) else {
        return Look::Next(bracket + 1);
    };
    match leaf_of(class, &line[start..], name) {
        Some((text, after)) => Look::Found(Field {
            start: line.len() - after.len() - text.len(),
            text,
        }),
        None => Look::Next(start + value.len),
    }
}

// Where the value with this bracket begins, and the value, if there is one.
fn value_with(class: Class, line: &[u8], low: usize, bracket: usize) -> Option<(usize, FrontText)>
    requires next { bracket ≡ low + before_bracket (drop low line.now) }
    requires low { low ≤ bracket }
    requires within { bracket < length line.now }
    ensures { IsFoundAt class line.now low bracket result }
{
    match class {
        Class::Token => token_value_at(line, low, bracket),
        Class::Debug => value_at(Mode::Pretty, line, low, bracket),
    }
}

// The same of token texts.
fn token_value_at(line: &[u8], low: usize, bracket: usize) -> Option<(usize, FrontText)>
    requires low { low ≤ bracket }
    requires within { bracket < length line.now }
    ensures { IsFoundAt Class.Token line.now low bracket result }
{
    let start = value_start(Mode::Pretty, line, low, bracket);
    let front = front_text(Class::Token, Mode::Plain, &line[start..])?;
    if front.has_entries {
        Some((start, front))
    } else {
        None
    }
}

// The leaf of the first field with this name, and what follows it, if the value at the front is a struct
// that has one.
fn leaf_of<'a>(class: Class, text: &'a [u8], name: &str) -> Option<(&'a [u8], &'a [u8])>
    ensures { (d : Document) (rest : List ℕ) → value_in class Mode.Plain text.now ≡ Some (d, rest)
        → both_of result ≡ leaf_in name.now d rest }
{
    let (_, after) = split_name(class, text)?;
    let inside = strip_two(*b" {", after)?;
    let fields = strip_byte(b' ', inside)?;
    leaf_among(class, fields, name)
}

// The same of fields, and the end of their struct.
fn leaf_among<'a>(class: Class, fields: &'a [u8], name: &str) -> Option<(&'a [u8], &'a [u8])>
    ensures { (answer : Option LeafAndRest) → Comes class name.now fields.now answer → both_of result ≡ answer }
{
    let mut rest = fields;
    'fields: loop {
        let (field, after) = split_name(class, rest)?;
        let value = strip_two(*b": ", after)?;
        let front = front_text(class, Mode::Plain, value)?;
        let (text, after) = value.split_at(front.len);
        if field == name {
            return if front.is_leaf {
                Some((text, after))
            } else {
                None
            };
        }
        rest = strip_two(*b", ", after)?;
    }
}
