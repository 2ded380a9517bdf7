//! Tests of structs by `parse_fields!`, and of options, with and without an allocator, and of where a text that isn't parsed
//! stops fitting.
ghost use Rattle.std.specs.Prelude.{[], ◌∷◌, ⊤};
ghost use Rattle.ufmt.specs.ValueDocuments.{named_struct, named_tuple};

use super::{first_other, first_wrong, not_text, same};
use example_parse::{Measurement, Mix, Switch, parse_command, parse_measurement};
use ufmt::{Formatter, fields, uDebug, uWrite};
use ufmt_parse::{Expected, Fault, ParseMode, Parser, parse_fields, parse_pretty, uParse};

/// Two truth values, each of which is one document or another.
#[derive(Clone, Copy, PartialEq, Eq, Debug, Drop)]
pub struct Flags {
    on: bool,
    off: bool,
}

impl uDebug for Flags {
    ghost document = { λ f. named_struct "Flags" (("on", ⟦<bool as uDebug>⟧.document f.on)
        ∷ ("off", ⟦<bool as uDebug>⟧.document f.off) ∷ []) };

    fn fmt<W: uWrite>(&self, f: &mut Formatter<W>) -> Result<(), W::Error> {
        fields!(f, self, Flags { on, off })
    }
}

impl<A: Copy> uParse<A> for Flags {
    ghost is_value = { λ _. ⊤ };

    ghost holds_no_memory = { ⊤ };

    fn prove_value(&self) {}

    fn parse_from<M: ParseMode>(alloc: A, parser: &mut Parser<'_, M>) -> Result<Flags, Fault> {
        parse_fields!(alloc, parser, Flags { on, off })
    }
}

/// A tuple of a struct and an option.
#[derive(Clone, Copy, PartialEq, Eq, Debug, Drop)]
pub struct Both(Flags, Option<bool>);

impl uDebug for Both {
    ghost document = { λ b. named_tuple "Both" (⟦<Flags as uDebug>⟧.document b.0
        ∷ ⟦<Option<bool> as uDebug>⟧.document b.1 ∷ []) };

    fn fmt<W: uWrite>(&self, f: &mut Formatter<W>) -> Result<(), W::Error> {
        fields!(f, self, Both(flags, option))
    }
}

impl<A: Copy> uParse<A> for Both {
    ghost is_value = { λ _. ⊤ };

    ghost holds_no_memory = { ⊤ };

    fn prove_value(&self) {}

    fn parse_from<M: ParseMode>(alloc: A, parser: &mut Parser<'_, M>) -> Result<Both, Fault> {
        parse_fields!(alloc, parser, Both(flags, option))
    }
}

#[test]
fn structs_are_parsed(rt: HostRuntime) {
    all_stop!(rt, Both;
        "Both(Flags { on: true, off: false }, Some(true))" => "";
        "Both" => "4 Punctuation";
        "Both(Flags { on: true, off: false })" => "35 Punctuation";
        "Both(Flags { on: true, off: false }, None, None)" => "41 Punctuation";
        "Both { x: 1, y: 2 }" => "4 Punctuation";
    );
    all_read!(rt, Switch;
        "Switch { is_on: true, next: None, is_lit: false }", "Switch { is_on: false, next: Some(2), is_lit: true }";
        "Switch { is_on: true, next: none, is_lit: false }", "Switch { is_on: 1, next: None, is_lit: false }"
    );
}

#[test]
fn structs_are_parsed_up_to_what_does_not_fit(rt: HostRuntime) {
    all_stop!(rt, Flags;
        "Flags { on: true, off: false }" => "";
        "Flag { on: true, off: false }" => "0 Name";
        "Flags{ on: true, off: false }" => "5 Punctuation";
        "Flags { off: true, on: false }" => "8 Name";
        "Flags { on: true }" => "16 Punctuation";
        "Flags { on: true,off: false }" => "16 Punctuation";
        "Flags { on: true, off: 0 }" => "23 Name";
        "Flags { on: true, off: false" => "28 Punctuation";
        "Flags { on: true, off: false, }" => "28 Punctuation";
        "Flags { on: true, off: false }x" => "30 End";
    );
}

#[test]
fn pretty_texts_are_parsed_with_their_indentation(rt: HostRuntime) {
    let (on, off) = (false, true);
    let text =
        "Both(\n    Flags {\n        on: false,\n        off: true,\n    },\n    Some(\n        true,\n    ),\n)";
    let less = "Both(\n    Flags {\n        on: false,\n       off: true,\n    },\n    None,\n)";
    let plain = "Both(Flags { on: false, off: true }, None)";
    let rows = [
        (text, Ok(Both(Flags { on, off }, Some(true)))),
        (less, Err(not_text(37, Expected::Punctuation))),
        (plain, Err(not_text(4, Expected::Punctuation))),
    ];
    for (text, wanted) in rows {
        same(&rt, parse_pretty((), text.as_bytes()), wanted, text);
    }
}

#[test]
fn lines_are_parsed_by_the_calls_of_the_examples(rt: HostRuntime) {
    let (channel, level) = (3, -4);
    let given = parse_command(b"Mix { channel: 3, level: -4 }");
    same(&rt, given, Ok(Mix { channel, level }), "a command");
    let (channel, celsius) = (255, -2147483648);
    let measurement = Measurement { channel, celsius };
    let given = parse_measurement(b"Measurement { channel: 255, celsius: -2147483648 }");
    same(&rt, given, Ok(measurement), "a measurement");
    all_stop!(rt, Measurement;
        "Measurement { channel: 255, celsius: -2147483648 }" => "";
        "Measuremant { channel: 255, celsius: -2147483648 }" => "0 Name";
        "Measurement { channel: 255, celsium: -2147483648 }" => "28 Name";
        "Measurement { channel: 255, celsius: -2147483649 }" => "37 Number";
    );
}
