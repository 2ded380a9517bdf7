//! Structs with a field of each kind, which are printed and parsed with nothing proved by hand. `x fields` draws more.
ghost use Rattle.std.specs.Char.{IsScalar};
ghost use Rattle.std.specs.Prelude.{[], ◌∷◌, All, IfSome, ⊤};
ghost use Rattle.ufmt.specs.ValueDocuments.{character, float64, named_struct, named_tuple, number, string};
ghost use Rattle.ufmt_parse.specs.Values.{is_f64, is_u16};

use super::enums::shapes::Signal;
use super::{first_wrong, same};
use example_parse::Mix;
use std::alloc::Global;
use std::collections::BTreeMap;
use ufmt::{Formatter, fields, uDebug, uWrite};
use ufmt_parse::{Fault, ParseMode, Parser, parse_fields, prove_fields, uParse};

#[derive(Drop)]
struct Notes {
    count: u16,
    lines: Vec<String>,
}

impl uDebug for Notes {
    ghost document = { λ s. named_struct "Notes" (("count", number s.count)
        ∷ ("lines", ⟦<Vec<String> as uDebug>⟧.document s.lines) ∷ []) };

    fn fmt<W: uWrite>(&self, f: &mut Formatter<W>) -> Result<(), W::Error> {
        fields!(f, self, Notes { count, lines })
    }
}

impl uParse<Global> for Notes {
    ghost is_value = { λ s. is_u16 s.count };

    fn prove_value(&self) {
        prove_fields!(Global, self, Notes { count, lines })
    }

    fn parse_from<M: ParseMode>(alloc: Global, parser: &mut Parser<'_, M>) -> Result<Self, Fault> {
        parse_fields!(alloc, parser, Notes { count, lines })
    }
}

#[derive(Drop)]
struct Table {
    rows: Vec<Mix>,
    columns: BTreeMap<String, u16>,
}

impl uDebug for Table {
    ghost document = { λ s. named_struct "Table" (("rows", ⟦<Vec<Mix> as uDebug>⟧.document s.rows)
        ∷ ("columns", ⟦<BTreeMap<String, u16> as uDebug>⟧.document s.columns) ∷ []) };

    fn fmt<W: uWrite>(&self, f: &mut Formatter<W>) -> Result<(), W::Error> {
        fields!(f, self, Table { rows, columns })
    }
}

impl uParse<Global> for Table {
    ghost is_value = { λ s. ⟦<Vec<Mix> as uParse<Global>>⟧.is_value s.rows × ⟦<BTreeMap<String, u16> as uParse<Global>>⟧.is_value s.columns };

    fn prove_value(&self) {
        prove_fields!(Global, self, Table { rows, columns })
    }

    fn parse_from<M: ParseMode>(alloc: Global, parser: &mut Parser<'_, M>) -> Result<Self, Fault> {
        parse_fields!(alloc, parser, Table { rows, columns })
    }
}

#[derive(Drop)]
struct Person(String, Option<String>, Option<u16>);

impl uDebug for Person {
    ghost document = { λ s. named_tuple "Person" (string s.0
        ∷ ⟦<Option<String> as uDebug>⟧.document s.1
        ∷ ⟦<Option<u16> as uDebug>⟧.document s.2 ∷ []) };

    fn fmt<W: uWrite>(&self, f: &mut Formatter<W>) -> Result<(), W::Error> {
        fields!(f, self, Person(name, nickname, age))
    }
}

impl uParse<Global> for Person {
    ghost is_value = { λ s. IfSome s.2 is_u16 };

    fn prove_value(&self) {
        prove_fields!(Global, self, Person(name, nickname, age))
    }

    fn parse_from<M: ParseMode>(alloc: Global, parser: &mut Parser<'_, M>) -> Result<Self, Fault> {
        parse_fields!(alloc, parser, Person(name, nickname, age))
    }
}

#[derive(Drop)]
struct Mark(f64, char, Option<char>);

impl uDebug for Mark {
    ghost document = { λ s. named_tuple "Mark" (float64 s.0 ∷ character s.1 ∷ ⟦<Option<char> as uDebug>⟧.document s.2 ∷ []) };

    fn fmt<W: uWrite>(&self, f: &mut Formatter<W>) -> Result<(), W::Error> {
        fields!(f, self, Mark(at, letter, other))
    }
}

impl uParse<Global> for Mark {
    ghost is_value = { λ s. is_f64 s.0 × IsScalar s.1 × IfSome s.2 IsScalar };

    fn prove_value(&self) {
        prove_fields!(Global, self, Mark(at, letter, other))
    }

    fn parse_from<M: ParseMode>(alloc: Global, parser: &mut Parser<'_, M>) -> Result<Self, Fault> {
        parse_fields!(alloc, parser, Mark(at, letter, other))
    }
}

#[derive(Drop)]
struct Holder<T> {
    value: T,
    boxed: Box<Mix>,
    texts: Vec<String>,
}

impl<T: uDebug> uDebug for Holder<T> {
    ghost document = { λ s. named_struct "Holder" (("value", T.document s.value)
        ∷ ("boxed", ⟦<Box<Mix> as uDebug>⟧.document s.boxed)
        ∷ ("texts", ⟦<Vec<String> as uDebug>⟧.document s.texts) ∷ []) };

    fn fmt<W: uWrite>(&self, f: &mut Formatter<W>) -> Result<(), W::Error> {
        fields!(
            f,
            self,
            Holder {
                value,
                boxed,
                texts
            }
        )
    }
}

impl<T: uParse<Global>> uParse<Global> for Holder<T> {
    ghost is_value = { λ s. T.is_value s.value × ⟦<Box<Mix> as uParse<Global>>⟧.is_value s.boxed };

    fn prove_value(&self) {
        prove_fields!(Global, self, Holder { value, boxed, .. })
    }

    fn parse_from<M: ParseMode>(alloc: Global, parser: &mut Parser<'_, M>) -> Result<Self, Fault> {
        parse_fields!(
            alloc,
            parser,
            Holder {
                value,
                boxed,
                texts
            }
        )
    }
}

#[derive(Drop)]
struct Switches(bool, Vec<bool>, Option<bool>);

impl uDebug for Switches {
    ghost document = { λ s. named_tuple "Switches" (⟦<bool as uDebug>⟧.document s.0
        ∷ ⟦<Vec<bool> as uDebug>⟧.document s.1
        ∷ ⟦<Option<bool> as uDebug>⟧.document s.2 ∷ []) };

    fn fmt<W: uWrite>(&self, f: &mut Formatter<W>) -> Result<(), W::Error> {
        fields!(f, self, Switches(is_on, all, last))
    }
}

impl uParse<Global> for Switches {
    ghost is_value = { λ _. ⊤ };

    fn prove_value(&self) {
        prove_fields!(Global, self, Switches(is_on, all, last))
    }

    fn parse_from<M: ParseMode>(alloc: Global, parser: &mut Parser<'_, M>) -> Result<Self, Fault> {
        parse_fields!(alloc, parser, Switches(is_on, all, last))
    }
}

#[derive(Drop)]
struct Curve(Vec<f64>, Option<f64>, Signal);

impl uDebug for Curve {
    ghost document = { λ s. named_tuple "Curve" (⟦<Vec<f64> as uDebug>⟧.document s.0
        ∷ ⟦<Option<f64> as uDebug>⟧.document s.1
        ∷ ⟦<Signal as uDebug>⟧.document s.2 ∷ []) };

    fn fmt<W: uWrite>(&self, f: &mut Formatter<W>) -> Result<(), W::Error> {
        fields!(f, self, Curve(points, peak, unit))
    }
}

impl uParse<Global> for Curve {
    ghost is_value = { λ s. All is_f64 s.0.items × IfSome s.1 is_f64 × ⟦<Signal as uParse<Global>>⟧.is_value s.2 };

    fn prove_value(&self) {
        prove_fields!(Global, self, Curve(points, peak, unit))
    }

    fn parse_from<M: ParseMode>(alloc: Global, parser: &mut Parser<'_, M>) -> Result<Self, Fault> {
        parse_fields!(alloc, parser, Curve(points, peak, unit))
    }
}

#[derive(Drop)]
struct Order(Option<Mix>, Vec<char>, Vec<u16>, String);

impl uDebug for Order {
    ghost document = { λ s. named_tuple "Order" (⟦<Option<Mix> as uDebug>⟧.document s.0
        ∷ ⟦<Vec<char> as uDebug>⟧.document s.1
        ∷ ⟦<Vec<u16> as uDebug>⟧.document s.2
        ∷ string s.3 ∷ []) };

    fn fmt<W: uWrite>(&self, f: &mut Formatter<W>) -> Result<(), W::Error> {
        fields!(f, self, Order(first, letters, ids, text))
    }
}

impl uParse<Global> for Order {
    ghost is_value = { λ s. ⟦<Option<Mix> as uParse<Global>>⟧.is_value s.0 × All IsScalar s.1.items × All is_u16 s.2.items };

    fn prove_value(&self) {
        prove_fields!(Global, self, Order(first, letters, ids, text))
    }

    fn parse_from<M: ParseMode>(alloc: Global, parser: &mut Parser<'_, M>) -> Result<Self, Fault> {
        parse_fields!(alloc, parser, Order(first, letters, ids, text))
    }
}

#[test]
fn structs_with_each_kind_of_field_come_back(rt: HostRuntime) {
    all_read!(rt, Notes; "Notes { count: 2, lines: [\"a\", \"b, c\"] }", "Notes { count: 0, lines: [] }";
        "Notes { count: 2, lines: [\"a\" \"b\"] }", "Notes { count: 2, lines: [a] }");
    all_read!(rt, Table; "Table { rows: [Mix { channel: 3, level: -4 }], columns: {\"a\": 1, \"b\": 2} }",
        "Table { rows: [], columns: {} }"; "Table { rows: [], columns: {\"b\": 2, \"a\": 1} }",
        "Table { rows: [Mix { channel: 300, level: -4 }], columns: {} }");
    all_read!(rt, Person; "Person(\"a\", Some(\"b\"), Some(7))", "Person(\"\", None, None)"; "Person(\"a\", \"b\", None)");
    all_read!(rt, Mark; "Mark(-1.5, 'a', Some('\\''))"; "Mark(-1.5, a, None)");
    all_read!(rt, Holder<bool>; "Holder { value: true, boxed: Mix { channel: 3, level: -4 }, texts: [\"a\"] }";
        "Holder { value: 1, boxed: Mix { channel: 3, level: -4 }, texts: [] }", "Holder", "Holder {}", "holder",
        "Holder { value: true, boxed: Mix { channel: 3, level: -4 } }",
        "Holder { value: true, texts: [], boxed: Mix { channel: 3, level: -4 } }",
        "Holder { value: true, boxed: Mix { channel: 3, level: -4 }, text: [] }",
        "Holder { value: true, boxed: Mix { channel: 3, level: -4 }, texts: [], value: true }",
        "Other { value: true, boxed: Mix { channel: 3, level: -4 }, texts: [] }",
        "Holder(true, Mix { channel: 3, level: -4 }, [])"
    );
    all_read!(rt, Switches; "Switches(true, [true, false], Some(false))"; "Switches(true, [1], None)");
    all_read!(rt, Curve; "Curve([1.0, 1e-7], Some(NaN), AB(7, None))"; "Curve([1], None, A)");
    all_read!(rt, Order; "Order(Some(Mix { channel: 3, level: -4 }), ['a'], [1, 2], \"\")", "Order(None, [], [], \"a\")";
        "Order(None, [], [65536], \"a\")");
}
