//! Tests of enums.
ghost use Rattle.std.specs.Prelude.{[], ◌∷◌, IfSome, ⊤};
ghost use Rattle.ufmt.specs.ValueDocuments.{named, named_struct, named_tuple, number, string};
ghost use Rattle.test_parse.specs.declared.tests.enums.shapes.Signal.TheVariants.{A, AB, ABC};
ghost use Rattle.ufmt_parse.specs.Values.{is_u8};
ghost use Rattle.test_parse.specs.declared.tests.enums.shapes.Eight.TheVariants.{First, Second, Third, Fourth, Fifth, Sixth, Seventh, Eighth};

use crate::tests::{first_other, same};
use std::alloc::Global;
use ufmt::{Formatter, fields, uDebug, uWrite, variants};
use ufmt_parse::{
    Fault, ParseMode, Parser, parse, parse_fields, parse_variants, prove_variants, uParse,
};

/// Each name begins the next.
#[derive(PartialEq, Eq, Debug, Drop)]
pub enum Signal {
    A,
    AB(u8, Option<bool>),
    ABC { on: bool, level: u8, text: String },
}

impl uDebug for Signal {
    ghost document = { elim [
      | A ↦ named "A"
      | AB level on ↦ named_tuple "AB" (number level ∷ ⟦<Option<bool> as uDebug>⟧.document on ∷ [])
      | ABC on level text ↦ named_struct "ABC" (("on", ⟦<bool as uDebug>⟧.document on) ∷ ("level", number level) ∷ ("text", string text) ∷ [])
    ] };

    fn fmt<W: uWrite>(&self, f: &mut Formatter<W>) -> Result<(), W::Error> {
        match self {
            Signal::A => fields!(f, A),
            Signal::AB(level, on) => fields!(f, AB(level, on)),
            Signal::ABC { on, level, text } => fields!(f, ABC { on, level, text }),
        }
    }
}

impl uParse<Global> for Signal {
    ghost is_value = { elim [
      | A ↦ ⊤
      | AB level on ↦ is_u8 level × IfSome on (λ _. ⊤)
      | ABC on level text ↦ is_u8 level
    ] };

    fn prove_value(&self) {
        prove_variants!(Global, self, Signal { A, AB(level, on), ABC { on, level, text } })
    }

    fn parse_from<M: ParseMode>(
        alloc: Global,
        parser: &mut Parser<'_, M>,
    ) -> Result<Signal, Fault> {
        parse_variants!(alloc, parser, Signal { A, AB(level, on), ABC { on, level, text } })
    }
}

/// As many variants as an enum of a program may have.
#[derive(Clone, Copy, PartialEq, Eq, Debug, Drop)]
pub enum Eight<T> {
    First,
    Second(u8),
    Third(u8, bool),
    Fourth(),
    Fifth { channel: u8, level: bool },
    Sixth(T),
    Seventh { value: T },
    Eighth {},
}

impl<T: uDebug> uDebug for Eight<T> {
    ghost document = { elim [
      | First ↦ named "First"
      | Second a ↦ named_tuple "Second" (number a ∷ [])
      | Third a b ↦ named_tuple "Third" (number a ∷ ⟦<bool as uDebug>⟧.document b ∷ [])
      | Fourth ↦ named_tuple "Fourth" []
      | Fifth a b ↦ named_struct "Fifth" (("channel", number a) ∷ ("level", ⟦<bool as uDebug>⟧.document b) ∷ [])
      | Sixth a ↦ named_tuple "Sixth" (T.document a ∷ [])
      | Seventh a ↦ named_struct "Seventh" (("value", T.document a) ∷ [])
      | Eighth ↦ named_struct "Eighth" []
    ] };

    fn fmt<W: uWrite>(&self, f: &mut Formatter<W>) -> Result<(), W::Error> {
        variants!(
            f,
            self,
            Eight { First, Second(a), Third(a, b), Fourth(), Fifth { channel, level }, Sixth(a), Seventh { value }, Eighth {} }
        )
    }
}

impl<A: Copy, T: uParse<A>> uParse<A> for Eight<T> {
    ghost is_value = { elim [
      | First ↦ ⊤
      | Second a ↦ is_u8 a
      | Third a b ↦ is_u8 a
      | Fourth ↦ ⊤
      | Fifth a b ↦ is_u8 a
      | Sixth a ↦ T.is_value a
      | Seventh a ↦ T.is_value a
      | Eighth ↦ ⊤
    ] };

    fn prove_value(&self) {
        prove_variants!(
            A,
            self,
            Eight { First, Second(a), Third(a, b), Fourth(), Fifth { channel, level }, Sixth(a), Seventh { value }, Eighth {} }
        )
    }

    fn parse_from<M: ParseMode>(alloc: A, parser: &mut Parser<'_, M>) -> Result<Eight<T>, Fault> {
        parse_variants!(
            alloc,
            parser,
            Eight { First, Second(a), Third(a, b), Fourth(), Fifth { channel, level }, Sixth(a), Seventh { value }, Eighth {} }
        )
    }
}

/// A struct without fields, which prints as its name.
#[derive(Clone, Copy, PartialEq, Eq, Debug, Drop)]
pub struct Marker {}

impl uDebug for Marker {
    ghost document = { λ _. named_struct "Marker" [] };

    fn fmt<W: uWrite>(&self, f: &mut Formatter<W>) -> Result<(), W::Error> {
        fields!(f, self, Marker {})
    }
}

impl<A: Copy> uParse<A> for Marker {
    ghost is_value = { λ _. ⊤ };

    fn prove_value(&self) {}

    fn parse_from<M: ParseMode>(alloc: A, parser: &mut Parser<'_, M>) -> Result<Marker, Fault> {
        parse_fields!(alloc, parser, Marker {})
    }
}

#[test]
fn variants_of_each_shape_are_parsed(rt: HostRuntime) {
    all_stop!(rt, Eight<bool>;
        "First" => "";
        "Second(7)" => "";
        "Third(255, true)" => "";
        "Fourth" => "";
        "Fifth { channel: 3, level: false }" => "";
        "Sixth(true)" => "";
        "Seventh { value: true }" => "";
        "Eighth" => "";
        "Ninth" => "0 Name";
        "first" => "0 Name";
        "First()" => "0 Name";
        "Fourth()" => "0 Name";
        "Second" => "6 Punctuation";
        "Second(256)" => "7 Number";
        "Third(1, 1)" => "9 Name";
        "Fifth { level: false, channel: 3 }" => "8 Name";
    );
    let (channel, level) = (3, false);
    let given = parse::<Eight<bool>, ()>((), b"Fifth { channel: 3, level: false }");
    same(&rt, given, Ok(Eight::Fifth { channel, level }), "fields");
}

#[test]
fn names_are_compared_whole(rt: HostRuntime) {
    all_stop!(rt, Signal;
        "A" => "";
        "AB(7, None)" => "";
        "AB(255, Some(true))" => "";
        "ABC { on: true, level: 0, text: \"AB\" }" => "";
        "ABCD" => "0 Name";
        "A-B" => "0 Name";
        "A:B" => "0 Name";
        "AB" => "2 Punctuation";
        "AB { on: true }" => "2 Punctuation";
        "ABC(7, None)" => "3 Punctuation";
        "A(7)" => "1 End";
        "A " => "1 End";
        "A: " => "1 End";
        "" => "0 Name";
    );
}

#[test]
fn enums_are_parsed_in_other_values(rt: HostRuntime) {
    all_stop!(rt, Eight<Signal>;
        "Seventh { value: ABC { on: true, level: 7, text: \"\" } }" => "";
        "Seventh { value: AC }" => "17 Name";
    );
    all_stop!(rt, Vec<Signal>; "[A, AB(7, None)]" => ""; "[]" => "";);
    all_stop!(rt, Option<Signal>; "Some(A)" => ""; "None" => "";);
    all_stop!(rt, Marker; "Marker" => ""; "Marker {}" => "6 End";);
    all_stop!(rt, Result<u8, Signal>; "Err(A)" => ""; "Ok(1)" => ""; "Okay(1)" => "0 Name";);
}
