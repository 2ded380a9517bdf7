//! Tests of an enum with structs in its variants, beside other values, and with names of 2 to 28 letters, for which no proof is written.
ghost use Rattle.std.specs.Prelude.{[], ◌∷◌, ⊤, IfSome};
ghost use Rattle.ufmt.specs.ValueDocuments.{integer, named, named_struct, named_tuple, number};
ghost use Rattle.test_parse.specs.declared.tests.enums.structs.Order.TheVariants.{Up, Interrupted, Apply, HoldPosition, CrossFadeBetween, AwaitingCalibrationOfSensor, Pulse};
ghost use Rattle.ufmt_parse.specs.Values.{is_i16, is_u8, is_u32, is_u64};

use crate::tests::{first_other, not_text, same};
use example_parse::Mix;
use ufmt::{Formatter, uDebug, uWrite, variants};
use ufmt_parse::{
    Expected, Fault, ParseMode, Parser, parse, parse_pretty, parse_variants, prove_variants, uParse,
};

/// An order to a device.
#[derive(Clone, Copy, PartialEq, Eq, Debug, Drop)]
pub enum Order {
    Up,
    Interrupted(u32),
    Apply {
        set: Mix,
    },
    HoldPosition(Mix, bool),
    CrossFadeBetween {
        starting_point: Mix,
        end_point: Mix,
        repeated: bool,
    },
    AwaitingCalibrationOfSensor {
        seconds_since_the_last_value: u64,
    },
    Pulse(u8, Option<u8>, i16),
}

impl uDebug for Order {
    ghost document = { elim [
      | Up ↦ named "Up"
      | Interrupted line ↦ named_tuple "Interrupted" (number line ∷ [])
      | Apply set ↦ named_struct "Apply" (("set", ⟦<Mix as uDebug>⟧.document set) ∷ [])
      | HoldPosition set locked ↦ named_tuple "HoldPosition" (⟦<Mix as uDebug>⟧.document set ∷ ⟦<bool as uDebug>⟧.document locked ∷ [])
      | CrossFadeBetween start end repeated ↦ named_struct "CrossFadeBetween" (("starting_point", ⟦<Mix as uDebug>⟧.document start) ∷ ("end_point", ⟦<Mix as uDebug>⟧.document end) ∷ ("repeated", ⟦<bool as uDebug>⟧.document repeated) ∷ [])
      | AwaitingCalibrationOfSensor seconds ↦ named_struct "AwaitingCalibrationOfSensor" (("seconds_since_the_last_value", number seconds) ∷ [])
      | Pulse count pause level ↦ named_tuple "Pulse" (number count ∷ ⟦<Option<u8> as uDebug>⟧.document pause ∷ integer level ∷ [])
    ] };

    fn fmt<W: uWrite>(&self, f: &mut Formatter<W>) -> Result<(), W::Error> {
        variants!(
            f,
            self,
            Order { Up, Interrupted(line), Apply { set }, HoldPosition(set, locked), CrossFadeBetween { starting_point, end_point, repeated }, AwaitingCalibrationOfSensor { seconds_since_the_last_value }, Pulse(count, pause, level) }
        )
    }
}

impl<A: Copy> uParse<A> for Order {
    ghost is_value = { elim [
      | Up ↦ ⊤
      | Interrupted line ↦ is_u32 line
      | Apply set ↦ is_u8 set.channel × is_i16 set.level
      | HoldPosition set locked ↦ is_u8 set.channel × is_i16 set.level
      | CrossFadeBetween start end repeated ↦ (is_u8 start.channel × is_i16 start.level) × (is_u8 end.channel × is_i16 end.level)
      | AwaitingCalibrationOfSensor seconds ↦ is_u64 seconds
      | Pulse count pause level ↦ is_u8 count × (IfSome pause is_u8 × is_i16 level)
    ] };

    fn prove_value(&self) {
        prove_variants!(
            A,
            self,
            Order { Up, Interrupted(line), Apply { set }, HoldPosition(set, locked), CrossFadeBetween { starting_point, end_point, repeated }, AwaitingCalibrationOfSensor { seconds_since_the_last_value }, Pulse(count, pause, level) }
        )
    }

    fn parse_from<M: ParseMode>(alloc: A, parser: &mut Parser<'_, M>) -> Result<Order, Fault> {
        parse_variants!(
            alloc,
            parser,
            Order { Up, Interrupted(line), Apply { set }, HoldPosition(set, locked), CrossFadeBetween { starting_point, end_point, repeated }, AwaitingCalibrationOfSensor { seconds_since_the_last_value }, Pulse(count, pause, level) }
        )
    }
}

#[test]
fn structs_and_long_names_in_variants_are_parsed(rt: HostRuntime) {
    let fading =
        "CrossFadeBetween { starting_point: Mix { channel: 0, level: -32768 }, end_point: Mix { channel: 255, level: 32767 }, repeated: true }";
    all_stop!(rt, Order;
        "Up" => "";
        "Interrupted(4294967295)" => "";
        "Apply { set: Mix { channel: 0, level: -32768 } }" => "";
        "HoldPosition(Mix { channel: 255, level: 32767 }, false)" => "";
        fading => "";
        "AwaitingCalibrationOfSensor { seconds_since_the_last_value: 18446744073709551615 }" => "";
        "Pulse(3, None, -1)" => "";
        "Pulse(0, Some(255), 0)" => "";
        "Upp" => "0 Name";
        "Interrupte(1)" => "0 Name";
        "Interruptedd(1)" => "0 Name";
        "Interrupted(4294967296)" => "12 Number";
        "Apply { set: Mix { channel: 256, level: 0 } }" => "28 Number";
        "Apply(Mix { channel: 1, level: 2 })" => "5 Punctuation";
        "Apply { est: Mix { channel: 1, level: 2 } }" => "8 Name";
        "HoldPositoin(Mix { channel: 1, level: 2 }, true)" => "0 Name";
        "Apply { set: Up }" => "13 Name";
        "HoldPosition(Mix { channel: 1, level: 2 }, maybe)" => "43 Name";
        "HoldPosition(Mix { channel: 1, level: 2 })" => "41 Punctuation";
        "CrossFadeBetween { starting_piont: Mix { channel: 0, level: 0 } }" => "19 Name";
        "AwaitingCalibrationOfSensor { seconds_since_the_last_valeu: 1 }" => "30 Name";
        "Pulse(3, Some(256), -1)" => "14 Number";
        "Pulsed(3, None, -1)" => "0 Name";
    );
    let seconds_since_the_last_value = 7;
    let text = b"AwaitingCalibrationOfSensor { seconds_since_the_last_value: 7 }";
    let wanted = Order::AwaitingCalibrationOfSensor {
        seconds_since_the_last_value,
    };
    same(&rt, parse((), text), Ok(wanted), "its field");
    let (channel, level) = (255, 32767);
    let high = Mix { channel, level };
    let pretty =
        "HoldPosition(\n    Mix {\n        channel: 255,\n        level: 32767,\n    },\n    true,\n)";
    let held = parse_pretty((), pretty.as_bytes());
    same(&rt, held, Ok(Order::HoldPosition(high, true)), pretty);
    let refused = parse_pretty::<Order, ()>((), fading.as_bytes());
    let wanted = Err(not_text(16, Expected::Punctuation));
    same(&rt, refused, wanted, fading);
}
