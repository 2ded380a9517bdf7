//! A measurement of a log, read back as a value. Its names are long.
ghost use Rattle.std.specs.Prelude.{[], ◌∷◌, ◌≡◌, ◌≢◌, ⊤, ℕ, IfOk, IsErrOf};
ghost use Rattle.ufmt.specs.Layout.{plain_text};
ghost use Rattle.ufmt.specs.ValueDocuments.{integer, named_struct, number};
ghost use Rattle.ufmt_parse.specs.Values.{is_i32, is_u8};

use ufmt::{Formatter, fields, uDebug, uWrite};
use ufmt_parse::{
    Expected, Fault, ParseError, ParseMode, Parser, parse, parse_fields, prove_fields, uParse,
};

/// What a sensor measured.
#[derive(Clone, Copy, PartialEq, Eq, Debug, Drop)]
pub struct Measurement {
    pub channel: u8,
    pub celsius: i32,
}

impl uDebug for Measurement {
    ghost document = { λ m. named_struct "Measurement"
        (("channel", number m.channel) ∷ ("celsius", integer m.celsius) ∷ []) };

    fn fmt<W: uWrite>(&self, f: &mut Formatter<W>) -> Result<(), W::Error> {
        fields!(f, self, Measurement { channel, celsius })
    }
}

impl<A: Copy> uParse<A> for Measurement {
    ghost is_value = { λ m. is_u8 m.channel × is_i32 m.celsius };

    ghost holds_no_memory = { ⊤ };

    fn prove_value(&self) {
        prove_fields!(A, self, Measurement { channel, celsius })
    }

    fn parse_from<M: ParseMode>(
        alloc: A,
        parser: &mut Parser<'_, M>,
    ) -> Result<Measurement, Fault> {
        parse_fields!(alloc, parser, Measurement { channel, celsius })
    }
}

/// Parses a measurement, such as `Measurement { channel: 3, celsius: -4 }`. Fails with `NotText` if no measurement has this text, and
/// never with another error.
pub fn parse_measurement(line: &[u8]) -> Result<Measurement, ParseError>
    ensures text { IfOk result (λ m. plain_text (⟦<Measurement as uDebug>⟧.document m) ≡ line.now) }
    ensures not_text { (at : ℕ) (expected : Expected) → IsErrOf result (ParseError.NotText at expected)
        → (m : Measurement) → is_u8 m.channel → is_i32 m.celsius → plain_text (⟦<Measurement as uDebug>⟧.document m) ≢ line.now }
    ensures memory { IsErrOf result ParseError.OutOfMemory → ⊥ }
{
    parse((), line)
}
