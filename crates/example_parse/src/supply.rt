//! A struct with a `Decimal` field, printed and parsed.
ghost use Rattle.std.specs.Prelude.{[], ◌∷◌, ⊤};
ghost use Rattle.ufmt.specs.ValueDocuments.{named_struct, number};
ghost use Rattle.ufmt_parse.specs.Values.{is_i64, is_u8};

use ufmt::{Decimal, Formatter, fields, uDebug, uWrite};
use ufmt_parse::{Fault, ParseMode, Parser, parse_fields, prove_fields, uParse};

/// A reading of a power supply. `volts` has as many decimal places as the display.
#[derive(Clone, Copy, PartialEq, Debug, Drop)]
pub struct Supply {
    pub channel: u8,
    pub volts: Decimal,
}

impl uDebug for Supply {
    ghost document = { λ s. named_struct "Supply"
        (("channel", number s.channel) ∷ ("volts", ⟦<Decimal as uDebug>⟧.document s.volts) ∷ []) };

    fn fmt<W: uWrite>(&self, f: &mut Formatter<W>) -> Result<(), W::Error> {
        fields!(f, self, Supply { channel, volts })
    }
}

impl<A: Copy> uParse<A> for Supply {
    ghost is_value = { λ s. is_u8 s.channel × is_i64 s.volts.value × is_u8 s.volts.places };

    ghost holds_no_memory = { ⊤ };

    fn prove_value(&self) {
        prove_fields!(A, self, Supply { channel, volts })
    }

    fn parse_from<M: ParseMode>(alloc: A, parser: &mut Parser<'_, M>) -> Result<Supply, Fault> {
        parse_fields!(alloc, parser, Supply { channel, volts })
    }
}
