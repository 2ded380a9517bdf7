//! A measurement with a float in it, printed and parsed.
ghost use Rattle.std.specs.Prelude.{[], ◌∷◌, ⊤};
ghost use Rattle.ufmt.specs.ValueDocuments.{float64, named_struct, number};
ghost use Rattle.ufmt_parse.specs.Values.{is_f64, is_u8};

use ufmt::{Formatter, fields, uDebug, uWrite};
use ufmt_parse::{Fault, ParseMode, Parser, parse_fields, prove_fields, uParse};

/// What a sensor measured.
#[derive(Clone, Copy, PartialEq, Debug, Drop)]
pub struct Sample {
    pub channel: u8,
    pub celsius: f64,
}

impl uDebug for Sample {
    ghost document = { λ s. named_struct "Sample"
        (("channel", number s.channel) ∷ ("celsius", float64 s.celsius) ∷ []) };

    fn fmt<W: uWrite>(&self, f: &mut Formatter<W>) -> Result<(), W::Error> {
        fields!(f, self, Sample { channel, celsius })
    }
}

impl<A: Copy> uParse<A> for Sample {
    ghost is_value = { λ s. is_u8 s.channel × is_f64 s.celsius };

    ghost holds_no_memory = { ⊤ };

    fn prove_value(&self) {
        prove_fields!(A, self, Sample { channel, celsius })
    }

    fn parse_from<M: ParseMode>(alloc: A, parser: &mut Parser<'_, M>) -> Result<Sample, Fault> {
        parse_fields!(alloc, parser, Sample { channel, celsius })
    }
}
