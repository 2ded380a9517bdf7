//! A measurement with a float in it.
ghost use Rattle.std.specs.Prelude.{[], ◌∷◌};
ghost use Rattle.ufmt.specs.ValueDocuments.{float64, named_struct, number};

use ufmt::{Formatter, fields, uDebug, uWrite};

/// What a sensor measured.
#[derive(Clone, Copy)]
pub struct Sample {
    pub channel: u8,
    pub celsius: f64,
}

impl uDebug for Sample {
    ghost document = { λ s. named_struct "Sample"
        (("channel", number s.channel) ∷ ("celsius", float64 s.celsius) ∷ []) };

    fn fmt<W: uWrite>(&self, f: &mut Formatter<W>) -> Result<(), W::Error> {
        fields!(f, self, Sample { channel, celsius })
    }
}
