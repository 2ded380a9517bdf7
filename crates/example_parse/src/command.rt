//! A command line of a mixer, parsed with no allocator in scope.
ghost use Rattle.std.specs.Prelude.{[], ◌∷◌, ◌≡◌, ◌≢◌, ⊤, ℕ, IfOk, IsErrOf};
ghost use Rattle.ufmt.specs.Layout.{plain_text};
ghost use Rattle.ufmt.specs.ValueDocuments.{integer, named_struct, number};
ghost use Rattle.ufmt_parse.specs.Values.{is_i16, is_u8};

#[cfg(test)]
mod tests;

use ufmt::{Formatter, fields, uDebug, uWrite};
use ufmt_parse::{
    Expected, Fault, ParseError, ParseMode, Parser, parse, parse_fields, prove_fields, uParse,
};

/// Sets the level of a channel, in decibels.
#[derive(Clone, Copy, PartialEq, Eq, Debug, Drop)]
pub struct Mix {
    pub channel: u8,
    pub level: i16,
}

impl uDebug for Mix {
    ghost document = { λ s. named_struct "Mix"
        (("channel", number s.channel) ∷ ("level", integer s.level) ∷ []) };

    fn fmt<W: uWrite>(&self, f: &mut Formatter<W>) -> Result<(), W::Error> {
        fields!(f, self, Mix { channel, level })
    }
}

impl<A: Copy> uParse<A> for Mix {
    ghost is_value = { λ s. is_u8 s.channel × is_i16 s.level };

    ghost holds_no_memory = { ⊤ };

    fn prove_value(&self) {
        prove_fields!(A, self, Mix { channel, level })
    }

    fn parse_from<M: ParseMode>(alloc: A, parser: &mut Parser<'_, M>) -> Result<Mix, Fault> {
        parse_fields!(alloc, parser, Mix { channel, level })
    }
}

/// Parses a command line, as `Mix { channel: 3, level: -4 }`. Fails with `NotText` if no `Mix` prints so, and never
/// with another error.
pub fn parse_command(line: &[u8]) -> Result<Mix, ParseError>
    ensures text { IfOk result (λ mix. plain_text (⟦<Mix as uDebug>⟧.document mix) ≡ line.now) }
    ensures not_text { (at : ℕ) (expected : Expected) → IsErrOf result (ParseError.NotText at expected)
        → (mix : Mix) → is_u8 mix.channel → is_i16 mix.level → plain_text (⟦<Mix as uDebug>⟧.document mix) ≢ line.now }
    ensures memory { IsErrOf result ParseError.OutOfMemory → ⊥ }
{
    parse((), line)
}
