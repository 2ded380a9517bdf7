//! A setting of a mixer, which is printed and parsed.
#![tactic(auto)]

ghost use Rattle.std.specs.Prelude.{[], ◌∷◌, ⊤};
ghost use Rattle.ufmt.specs.ValueDocuments.{integer, named_struct, number};
ghost use Rattle.ufmt_parse.specs.Values.{is_i16, is_u8};

use ufmt::{Formatter, fields, uDebug, uWrite};
use ufmt_parse::{Fault, ParseMode, Parser, parse_fields, prove_fields, uParse};

/// The level of a channel, in decibels.
#[derive(Clone, Copy, PartialEq, Eq, Debug, Drop)]
pub struct Mix {
    pub channel: u8,
    pub level: i16,
}

impl uDebug for Mix {
    ghost document = { λ s. named_struct "Mix"
        (("channel", number s.channel) ∷ ("level", integer s.level) ∷ []) };

    fn fmt<W: uWrite>(&self, f: &mut Formatter<W>) -> Result<(), W::Error> {
        fields!(f, self, Mix { channel, level })
    }
}

impl<A: Copy> uParse<A> for Mix {
    ghost is_value = { λ s. is_u8 s.channel × is_i16 s.level };

    ghost holds_no_memory = { ⊤ };

    fn prove_value(&self) {
        prove_fields!(A, self, Mix { channel, level })
    }

    fn parse_from<M: ParseMode>(alloc: A, parser: &mut Parser<'_, M>) -> Result<Mix, Fault> {
        parse_fields!(alloc, parser, Mix { channel, level })
    }
}

#[cfg(test)]
mod tests {
    use super::*;
    use ufmt::debug_into;
    use ufmt_parse::{ParseError, parse};

    const TEXT: &[u8] = b"Mix { channel: 3, level: -4 }";

    #[test]
    fn a_setting_is_printed_to_a_buffer_and_parsed(rt: HostRuntime) {
        let mix = Mix {
            channel: 3,
            level: -4,
        };
        let mut buffer = [0; 32];
        assert_eq!(rt; debug_into(&mut buffer, &mix), Ok(TEXT.len()));
        assert_eq!(rt; &buffer[..TEXT.len()], TEXT);
        assert_eq!(rt; parse::<Mix, ()>((), TEXT), Ok(mix));
        let wrong = parse::<Mix, ()>((), b"Mix { channel: 300, level: -4 }");
        assert!(rt; matches!(wrong, Err(ParseError::NotText { .. })));
    }
}
