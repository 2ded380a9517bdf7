//! A value that was printed to a log, parsed from its line.
ghost use Rattle.std.specs.Prelude.{◌≡◌, ◌≢◌, ℕ, IfOk, IsErrOf};
ghost use Rattle.ufmt.specs.Layout.{plain_text};
ghost use Rattle.example_parse.specs.Alarm.{alarm_document};
ghost use Rattle.ufmt_parse.specs.Values.{is_u16};

#[cfg(test)]
mod tests;

use std::alloc::Global;
use ufmt::{Formatter, fields, uDebug, uWrite};
use ufmt_parse::{
    Expected, Fault, ParseError, ParseMode, Parser, parse, parse_fields, prove_fields, uParse,
};

/// What a node of a network reports.
#[derive(Drop)]
pub struct Alarm {
    pub node: u16,
    pub text: String,
}

impl uDebug for Alarm {
    ghost document = { alarm_document };

    fn fmt<W: uWrite>(&self, f: &mut Formatter<W>) -> Result<(), W::Error> {
        fields!(f, self, Alarm { node, text })
    }
}

impl uParse<Global> for Alarm {
    ghost is_value = { λ a. is_u16 a.node };

    fn prove_value(&self) {
        prove_fields!(Global, self, Alarm { node, text })
    }

    fn parse_from<M: ParseMode>(alloc: Global, parser: &mut Parser<'_, M>) -> Result<Alarm, Fault> {
        parse_fields!(alloc, parser, Alarm { node, text })
    }
}

/// Returns the alarm that was printed to a line. Fails with `NotText` if no alarm was.
pub fn parse_alarm(alloc: Global, line: &[u8]) -> Result<Alarm, ParseError>
    ensures ok { IfOk result (λ alarm. plain_text (alarm_document alarm) ≡ line.now) }
    ensures not_text { (at : ℕ) (expected : Expected) → IsErrOf result (ParseError.NotText at expected)
        → (alarm : Alarm) → is_u16 alarm.node → plain_text (alarm_document alarm) ≢ line.now }
{
    parse(alloc, line)
}
