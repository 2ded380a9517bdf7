//! A struct whose fields are choices: a truth value and an option print one document or another.
ghost use Rattle.std.specs.Prelude.{[], ◌∷◌, IfSome};
ghost use Rattle.ufmt.specs.ValueDocuments.{named_struct, number, option_document};
ghost use Rattle.ufmt_parse.specs.Values.{is_u8};

use ufmt::{Formatter, fields, uDebug, uWrite};
use ufmt_parse::{Fault, ParseMode, Parser, parse_fields, prove_fields, uParse};

/// A struct of truth values and an option, whose documents are choices.
#[derive(Drop)]
pub struct Switch {
    pub is_on: bool,
    pub next: Option<u8>,
    pub is_lit: bool,
}

impl uDebug for Switch {
    ghost document = { λ s. named_struct "Switch"
        (("is_on", ⟦<bool as uDebug>⟧.document s.is_on) ∷ ("next", option_document number s.next)
        ∷ ("is_lit", ⟦<bool as uDebug>⟧.document s.is_lit) ∷ []) };

    fn fmt<W: uWrite>(&self, f: &mut Formatter<W>) -> Result<(), W::Error> {
        fields!(
            f,
            self,
            Switch {
                is_on,
                next,
                is_lit
            }
        )
    }
}

impl<A: Copy> uParse<A> for Switch {
    ghost is_value = { λ s. IfSome s.next is_u8 };

    fn prove_value(&self) {
        prove_fields!(
            A,
            self,
            Switch {
                is_on,
                next,
                is_lit
            }
        )
    }

    fn parse_from<M: ParseMode>(alloc: A, parser: &mut Parser<'_, M>) -> Result<Switch, Fault> {
        parse_fields!(
            alloc,
            parser,
            Switch {
                is_on,
                next,
                is_lit
            }
        )
    }
}
