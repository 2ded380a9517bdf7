//! Values that print as their name alone: variants and structs without fields.
ghost use Rattle.std.specs.Prelude.{◌≡◌, ◌≤◌, length, true, IfOk, IfErr};
ghost use Rattle.ufmt_core.specs.Document.{Document, leaf, no_documents, no_fields, struct_of, tuple_of};
ghost use Rattle.ufmt_parser.specs.Naming.{is_debug_name, is_unit};
ghost use Rattle.ufmt_parser.specs.Needs.{need};
ghost use Rattle.ufmt_parser.specs.Next.{IsNotNext, NextLeaves};
ghost use Rattle.ufmt_parser.specs.Taking.{IsTaken, open_blocks, rest};

use crate::detail::Detail;
use crate::mode::ParseMode;
use crate::need::Need;
use crate::parser::{Fault, Parser};

/// Parses a name, as `parse_from` does a value that prints as its name alone. The name may be the beginning
/// of a longer one: see `is_named`.
#[inline(always)]
pub fn parse_unit<M: ParseMode>(parser: &mut Parser<'_, M>, name: &'static str) -> Result<(), Fault>
    requires { is_debug_name name.now ≡ true }
    ensures taken { IfOk result (λ _. IsTaken M.mode parser.old (leaf name.now) parser.new) }
    ensures struct_taken { IfOk result (λ _. IsTaken M.mode parser.old (struct_of name.now no_fields) parser.new) }
    ensures tuple_taken { IfOk result (λ _. IsTaken M.mode parser.old (tuple_of name.now no_documents) parser.new) }
    ensures only { IfOk result (λ _. (d : Document) → is_unit name.now d ≡ true
        → NextLeaves M.mode parser.old d parser.new) }
    ensures none { IfErr result (λ _. (d : Document) → is_unit name.now d ≡ true
        → IsNotNext M.mode parser.old d) }
    ensures memory { IfErr result (λ fault. fault ≡ Fault.NotText) }
    ensures needs { IfErr result (λ _. (rest parser.new ≡ rest parser.old) × (need parser.new ≡ Need.Name)) }
    ensures blocks { IfOk result (λ _. open_blocks parser.new ≡ open_blocks parser.old) }
    ensures shrinks { length (rest parser.new) ≤ length (rest parser.old) }
{
    if parser.eat(name) {
        Ok(())
    } else {
        Err(parser.refuse_in_detail(Need::Name, Detail::Name(name)))
    }
}
