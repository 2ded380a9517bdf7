//! Numbers that are read from their texts.
ghost use Rattle.std.specs.Prelude.{◌≤◌, length, pos, true, IfErr, IfOk, List, ℕ};
ghost use lib.Ieee.{binary64};
ghost use Rattle.ufmt_core.specs.Decimal.{decimal};
ghost use Rattle.ufmt_core.specs.Document.{leaf};
ghost use Rattle.ufmt_core.specs.FloatText.{float_text};
ghost use Rattle.ufmt_grammar.specs.Token.{IsDebugDocument};
ghost use Rattle.ufmt_core.specs.declared.layout.Mode.TheVariants.{Plain};
ghost use Rattle.ufmt_parse_leaves.specs.Values.{is_f64, is_i64, is_u64};
ghost use Rattle.ufmt_parser.specs.Next.{IsNotNext, NextLeaves};
ghost use Rattle.ufmt_parser.specs.Taking.{IsTaken, rest};
ghost use Rattle.ufmt_c.specs.Numbers.{ReadsNumber};

use crate::code::NO_TEXT;
use ufmt_parse_leaves::floats::parse_float;
use ufmt_parse_leaves::integers::parse_integer;
use ufmt_parser::mode::PlainText;
use ufmt_parser::parser::{Fault, Parser};

// Promise (programs): A number that C reads, whole or a float, has the text that was passed. `no_text` means
// that no number has it. Also: `ufmt_parse_signed`, `ufmt_parse_float`.
/// Reads the number of which `ufmt_unsigned` writes this input, and returns 0. Returns `NO_TEXT` only if
/// there is none, and leaves `number`. Then, after a number that a text follows as in a value's text,
/// `detail` becomes where the number ends.
#[unsafe(no_mangle)]
pub extern "C" fn ufmt_parse_unsigned(number: &mut u64, input: &[u8], detail: &mut usize) -> isize
    ensures { ReadsNumber is_u64 (λ n. decimal (pos n)) input.now number.old detail.old result
        number.new detail.new }
{
    read(number, input, detail)
}

/// Reads the number of which `ufmt_signed` writes this input. Fails as `ufmt_parse_unsigned` does.
#[unsafe(no_mangle)]
pub extern "C" fn ufmt_parse_signed(number: &mut i64, input: &[u8], detail: &mut usize) -> isize
    ensures { ReadsNumber is_i64 (λ n. decimal n) input.now number.old detail.old result number.new
        detail.new }
{
    read(number, input, detail)
}

/// Reads the float of which `ufmt_float` writes this input. Fails as `ufmt_parse_unsigned` does.
#[unsafe(no_mangle)]
pub extern "C" fn ufmt_parse_float(number: &mut f64, input: &[u8], detail: &mut usize) -> isize
    ensures { ReadsNumber is_f64 (λ x. float_text binary64 true x) input.now number.old detail.old
        result number.new detail.new }
{
    read(number, input, detail)
}

// A number that is taken from the front of a text.
trait Number: Copy {
    ghost is_number: { Self → Type 0 };

    ghost text_of: { Self → List ℕ };

    fn take(parser: &mut Parser<'_, PlainText>) -> Result<Self, Fault>
        ensures leaves { (n : Self) → is_number n → IsDebugDocument (leaf (text_of n)) }
        ensures taken { IfOk result (λ n. IsTaken Plain parser.old (leaf (text_of n)) parser.new) }
        ensures only { IfOk result (λ _. (n : Self) → is_number n → NextLeaves Plain parser.old (leaf (text_of n)) parser.new) }
        ensures none { IfErr result (λ _. (n : Self) → is_number n → IsNotNext Plain parser.old (leaf (text_of n))) }
        ensures shrinks { length (rest parser.new) ≤ length (rest parser.old) };
}

impl Number for u64 {
    ghost is_number = { is_u64 };

    ghost text_of = { λ n. decimal (pos n) };

    fn take(parser: &mut Parser<'_, PlainText>) -> Result<u64, Fault> {
        parse_integer::<u64, u64, PlainText>(parser, true)
    }
}

impl Number for i64 {
    ghost is_number = { is_i64 };

    ghost text_of = { λ n. decimal n };

    fn take(parser: &mut Parser<'_, PlainText>) -> Result<i64, Fault> {
        parse_integer::<u64, i64, PlainText>(parser, true)
    }
}

impl Number for f64 {
    ghost is_number = { is_f64 };

    ghost text_of = { λ x. float_text binary64 true x };

    fn take(parser: &mut Parser<'_, PlainText>) -> Result<f64, Fault> {
        parse_float::<f64, PlainText>(parser)
    }
}

// Reads a number of the type.
fn read<T: Number>(number: &mut T, input: &[u8], detail: &mut usize) -> isize
    ensures { ReadsNumber T.is_number T.text_of input.now number.old detail.old result number.new
        detail.new }
{
    let mut parser: Parser<'_, PlainText> = Parser::new(input);
    match T::take(&mut parser) {
        Ok(value) => {
            if parser.len() == 0 {
                *number = value;
                return 0;
            }
            *detail = input.len() - parser.len();
            NO_TEXT
        }
        Err(_fault) => {
            *detail = input.len() - parser.len();
            NO_TEXT
        }
    }
}
