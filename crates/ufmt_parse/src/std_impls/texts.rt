//! `String`, and the texts that a `Box`, an `Rc`, an `Arc` or a `Cow` holds, which print as one.
ghost use Rattle.std.specs.Cow.{cow_str_bytes};
ghost use Rattle.std.specs.Prelude.{⊤};
ghost use Rattle.std.specs.Str.{IsUtf8};
ghost use Rattle.ufmt_parse.specs.Places.{IsPiece};
ghost use Rattle.ufmt_parse.specs.declared.expected.Expected.TheVariants.{Text};

use crate::uparse::uParse;
use std::alloc::Allocator;
use std::borrow::CowStr;
use std::boxed::BoxedStr;
use std::rc::RcStr;
use std::sync::ArcStr;
use ufmt_parse_leaves::texts::parse_text;
use ufmt_parser::mode::ParseMode;
use ufmt_parser::parser::{Fault, Parser};

/// Takes a text in quotation marks. Fails with `OutOfMemory` if there is no room for the text.
impl<A: Allocator + Copy> uParse<A> for String<A> {
    ghost is_value = { λ _. ⊤ };

    ghost stops = { IsPiece Text };

    fn prove_value(&self) {}

    fn parse_from<M: ParseMode>(alloc: A, parser: &mut Parser<'_, M>) -> Result<String<A>, Fault> {
        parse_text(alloc, parser)
    }
}

impl<A: Allocator + Copy> uParse<A> for BoxedStr<A> {
    ghost is_value = { λ _. ⊤ };

    ghost stops = { IsPiece Text };

    fn prove_value(&self) {}

    fn parse_from<M: ParseMode>(
        alloc: A,
        parser: &mut Parser<'_, M>,
    ) -> Result<BoxedStr<A>, Fault> {
        let text = tri!(String::parse_from(alloc, parser));
        Ok(text.into_boxed_str())
    }
}

impl<A: Allocator + Copy> uParse<A> for RcStr<A> {
    ghost is_value = { λ _. ⊤ };

    ghost stops = { IsPiece Text };

    fn prove_value(&self) {}

    fn parse_from<M: ParseMode>(alloc: A, parser: &mut Parser<'_, M>) -> Result<RcStr<A>, Fault> {
        let text = tri!(String::parse_from(alloc, parser));
        match RcStr::from_string(text) {
            Err(_) => Err(Fault::OutOfMemory),
            Ok(shared) => Ok(shared),
        }
    }
}

impl<A: Allocator + Copy> uParse<A> for ArcStr<A> {
    ghost is_value = { λ _. ⊤ };

    ghost stops = { IsPiece Text };

    fn prove_value(&self) {}

    fn parse_from<M: ParseMode>(alloc: A, parser: &mut Parser<'_, M>) -> Result<ArcStr<A>, Fault> {
        let text = tri!(String::parse_from(alloc, parser));
        match ArcStr::from_string(text) {
            Err(_) => Err(Fault::OutOfMemory),
            Ok(shared) => Ok(shared),
        }
    }
}

/// Takes a text, which is owned.
impl<'a, A: Allocator + Copy> uParse<A> for CowStr<'a, A> {
    ghost is_value = { λ text. IsUtf8 (cow_str_bytes text) };

    ghost stops = { IsPiece Text };

    fn prove_value(&self) {
        // The clause of `as_bytes` says so.
        let _ = self.as_str().as_bytes();
    }

    fn parse_from<M: ParseMode>(
        alloc: A,
        parser: &mut Parser<'_, M>,
    ) -> Result<CowStr<'a, A>, Fault> {
        let text = tri!(parse_text(alloc, parser));
        Ok(CowStr::Owned(text))
    }
}
