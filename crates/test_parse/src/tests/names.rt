//! Tests of names that are no words of ASCII. No name of Rattle is one, so the calls are written by hand.
ghost use Rattle.std.specs.Prelude.{[], ◌∷◌, ⊤};
ghost use Rattle.ufmt.specs.Document.{documents, fields_of, leaf, struct_of, tuple_of};
ghost use Rattle.ufmt.specs.ValueDocuments.{number, string};
ghost use Rattle.test_parse.specs.declared.tests.names.Shape.TheVariants.{Sized, Empty, Paired, Raised};
ghost use Rattle.test_parse.specs.declared.tests.names.TheConstants.{EMPTY, HEIGHT, PATH, SIZE, TITLE};
ghost use Rattle.ufmt_parse.specs.Values.{is_u8};

use super::{first_wrong, same};
use std::alloc::Global;
use test_rows::put_rows;
use test_rows::rows::Table;
use ufmt::{Formatter, uDebug, uWrite};
use ufmt_parse::{
    ByType, Fault, ParseMode, Parser, parse_struct_1, parse_struct_2, parse_tuple_2, parse_unit,
    prove_variants, uParse,
};

const SIZE: &str = "Größe";

const HEIGHT: &str = "höhe";

const TITLE: &str = "名";

const PATH: &str = "größen::a.b/c+ü";

const EMPTY: &str = "Empty";

/// A struct of the rows that rustc prints.
#[derive(Drop)]
pub struct Size {
    height: u8,
    title: String,
}

impl uDebug for Size {
    ghost document = { λ s. struct_of SIZE.now (fields_of
        ((HEIGHT.now, number s.height) ∷ (TITLE.now, string s.title) ∷ [])) };

    fn fmt<W: uWrite>(&self, f: &mut Formatter<W>) -> Result<(), W::Error> {
        f.struct_2(SIZE, HEIGHT, &self.height, TITLE, &self.title)
    }
}

impl uParse<Global> for Size {
    ghost is_value = { λ s. is_u8 s.height };

    fn prove_value(&self) {
        let _height = self.height;
    }

    fn parse_from<M: ParseMode>(alloc: Global, parser: &mut Parser<'_, M>) -> Result<Size, Fault> {
        match parse_struct_2(alloc, parser, SIZE, HEIGHT, &ByType, TITLE, &ByType) {
            Ok((height, title)) => Ok(Size { height, title }),
            Err(fault) => Err(fault),
        }
    }
}

/// Variants of each shape.
#[derive(Clone, Copy, PartialEq, Eq, Debug, Drop)]
pub enum Shape {
    Sized,
    Empty,
    Paired(u8, bool),
    Raised { height: u8 },
}

impl uDebug for Shape {
    ghost document = { elim [
      | Sized ↦ leaf SIZE.now
      | Empty ↦ leaf EMPTY.now
      | Paired a b ↦ tuple_of PATH.now (documents (number a ∷ ⟦<bool as uDebug>⟧.document b ∷ []))
      | Raised height ↦ struct_of TITLE.now (fields_of ((HEIGHT.now, number height) ∷ []))
    ] };

    fn fmt<W: uWrite>(&self, f: &mut Formatter<W>) -> Result<(), W::Error> {
        match self {
            Shape::Sized => f.write_str(SIZE),
            Shape::Empty => f.write_str(EMPTY),
            Shape::Paired(a, b) => f.tuple_2(PATH, a, b),
            Shape::Raised { height } => f.struct_1(TITLE, HEIGHT, height),
        }
    }
}

impl<A: Copy> uParse<A> for Shape {
    ghost is_value = { elim [
      | Sized ↦ ⊤
      | Empty ↦ ⊤
      | Paired a b ↦ is_u8 a
      | Raised height ↦ is_u8 height
    ] };

    fn prove_value(&self) {
        prove_variants!(A, self, Shape { Sized, Empty, Paired(a, b), Raised { height } })
    }

    // As `parse_variants!` writes it.
    fn parse_from<M: ParseMode>(alloc: A, parser: &mut Parser<'_, M>) -> Result<Shape, Fault> {
        if parser.is_named(SIZE) {
            match parse_unit(parser, SIZE) {
                Ok(()) => Ok(Shape::Sized),
                Err(fault) => Err(fault),
            }
        } else if parser.is_named(EMPTY) {
            match parse_unit(parser, EMPTY) {
                Ok(()) => Ok(Shape::Empty),
                Err(fault) => Err(fault),
            }
        } else if parser.is_named(PATH) {
            match parse_tuple_2(alloc, parser, PATH, &ByType, &ByType) {
                Ok((a, b)) => Ok(Shape::Paired(a, b)),
                Err(fault) => Err(fault),
            }
        } else if parser.is_named(TITLE) {
            match parse_struct_1(alloc, parser, TITLE, HEIGHT, &ByType) {
                Ok(height) => Ok(Shape::Raised { height }),
                Err(fault) => Err(fault),
            }
        } else {
            Err(Fault::NotText)
        }
    }
}

// The values of two rows that rustc prints, in both modes.
#[test]
fn names_past_ascii_print_as_by_rustc(rt: HostRuntime) {
    let alloc = rt.alloc();
    let size = Size {
        height: 1,
        title: String::from_str(alloc, "é").expect(&rt, "memory"),
    };
    let shapes = [Shape::Sized, Shape::Empty];
    let mut table = Table::new(alloc);
    put_rows!(table;
        texts(&size) => "Größe { höhe: 1, 名: \"é\" }~\nGröße {\n    höhe: 1,\n    名: \"é\",\n}";
        texts(&shapes) => "[Größe, Empty]~\n[\n    Größe,\n    Empty,\n]";
    );
    same(&rt, table.text(), Some(table.wanted()), "names");
}

// Each text of the first row comes back from both modes, and each of the second is refused.
#[test]
fn names_past_ascii_are_parsed(rt: HostRuntime) {
    all_read!(rt, Size;
        "Größe { höhe: 1, 名: \"é\" }", "Größe { höhe: 255, 名: \"\" }";
        "Größe { hohe: 1, 名: \"é\" }", "Größ { höhe: 1, 名: \"é\" }", "Größe: { höhe: 1, 名: \"é\" }",
        "Größe { höhe: 256, 名: \"é\" }", "Größe { höhe: 1, 名 : \"é\" }", "Größe"
    );
    all_read!(rt, Vec<Shape>;
        "[Größe, Empty]", "[größen::a.b/c+ü(3, true)]", "[名 { höhe: 4 }, Größe]", "[]";
        "[Größer]", "[Größe::a]", "[Größ]", "[Größe:]", "[Emptyé]", "[größen:a.b/c+ü(3, true)]", "[größen::a.b/c+u(3, true)]",
        "[größen::a.b(3, true)]", "[größen::a.b/c+ü (3, true)]", "[größen::a.b/c+ü]", "[größen(3, true)]", "[名]", "[名(4)]"
    );
    all_read!(rt, Option<Shape>; "Some(Größe)", "None"; "Some(Größe: )", "Größe");
}
