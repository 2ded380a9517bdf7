//! Enums: variants without fields, with unnamed and with named ones.
ghost use Rattle.std.specs.Prelude.{[], ◌∷◌};
ghost use Rattle.ufmt.specs.ValueDocuments.{named, named_struct, named_tuple};
ghost use Rattle.example_print.specs.declared.enums.Letter.TheVariants.{A, B, C};
ghost use Rattle.example_print.specs.declared.enums.Y.TheVariants.{W, Z};

use ufmt::{Formatter, fields, uDebug, uWrite, variants};

/// An enum with the three kinds of variants.
#[derive(Drop)]
pub enum Letter<T> {
    A,
    B(T, T),
    C { x: T, y: T },
}

impl<T: uDebug> uDebug for Letter<T> {
    ghost document = { elim [
      | A ↦ named "A"
      | B x y ↦ named_tuple "B" (T.document x ∷ T.document y ∷ [])
      | C x y ↦ named_struct "C" (("x", T.document x) ∷ ("y", T.document y) ∷ [])
    ] };

    fn fmt<W: uWrite>(&self, f: &mut Formatter<W>) -> Result<(), W::Error> {
        variants!(f, self, Letter { A, B(x, y), C { x, y } })
    }
}

/// An enum around one value, or none.
#[derive(Drop)]
pub enum Y<T> {
    W,
    Z(T),
}

impl<T: uDebug> uDebug for Y<T> {
    ghost document = { elim [ W ↦ named "W" | Z x ↦ named_tuple "Z" (T.document x ∷ []) ] };

    fn fmt<W: uWrite>(&self, f: &mut Formatter<W>) -> Result<(), W::Error> {
        match self {
            Y::W => fields!(f, W),
            Y::Z(value) => fields!(f, Z(value)),
        }
    }
}
