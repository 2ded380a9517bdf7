//! Types whose `fmt` is written by hand with builders. `example_print` has the same types by
//! `fields!`, and `by_fields` has `S`.
ghost use Rattle.std.specs.Prelude.{[], ◌∷◌};
ghost use Rattle.ufmt.specs.Document.{Document, pretty_part};
ghost use Rattle.ufmt.specs.ValueDocuments.{named_struct, named_tuple, number, option_document};
ghost use Rattle.test_rows.specs.declared.by_builders.Node.TheFolds.{fold-Node};
ghost use Rattle.test_rows.specs.declared.by_builders.Letter.TheVariants.{A, B, C};
ghost use Rattle.test_rows.specs.declared.by_builders.Y.TheVariants.{W, Z};

use ufmt::{Formatter, uDebug, uWrite};

/// A struct with two fields.
#[derive(Drop)]
pub struct Pair<T, U> {
    pub x: T,
    pub y: U,
}

impl<T: uDebug, U: uDebug> uDebug for Pair<T, U> {
    ghost document = { λ p. named_struct "Pair"
        (("x", T.document p.x) ∷ ("y", U.document p.y) ∷ []) };

    fn fmt<W: uWrite>(&self, f: &mut Formatter<W>) -> Result<(), W::Error> {
        let mut pair = f.debug_struct("Pair")?;
        pair.field("x", &self.x)?;
        pair.field("y", &self.y)?;
        pair.finish()
    }
}

/// A struct of two values of one type.
#[derive(Drop)]
pub struct Nested<T> {
    pub first: T,
    pub second: T,
}

impl<T: uDebug> uDebug for Nested<T> {
    ghost document = { λ n. named_struct "Nested"
        (("first", T.document n.first) ∷ ("second", T.document n.second) ∷ []) };

    fn fmt<W: uWrite>(&self, f: &mut Formatter<W>) -> Result<(), W::Error> {
        let mut nested = f.debug_struct("Nested")?;
        nested.field("first", &self.first)?;
        nested.field("second", &self.second)?;
        nested.finish()
    }
}

/// A struct with a name of one letter.
#[derive(Drop)]
pub struct S<M, N> {
    pub m: M,
    pub n: N,
}

impl<M: uDebug, N: uDebug> uDebug for S<M, N> {
    ghost document = { λ s. named_struct "S"
        (("m", M.document s.m) ∷ ("n", N.document s.n) ∷ []) };

    fn fmt<W: uWrite>(&self, f: &mut Formatter<W>) -> Result<(), W::Error> {
        let mut builder = f.debug_struct("S")?;
        builder.field("m", &self.m)?;
        builder.field("n", &self.n)?;
        builder.finish()
    }
}

/// A struct with braces and no fields.
#[derive(Drop)]
pub struct Braces {}

impl uDebug for Braces {
    ghost document = { λ _. named_struct "Braces" [] };

    fn fmt<W: uWrite>(&self, f: &mut Formatter<W>) -> Result<(), W::Error> {
        f.debug_struct("Braces")?.finish()
    }
}

/// A struct with parentheses and no fields.
#[derive(Drop)]
pub struct Parens();

impl uDebug for Parens {
    ghost document = { λ _. named_tuple "Parens" [] };

    fn fmt<W: uWrite>(&self, f: &mut Formatter<W>) -> Result<(), W::Error> {
        f.debug_tuple("Parens")?.finish()
    }
}

/// A struct with two fields without names.
#[derive(Drop)]
pub struct Tuple<T, U>(pub T, pub U);

impl<T: uDebug, U: uDebug> uDebug for Tuple<T, U> {
    ghost document = { λ t. named_tuple "Tuple" (T.document t.0 ∷ U.document t.1 ∷ []) };

    fn fmt<W: uWrite>(&self, f: &mut Formatter<W>) -> Result<(), W::Error> {
        let mut tuple = f.debug_tuple("Tuple")?;
        tuple.field(&self.0)?;
        tuple.field(&self.1)?;
        tuple.finish()
    }
}

/// A struct around one value.
#[derive(Drop)]
pub struct I32<T>(pub T);

impl<T: uDebug> uDebug for I32<T> {
    ghost document = { λ x. named_tuple "I32" (T.document x.0 ∷ []) };

    fn fmt<W: uWrite>(&self, f: &mut Formatter<W>) -> Result<(), W::Error> {
        let mut tuple = f.debug_tuple("I32")?;
        tuple.field(&self.0)?;
        tuple.finish()
    }
}

/// Another struct around one value.
#[derive(Drop)]
pub struct X<T>(pub T);

impl<T: uDebug> uDebug for X<T> {
    ghost document = { λ x. named_tuple "X" (T.document x.0 ∷ []) };

    fn fmt<W: uWrite>(&self, f: &mut Formatter<W>) -> Result<(), W::Error> {
        let mut tuple = f.debug_tuple("X")?;
        tuple.field(&self.0)?;
        tuple.finish()
    }
}

/// An enum with the three kinds of variants.
#[derive(Drop)]
pub enum Letter<T> {
    A,
    B(T, T),
    C { x: T, y: T },
}

impl<T: uDebug> uDebug for Letter<T> {
    ghost document = { elim [
      | A ↦ named_tuple "A" []
      | B x y ↦ named_tuple "B" (T.document x ∷ T.document y ∷ [])
      | C x y ↦ named_struct "C" (("x", T.document x) ∷ ("y", T.document y) ∷ [])
    ] };

    fn fmt<W: uWrite>(&self, f: &mut Formatter<W>) -> Result<(), W::Error> {
        match self {
            Letter::A => f.debug_tuple("A")?.finish(),
            Letter::B(x, y) => {
                let mut tuple = f.debug_tuple("B")?;
                tuple.field(x)?;
                tuple.field(y)?;
                tuple.finish()
            }
            Letter::C { x, y } => {
                let mut builder = f.debug_struct("C")?;
                builder.field("x", x)?;
                builder.field("y", y)?;
                builder.finish()
            }
        }
    }
}

/// An enum around one value, or none.
#[derive(Drop)]
pub enum Y<T> {
    W,
    Z(T),
}

impl<T: uDebug> uDebug for Y<T> {
    ghost document = { elim [ W ↦ named_tuple "W" [] | Z x ↦ named_tuple "Z" (T.document x ∷ []) ] };

    fn fmt<W: uWrite>(&self, f: &mut Formatter<W>) -> Result<(), W::Error> {
        match self {
            Y::W => f.debug_tuple("W")?.finish(),
            Y::Z(value) => {
                let mut tuple = f.debug_tuple("Z")?;
                tuple.field(value)?;
                tuple.finish()
            }
        }
    }
}

/// A number, and perhaps another node. Both fields are written in halves.
#[derive(Drop)]
pub struct Node {
    pub value: u64,
    pub next: Option<Box<Node>>,
}

impl uDebug for Node {
    ghost document = { fold-Node Document
        (λ n. named_struct "Node"
        (("value", number n.value) ∷ ("next", option_document (λ b. b.value) n.next) ∷ [])) };

    fn fmt<W: uWrite>(&self, f: &mut Formatter<W>) -> Result<(), W::Error> {
        let mut node = f.debug_struct("Node")?;
        let outcome = self.value.fmt(node.begin_field("value")?);
        node.end_field(outcome)?;
        let outcome = self.next.fmt(node.begin_field("next")?);
        node.end_field(outcome)?;
        node.finish()
    }
}

/// A value that prints in pretty mode, by a call in a closure.
#[derive(Drop)]
pub struct InPrettyMode<T>(pub T);

impl<T: uDebug> uDebug for InPrettyMode<T> {
    ghost document = { λ x. pretty_part (T.document x.0) };

    #[tactic(auto, using(ufmt::proofs::PiecesInARow::laid_out_in_pretty))]
    fn fmt<W: uWrite>(&self, f: &mut Formatter<W>) -> Result<(), W::Error> {
        f.pretty(|f| self.0.fmt(f))
    }
}
