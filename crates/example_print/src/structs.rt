//! Structs: with named fields, with unnamed ones, and with none.
ghost use Rattle.std.specs.Prelude.{[], ◌∷◌};
ghost use Rattle.ufmt.specs.ValueDocuments.{named_struct, named_tuple};

use ufmt::{Formatter, fields, uDebug, uWrite};

/// A struct with two fields of any types.
#[derive(Drop)]
pub struct Pair<T, U> {
    pub x: T,
    pub y: U,
}

impl<T: uDebug, U: uDebug> uDebug for Pair<T, U> {
    ghost document = { λ p. named_struct "Pair"
        (("x", T.document p.x) ∷ ("y", U.document p.y) ∷ []) };

    fn fmt<W: uWrite>(&self, f: &mut Formatter<W>) -> Result<(), W::Error> {
        fields!(f, self, Pair { x, y })
    }
}

/// A struct of two values of one type.
#[derive(Drop)]
pub struct Nested<T> {
    pub first: T,
    pub second: T,
}

impl<T: uDebug> uDebug for Nested<T> {
    ghost document = { λ n. named_struct "Nested"
        (("first", T.document n.first) ∷ ("second", T.document n.second) ∷ []) };

    fn fmt<W: uWrite>(&self, f: &mut Formatter<W>) -> Result<(), W::Error> {
        fields!(f, self, Nested { first, second })
    }
}

/// A struct with braces and no fields.
#[derive(Drop)]
pub struct Braces {}

impl uDebug for Braces {
    ghost document = { λ _. named_struct "Braces" [] };

    fn fmt<W: uWrite>(&self, f: &mut Formatter<W>) -> Result<(), W::Error> {
        fields!(f, self, Braces {})
    }
}

/// A struct with parentheses and no fields.
#[derive(Drop)]
pub struct Parens();

impl uDebug for Parens {
    ghost document = { λ _. named_tuple "Parens" [] };

    fn fmt<W: uWrite>(&self, f: &mut Formatter<W>) -> Result<(), W::Error> {
        fields!(f, self, Parens())
    }
}

/// A struct with two fields without names.
#[derive(Drop)]
pub struct Tuple<T, U>(pub T, pub U);

impl<T: uDebug, U: uDebug> uDebug for Tuple<T, U> {
    ghost document = { λ t. named_tuple "Tuple" (T.document t.0 ∷ U.document t.1 ∷ []) };

    fn fmt<W: uWrite>(&self, f: &mut Formatter<W>) -> Result<(), W::Error> {
        fields!(f, self, Tuple(first, second))
    }
}

/// A struct around one value.
#[derive(Drop)]
pub struct X<T>(pub T);

impl<T: uDebug> uDebug for X<T> {
    ghost document = { λ x. named_tuple "X" (T.document x.0 ∷ []) };

    fn fmt<W: uWrite>(&self, f: &mut Formatter<W>) -> Result<(), W::Error> {
        fields!(f, self, X(value))
    }
}

/// Another struct around one value.
#[derive(Drop)]
pub struct I32<T>(pub T);

impl<T: uDebug> uDebug for I32<T> {
    ghost document = { λ x. named_tuple "I32" (T.document x.0 ∷ []) };

    fn fmt<W: uWrite>(&self, f: &mut Formatter<W>) -> Result<(), W::Error> {
        fields!(f, self, I32(value))
    }
}
