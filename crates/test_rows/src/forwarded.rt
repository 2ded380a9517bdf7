//! Two types whose `fmt` writes one piece: `X` by a builder, and `Y` by `uwrite!`.
ghost use Rattle.std.specs.Prelude.{[]};
ghost use Rattle.ufmt.specs.ValueDocuments.{named_struct};

use ufmt::{Formatter, uDebug, uWrite, uwrite};

#[derive(Drop)]
pub struct X;

impl uDebug for X {
    ghost document = { λ _. named_struct "X" [] };

    fn fmt<W: uWrite>(&self, f: &mut Formatter<W>) -> Result<(), W::Error> {
        f.debug_struct("X")?.finish()
    }
}

#[derive(Drop)]
pub struct Y;

impl uDebug for Y {
    ghost document = { λ _. named_struct "X" [] };

    fn fmt<W: uWrite>(&self, f: &mut Formatter<W>) -> Result<(), W::Error> {
        uwrite!(f, debug X)
    }
}
