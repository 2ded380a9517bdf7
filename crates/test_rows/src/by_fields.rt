//! A type of `by_builders` that prints by `fields!`.
ghost use Rattle.std.specs.Prelude.{[], ◌∷◌};
ghost use Rattle.ufmt.specs.ValueDocuments.{named_struct};

use ufmt::{Formatter, fields, uDebug, uWrite};

/// A struct with a name of one letter.
#[derive(Drop)]
pub struct S<M, N> {
    pub m: M,
    pub n: N,
}

impl<M: uDebug, N: uDebug> uDebug for S<M, N> {
    ghost document = { λ s. named_struct "S" (("m", M.document s.m) ∷ ("n", N.document s.n) ∷ []) };

    fn fmt<W: uWrite>(&self, f: &mut Formatter<W>) -> Result<(), W::Error> {
        fields!(f, self, S { m, n })
    }
}
