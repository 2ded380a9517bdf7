//! A struct of which not all fields are shown.
ghost use Rattle.std.specs.Prelude.{[], ◌∷◌};
ghost use Rattle.ufmt.specs.ValueDocuments.{non_exhaustive_struct, number};

use ufmt::{Formatter, fields, uDebug, uWrite};

/// Who is logged in, and the key, which no log shows.
#[derive(Drop)]
pub struct Session {
    pub user: u32,
    pub key: u64,
}

impl uDebug for Session {
    ghost document = { λ s. non_exhaustive_struct "Session" (("user", number s.user) ∷ []) };

    fn fmt<W: uWrite>(&self, f: &mut Formatter<W>) -> Result<(), W::Error> {
        fields!(f, self, Session { user, .. })
    }
}
