//! A vector of bytes as a writer.
ghost use Rattle.std.specs.Prelude.{◌≡◌, encode_utf8, is_ok, OnErr};
ghost use Rattle.ufmt_core.specs.Writes.{Writes, bytes_seen};

use crate::write::uWrite;
use std::alloc::{AllocError, Allocator};

/// Each piece is appended. On `Err` the bytes are unchanged.
impl<A: Allocator> uWrite for Vec<u8, A> {
    type Error = AllocError;

    ghost seen = { bytes_seen };

    fn write_str(&mut self, s: &str) -> Result<(), AllocError>
        ensures writes { Writes bytes_seen self.old s.now (is_ok result) self.new }
        ensures unchanged { OnErr result (self.new.items ≡ self.old.items) }
    {
        self.extend_from_slice(s.as_bytes())
    }
}
