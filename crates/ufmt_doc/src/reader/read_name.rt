//! The names of structs that are read.
ghost use Rattle.std.specs.Prelude.{◌≡◌, ◌&&◌, Bool, false, string_bytes, true};

use crate::doc::{DebugName, StructName};

/// The name of a struct that is read from a text.
pub(crate) trait ReadName: StructName {
    // Whether a name of this type can say that its struct ends in dots.
    ghost says_dots: { Bool };

    /// Makes the name of a struct. No text of a token document has dots, so a name that can't say that
    /// its struct ends in dots is never asked to.
    fn read_name(text: String, ends_in_dots: bool) -> Self
        ensures { Self.shown result ≡ (string_bytes text, ends_in_dots && says_dots) };
}

impl ReadName for String {
    ghost says_dots = { false };

    #[inline(always)]
    fn read_name(text: String, _ends_in_dots: bool) -> String {
        text
    }
}

impl ReadName for DebugName {
    ghost says_dots = { true };

    #[inline(always)]
    fn read_name(text: String, ends_in_dots: bool) -> DebugName {
        DebugName { text, ends_in_dots }
    }
}
