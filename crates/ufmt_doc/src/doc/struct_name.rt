//! Names of structs in documents.
ghost use Rattle.std.specs.Prelude.{◌≡◌, ℕ, [], Bool, IsTrue, List, MatchOption, string_bytes};
ghost use Rattle.ufmt_doc.specs.StructNames.{debug_name, plain_name};

use std::alloc::Global;
use std::mem;

/// The name of a struct in a document, with whether the struct ends in `..`.
pub trait StructName: Drop {
    // Its text, and whether the struct ends in dots.
    ghost shown: { Self → List ℕ × Bool };

    /// Makes the name of a struct. Returns `None` only if the struct ends in dots and no name of this
    /// type says so.
    fn new(text: String, ends_in_dots: bool) -> Option<Self>
        ensures { MatchOption result (IsTrue ends_in_dots)
            (λ name. shown name ≡ (string_bytes text, ends_in_dots)) };

    /// Returns its text.
    fn as_str(&self) -> &str
        ensures { result.now ≡ (shown self.now).0 };

    /// Returns whether the struct ends in `..`.
    fn ends_in_dots(&self) -> bool
        ensures { result ≡ (shown self.now).1 };

    /// Moves its text out, and leaves an empty text. `alloc` is only for the empty text.
    fn take_text(&mut self, alloc: Global) -> String
        ensures text { string_bytes result ≡ (shown self.old).0 }
        ensures left { shown self.new ≡ ([], (shown self.old).1) };
}

/// The name of a struct that doesn't end in `..`.
impl StructName for String {
    ghost shown = { plain_name };

    #[inline(always)]
    fn new(text: String, ends_in_dots: bool) -> Option<String> {
        if ends_in_dots { None } else { Some(text) }
    }

    fn as_str(&self) -> &str {
        self
    }

    fn ends_in_dots(&self) -> bool {
        false
    }

    fn take_text(&mut self, alloc: Global) -> String {
        mem::replace(self, String::new(alloc))
    }
}

/// The name of a struct that may end in `..`.
#[derive(Drop)]
pub struct DebugName {
    pub text: String,
    pub ends_in_dots: bool,
}

impl StructName for DebugName {
    ghost shown = { debug_name };

    #[inline(always)]
    fn new(text: String, ends_in_dots: bool) -> Option<DebugName> {
        Some(DebugName { text, ends_in_dots })
    }

    fn as_str(&self) -> &str {
        &self.text
    }

    fn ends_in_dots(&self) -> bool {
        self.ends_in_dots
    }

    fn take_text(&mut self, alloc: Global) -> String {
        mem::replace(&mut self.text, String::new(alloc))
    }
}
