//! A text that only proofs read: what a writer has been offered, for a writer that keeps less.
ghost use Rattle.std.specs.Prelude.{◌≡◌, ℕ, List, ◌++◌, if◌then◌else◌};
ghost use Rattle.std.specs.Borrow.{ftrue};

use std::marker::Model;

/// A text that only proofs read. It takes no memory, and its calls do nothing.
#[derive(Drop)]
pub struct GhostText {
    pub ghost bytes: { List ℕ },
}

impl Model for GhostText {
    ghost also_owns = { λ _. ftrue };
}

impl GhostText {
    // The proof of this call is by hand: the check makes none where ghost data gets its value.
    /// Returns the text that the caller's proof picks.
    pub fn new() -> GhostText
        ghost bytes: { List ℕ }
        ensures { result.bytes ≡ bytes }
    {
        GhostText {}
    }

    /// Returns the text of these bytes.
    pub fn of(bytes: &[u8]) -> GhostText
        ghost whole: { List ℕ }
        requires { whole ≡ bytes.now }
        ensures { result.bytes ≡ whole }
    {
        let _ = bytes;
        GhostText::new()
    }

    /// Returns this text with the piece after it.
    pub fn and(&self, piece: &[u8]) -> GhostText
        ghost whole: { List ℕ }
        requires { whole ≡ self.now.bytes ++ piece.now }
        ensures { result.bytes ≡ whole }
    {
        let _ = piece;
        GhostText::new()
    }

    /// Returns this text, with the piece after it unless `is_closed`.
    pub fn and_unless(&self, is_closed: bool, piece: &[u8]) -> GhostText
        ghost whole: { List ℕ }
        requires { whole ≡ (if is_closed then self.now.bytes else self.now.bytes ++ piece.now) }
        ensures { result.bytes ≡ whole }
    {
        let _ = is_closed;
        let _ = piece;
        GhostText::new()
    }
}
