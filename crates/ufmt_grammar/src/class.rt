//! The classes of documents whose texts can be read again.

/// Which names and leaves a document has, so that its texts can be read again. Each token document is
/// a debug document too, with the same texts and the same normal form.
#[derive(Clone, Copy)]
pub enum Class {
    /// Names are words of ASCII letters, digits, `_` and `-`. Leaves are such words, `()`, and texts
    /// and characters in quotes, each as `uDebug` prints it.
    Token,
    /// What `{:?}` of most types prints. Words have any bytes but spaces, quotes, brackets, commas and
    /// controls; a colon before a space and a value ends a key. Leaves are words, lifetimes as `'a`,
    /// texts in quotes and `()` in a row, with a word in parentheses before them or an address in
    /// brackets and a colon, as `(Weak)` and `[::1]:80`. Names are words that don't end in a colon. A
    /// struct may end in `..`.
    Debug,
}
