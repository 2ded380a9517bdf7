//! `uwrite!` and `uwriteln!`: pieces written one after another.

/// Writes pieces to a formatter, one after another, and returns the first error.
///
/// A piece is `text e` for a `&str`, or `display e`, `debug e`, `pretty e`, `hex e with options`,
/// `bin e with options`, `oct e with options`, `zeros e to width` or `fixed e to decimals` for a value, each
/// of which may be followed by `in column`. A value before `with`, `to` or `in` is a name, a literal, or in parentheses.
/// The formatter is evaluated first, then each piece in order, each of them once. After an error nothing
/// more is evaluated.
#[macro_export]
macro_rules! uwrite {
    ($f:expr, $($pieces:tt)+) => {{
        let f: &mut $crate::Formatter<_> = $f;
        $crate::next_piece!(write_pieces [f []] $($pieces)+)
    }};
}

/// Writes pieces as `uwrite!` does, and then a line feed.
#[macro_export]
macro_rules! uwriteln {
    ($f:expr, $($pieces:tt)+) => {{
        let f: &mut $crate::Formatter<_> = $f;
        $crate::next_piece!(write_pieces [f [text "\n"]] $($pieces)+)
    }};
}
