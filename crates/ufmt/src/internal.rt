//! The macros that those for users expand to. They are exported since they stand in a user's crate then, and
//! aren't for users: any version may change them.

/// The call for a whole struct or tuple with this number of fields, or for a chain of more than twelve.
/// A field and a call are taken off both lists until one field is left.
#[macro_export]
#[doc(hidden)]
macro_rules! whole_value {
    ($kind:ident [$last:tt] [$call:ident $($more:ident)*] $($arguments:tt)*) => {
        $crate::Formatter::$call($($arguments)*)
    };
    ($kind:ident [$field:tt $($fields:tt)+] [$call:ident $($calls:ident)*] $($arguments:tt)*) => {
        $crate::whole_value!($kind [$($fields)+] [$($calls)*] $($arguments)*)
    };
    (struct_of [$($more:tt)+] [] $formatter:expr, $name:expr, $($fields:tt)+) => {
        $crate::Formatter::struct_of($formatter, $name, &$crate::field_chain!($($fields)+))
    };
    (non_exhaustive_of [$($more:tt)+] [] $formatter:expr, $name:expr, $($fields:tt)+) => {
        $crate::Formatter::non_exhaustive_of($formatter, $name, &$crate::field_chain!($($fields)+))
    };
    (tuple_of [$($more:tt)+] [] $formatter:expr, $name:expr, $($fields:tt)+) => {
        $crate::Formatter::tuple_of($formatter, $name, &$crate::value_chain!($($fields)+))
    };
}

/// The chain of fields that `Formatter::struct_of` and `non_exhaustive_of` take.
#[macro_export]
#[doc(hidden)]
macro_rules! field_chain {
    () => { () };
    ($name:expr, $value:expr, $($rest:tt)*) => { ($name, $value, $crate::field_chain!($($rest)*)) };
}

/// The chain of values that `Formatter::tuple_of` takes.
#[macro_export]
#[doc(hidden)]
macro_rules! value_chain {
    () => { () };
    ($value:expr, $($rest:tt)*) => { ($value, $crate::value_chain!($($rest)*)) };
}

/// Passes to the macro `$then` what that keeps, the first piece of a row and the pieces that are left, or no piece
/// if the row is empty. A piece is passed as `text e`, `(mark) e` or `each (mark) items, between`. A mark is as in the row, but `(hex with options, in column)` has a comma.
#[macro_export]
#[doc(hidden)]
macro_rules! next_piece {
    ($then:ident $kept:tt) => { $crate::$then!($kept) };
    ($then:ident $kept:tt text $text:expr $(, $($rest:tt)*)?) => {
        $crate::$then!($kept [text $text] $($($rest)*)?)
    };
    ($then:ident $kept:tt $kind:ident $value:tt with $options:tt in $column:expr $(, $($rest:tt)*)?) => {
        $crate::$then!($kept [($kind with $options, in $column) $value] $($($rest)*)?)
    };
    ($then:ident $kept:tt $kind:ident $value:tt with $options:expr $(, $($rest:tt)*)?) => {
        $crate::$then!($kept [($kind with $options) $value] $($($rest)*)?)
    };
    ($then:ident $kept:tt $kind:ident $value:tt to $width:tt in $column:expr $(, $($rest:tt)*)?) => {
        $crate::$then!($kept [($kind to $width, in $column) $value] $($($rest)*)?)
    };
    ($then:ident $kept:tt $kind:ident $value:tt to $width:expr $(, $($rest:tt)*)?) => {
        $crate::$then!($kept [($kind to $width) $value] $($($rest)*)?)
    };
    ($then:ident $kept:tt $kind:ident $value:tt in $column:expr $(, $($rest:tt)*)?) => {
        $crate::$then!($kept [($kind, in $column) $value] $($($rest)*)?)
    };
    ($then:ident $kept:tt each $kind:ident $items:tt with $options:tt in $column:tt between $between:expr $(, $($rest:tt)*)?) => {
        $crate::$then!($kept [each ($kind with $options, in $column) $items, $between] $($($rest)*)?)
    };
    ($then:ident $kept:tt each $kind:ident $items:tt with $options:tt between $between:expr $(, $($rest:tt)*)?) => {
        $crate::$then!($kept [each ($kind with $options) $items, $between] $($($rest)*)?)
    };
    ($then:ident $kept:tt each $kind:ident $items:tt to $width:tt in $column:tt between $between:expr $(, $($rest:tt)*)?) => {
        $crate::$then!($kept [each ($kind to $width, in $column) $items, $between] $($($rest)*)?)
    };
    ($then:ident $kept:tt each $kind:ident $items:tt to $width:tt between $between:expr $(, $($rest:tt)*)?) => {
        $crate::$then!($kept [each ($kind to $width) $items, $between] $($($rest)*)?)
    };
    ($then:ident $kept:tt each $kind:ident $items:tt in $column:tt between $between:expr $(, $($rest:tt)*)?) => {
        $crate::$then!($kept [each ($kind, in $column) $items, $between] $($($rest)*)?)
    };
    ($then:ident $kept:tt each $kind:ident $items:tt between $between:expr $(, $($rest:tt)*)?) => {
        $crate::$then!($kept [each ($kind) $items, $between] $($($rest)*)?)
    };
    ($then:ident $kept:tt each $items:tt by $mark:tt between $between:expr $(, $($rest:tt)*)?) => {
        $crate::$then!($kept [each (by $mark) $items, $between] $($($rest)*)?)
    };
    ($then:ident $kept:tt $kind:ident $value:expr $(, $($rest:tt)*)?) => {
        $crate::$then!($kept [($kind) $value] $($($rest)*)?)
    };
    ($then:ident $kept:tt $($other:tt)*) => { $crate::wrong_piece!(row $($other)*) };
}

/// What is wrong with the mark of a piece, or with the first piece of a row.
#[macro_export]
#[doc(hidden)]
macro_rules! wrong_piece {
    (mark hex) => { compile_error!("`hex e` needs `with options` after it") };
    (mark bin) => { compile_error!("`bin e` needs `with options` after it") };
    (mark oct) => { compile_error!("`oct e` needs `with options` after it") };
    (mark fixed) => { compile_error!("`fixed e` needs `to decimals` after it") };
    (mark zeros) => { compile_error!("`zeros e` needs `to width` after it") };
    (mark text) => { compile_error!("`text` has no column, options or width: write `display e in column`") };
    (mark $kind:ident) => { compile_error!(concat!("no kind of piece: `", stringify!($kind), "`")) };
    (mark $kind:ident with $options:tt) => {
        compile_error!(concat!("`", stringify!($kind), " e` takes no `with options`"))
    };
    (mark $kind:ident to $width:tt) => {
        compile_error!(concat!("`", stringify!($kind), " e` takes no `to width`"))
    };
    (row each $($other:tt)*) => {
        compile_error!(concat!("needs a kind, items and `between s`: `each ", stringify!($($other)*), "`"))
    };
    (row $($other:tt)*) => {
        compile_error!(concat!("no piece, or no comma after it, or no parentheses around a value before `with`, `to` or `in`: `", stringify!($($other)*), "`"))
    };
}

/// Keeps a piece as a line of its own, in parentheses, until all are kept.
#[macro_export]
#[doc(hidden)]
macro_rules! keep_piece {
    ([]) => { () };
    ([$($lines:tt)+]) => { $crate::join_lines!($($lines)+) };
    ([$($lines:tt)*] [$($piece:tt)+] $($rest:tt)*) => {
        $crate::next_piece!(keep_piece [$($lines)* ($crate::piece_value!($($piece)+))] $($rest)*)
    };
}

/// Lines one after another, as one: a chain of at most eight, or else a balanced tree of chains of four. The
/// check finds no proof of a call with pairs nested deeper than eight.
#[macro_export]
#[doc(hidden)]
macro_rules! join_lines {
    ($a:tt $b:tt $c:tt $d:tt $e:tt $f:tt $g:tt $h:tt $($rest:tt)+) => {
        $crate::group_lines!([($crate::chain_lines!($a $b $c $d)) ($crate::chain_lines!($e $f $g $h))] $($rest)+)
    };
    ($($lines:tt)+) => { $crate::chain_lines!($($lines)+) };
}

/// A line, and the chain of those after it.
#[macro_export]
#[doc(hidden)]
macro_rules! chain_lines {
    ($last:tt) => { $last };
    ($first:tt $($rest:tt)+) => { ($first, $crate::chain_lines!($($rest)+)) };
}

/// Chains of four, and then the tree of them.
#[macro_export]
#[doc(hidden)]
macro_rules! group_lines {
    ([$($groups:tt)+] $a:tt $b:tt $c:tt $d:tt $($rest:tt)+) => {
        $crate::group_lines!([$($groups)+ ($crate::chain_lines!($a $b $c $d))] $($rest)+)
    };
    ([$($groups:tt)+] $($last:tt)+) => { $crate::pair_lines!([] $($groups)+ ($crate::chain_lines!($($last)+))) };
}

/// Pairs of lines that are next to each other, and then pairs of these, until one is left.
#[macro_export]
#[doc(hidden)]
macro_rules! pair_lines {
    ([] $line:tt) => { $line };
    ([$($pairs:tt)+]) => { $crate::pair_lines!([] $($pairs)+) };
    ([$($pairs:tt)+] $last:tt) => { $crate::pair_lines!([] $($pairs)+ $last) };
    ([$($pairs:tt)*] $first:tt $second:tt $($rest:tt)*) => {
        $crate::pair_lines!([$($pairs)* ($first, $second)] $($rest)*)
    };
}

/// A piece, as a line of its own.
#[macro_export]
#[doc(hidden)]
macro_rules! piece_value {
    (text $text:expr) => { $crate::pieces::Text($text) };
    (each ($($mark:tt)+) $items:expr, $between:expr) => {
        $crate::pieces::Each { items: &$items, mark: $crate::piece_mark!($($mark)+), between: $between }
    };
    (($($mark:tt)+) $value:expr) => {
        $crate::pieces::Marked { value: &$value, mark: $crate::piece_mark!($($mark)+) }
    };
}

/// How a value is written.
#[macro_export]
#[doc(hidden)]
macro_rules! piece_mark {
    (display) => { $crate::pieces::Display };
    (debug) => { $crate::pieces::Debug };
    (pretty) => { $crate::pieces::Pretty };
    (hex with $options:expr) => { $crate::pieces::Hex { options: $options } };
    (bin with $options:expr) => {
        $crate::pieces::InRadix { radix: $crate::Radix::Binary, options: $options }
    };
    (oct with $options:expr) => {
        $crate::pieces::InRadix { radix: $crate::Radix::Octal, options: $options }
    };
    (fixed to $count:expr) => { $crate::pieces::Decimals { count: $count } };
    (zeros to $width:expr) => { $crate::pieces::Zeros { width: $width } };
    (by $mark:expr) => { $mark };
    ($kind:ident $(with $options:tt)? $(to $width:tt)?, in $column:expr) => {
        $crate::pieces::InColumn { mark: $crate::piece_mark!($kind $(with $options)? $(to $width)?), column: $column }
    };
    ($($other:tt)*) => { $crate::wrong_piece!(mark $($other)*) };
}

/// Writes a piece, those after it, and then the one that is kept beside the formatter.
#[macro_export]
#[doc(hidden)]
macro_rules! write_pieces {
    ([$f:ident []] [$($piece:tt)+]) => { $crate::write_piece!($f, $($piece)+) };
    ([$f:ident $last:tt] [$($piece:tt)+] $($rest:tt)*) => {
        match $crate::write_piece!($f, $($piece)+) {
            std::result::Result::Ok(()) => $crate::next_piece!(write_pieces [$f $last] $($rest)*),
            std::result::Result::Err(error) => std::result::Result::Err(error),
        }
    };
    ([$f:ident [$($last:tt)+]]) => { $crate::write_piece!($f, $($last)+) };
}

/// Writes one piece.
#[macro_export]
#[doc(hidden)]
macro_rules! write_piece {
    ($f:ident, text $text:expr) => { $crate::Formatter::write_str($f, $text) };
    ($f:ident, (display) $value:expr) => { $crate::uDisplay::fmt(&$value, $f) };
    ($f:ident, (debug) $value:expr) => { $crate::uDebug::fmt(&$value, $f) };
    ($f:ident, (pretty) $value:expr) => { $crate::fmt_pretty(&$value, $f) };
    ($f:ident, (hex with $options:expr) $value:expr) => {
        $crate::uDisplayHex::fmt_hex(&$value, $f, $options)
    };
    ($f:ident, (bin with $options:expr) $value:expr) => {
        $crate::uDisplayRadix::fmt_radix(&$value, $f, $crate::Radix::Binary, $options)
    };
    ($f:ident, (oct with $options:expr) $value:expr) => {
        $crate::uDisplayRadix::fmt_radix(&$value, $f, $crate::Radix::Octal, $options)
    };
    ($f:ident, (fixed to $count:expr) $value:expr) => {
        $crate::uDisplayFixed::fmt_fixed(&$value, $f, $count)
    };
    ($f:ident, (zeros to $width:expr) $value:expr) => {
        $crate::uDisplayZeros::fmt_zeros(&$value, $f, $width)
    };
    ($f:ident, ($kind:ident $(with $options:tt)? $(to $width:tt)?, in $column:expr) $value:expr) => {
        $crate::Line::print(&$crate::piece_value!(($kind $(with $options)? $(to $width)?, in $column) $value), $f)
    };
    ($f:ident, each $($other:tt)*) => { compile_error!("`each` is a piece of `pieces!` alone") };
    ($f:ident, ($($mark:tt)+) $value:expr) => { $crate::wrong_piece!(mark $($mark)+) };
}
