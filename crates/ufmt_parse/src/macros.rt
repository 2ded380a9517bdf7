//! `parse_fields!` and `parse_variants!`: `parse_from` of a user's struct or enum.

/// Parses a struct or a tuple struct: the body of its `parse_from`.
///
/// Write `parse_fields!(alloc, parser, Pair { x, y })` or `parse_fields!(alloc, parser, Tuple(x, y))`, with
/// the fields in the order in which `fields!` prints them, at most twelve. A struct without fields is
/// `Name`, `Name()` or `Name {}`.
#[macro_export]
macro_rules! parse_fields {
    ($alloc:expr, $parser:expr, $name:ident { $($field:ident),+ $(,)? } $(,)?) => {
        match $crate::parse_struct_call!([$($field)+] $alloc, $parser, stringify!($name), $(stringify!($field), &$crate::ByType),+) {
            std::result::Result::Ok(($($field),+)) => std::result::Result::Ok($name { $($field),+ }),
            std::result::Result::Err(fault) => std::result::Result::Err(fault),
        }
    };
    ($alloc:expr, $parser:expr, $name:ident ( $($field:ident),+ $(,)? ) $(,)?) => {
        match $crate::parse_tuple_call!([$($field)+] $alloc, $parser, stringify!($name), $($crate::by_type!($field)),+) {
            std::result::Result::Ok(($($field),+)) => std::result::Result::Ok($name($($field),+)),
            std::result::Result::Err(fault) => std::result::Result::Err(fault),
        }
    };
    ($alloc:expr, $parser:expr, $name:ident {} $(,)?) => {{
        let _alloc = $alloc;
        $crate::parse_unit_call!($parser, $name, $name {})
    }};
    ($alloc:expr, $parser:expr, $name:ident () $(,)?) => {{
        let _alloc = $alloc;
        $crate::parse_unit_call!($parser, $name, $name())
    }};
    ($alloc:expr, $parser:expr, $name:ident $(,)?) => {{
        let _alloc = $alloc;
        $crate::parse_unit_call!($parser, $name, $name)
    }};
    ($($other:tt)*) => {
        compile_error!("expected an allocator, a parser and a struct: `alloc, parser, Name { x, y }`, `alloc, parser, Name(x, y)` or `alloc, parser, Name`, with at most twelve fields")
    };
}

/// Parses an enum: the body of its `parse_from`.
///
/// Write `parse_variants!(alloc, parser, Event { Started, Said(node, text), Lost { since, peers } })`, with
/// each variant as `fields!` prints it. No two variants have one name.
#[macro_export]
macro_rules! parse_variants {
    ($alloc:expr, $parser:expr, $name:ident { $($variants:tt)+ } $(,)?) => {{
        let _alloc = $alloc;
        let parser: &mut $crate::Parser<'_, _> = $parser;
        $crate::parse_variant!([_alloc, parser, $name] $($variants)+)
    }};
    ($($other:tt)*) => {
        compile_error!("expected an allocator, a parser and an enum: `alloc, parser, Name { A, B(x, y), C { x, y } }`")
    };
}
