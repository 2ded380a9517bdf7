//! The macros that those for users expand to. They are exported since they stand in a user's crate then, and
//! aren't for users: any version may change them.

/// The variant with the name that comes next.
#[macro_export]
#[doc(hidden)]
macro_rules! parse_variant {
    ([$alloc:ident, $parser:ident, $name:ident]) => {{
        std::result::Result::Err($parser.refuse_in_detail($crate::Need::Name, $crate::Detail::Variant(stringify!($name))))
    }};
    ([$alloc:ident, $parser:ident, $name:ident] $variant:ident { $($field:ident),+ $(,)? } $(, $($rest:tt)*)?) => {
        if $parser.is_named(stringify!($variant)) {
            match $crate::parse_struct_call!([$($field)+] $alloc, $parser, stringify!($variant), $(stringify!($field), &$crate::ByType),+) {
                std::result::Result::Ok(($($field),+)) => std::result::Result::Ok($name::$variant { $($field),+ }),
                std::result::Result::Err(fault) => std::result::Result::Err(fault),
            }
        } else {
            $crate::parse_variant!([$alloc, $parser, $name] $($($rest)*)?)
        }
    };
    ([$alloc:ident, $parser:ident, $name:ident] $variant:ident ( $($field:ident),+ $(,)? ) $(, $($rest:tt)*)?) => {
        if $parser.is_named(stringify!($variant)) {
            match $crate::parse_tuple_call!([$($field)+] $alloc, $parser, stringify!($variant), $($crate::by_type!($field)),+) {
                std::result::Result::Ok(($($field),+)) => std::result::Result::Ok($name::$variant($($field),+)),
                std::result::Result::Err(fault) => std::result::Result::Err(fault),
            }
        } else {
            $crate::parse_variant!([$alloc, $parser, $name] $($($rest)*)?)
        }
    };
    ([$alloc:ident, $parser:ident, $name:ident] $variant:ident {} $(, $($rest:tt)*)?) => {
        if $parser.is_named(stringify!($variant)) {
            $crate::parse_unit_call!($parser, $variant, $name::$variant {})
        } else {
            $crate::parse_variant!([$alloc, $parser, $name] $($($rest)*)?)
        }
    };
    ([$alloc:ident, $parser:ident, $name:ident] $variant:ident () $(, $($rest:tt)*)?) => {
        if $parser.is_named(stringify!($variant)) {
            $crate::parse_unit_call!($parser, $variant, $name::$variant())
        } else {
            $crate::parse_variant!([$alloc, $parser, $name] $($($rest)*)?)
        }
    };
    ([$alloc:ident, $parser:ident, $name:ident] $variant:ident $(, $($rest:tt)*)?) => {
        if $parser.is_named(stringify!($variant)) {
            $crate::parse_unit_call!($parser, $variant, $name::$variant)
        } else {
            $crate::parse_variant!([$alloc, $parser, $name] $($($rest)*)?)
        }
    };
    ($($other:tt)*) => {
        compile_error!("expected a variant: `A`, `B(x, y)` or `C { x, y }`, with a comma before the next")
    };
}

/// Takes the name of a value that prints as its name alone.
#[macro_export]
#[doc(hidden)]
macro_rules! parse_unit_call {
    ($parser:expr, $name:ident, $value:expr) => {
        match $crate::parse_unit($parser, stringify!($name)) {
            std::result::Result::Ok(()) => std::result::Result::Ok($value),
            std::result::Result::Err(fault) => std::result::Result::Err(fault),
        }
    };
}

/// The call for a struct with this number of fields.
#[macro_export]
#[doc(hidden)]
macro_rules! parse_struct_call {
    ([$($field:tt)+] $($arguments:tt)*) => {
        $crate::parse_call!(
            [$($field)+]
            [parse_struct_1 parse_struct_2 parse_struct_3 parse_struct_4 parse_struct_5 parse_struct_6 parse_struct_7 parse_struct_8 parse_struct_9 parse_struct_10 parse_struct_11 parse_struct_12]
            $($arguments)*
        )
    };
}

/// The call for a tuple struct with this number of fields.
#[macro_export]
#[doc(hidden)]
macro_rules! parse_tuple_call {
    ([$($field:tt)+] $($arguments:tt)*) => {
        $crate::parse_call!(
            [$($field)+]
            [parse_tuple_1 parse_tuple_2 parse_tuple_3 parse_tuple_4 parse_tuple_5 parse_tuple_6 parse_tuple_7 parse_tuple_8 parse_tuple_9 parse_tuple_10 parse_tuple_11 parse_tuple_12]
            $($arguments)*
        )
    };
}

/// The parser of a field of a tuple struct, by its type.
#[macro_export]
#[doc(hidden)]
macro_rules! by_type {
    ($field:tt) => {
        &$crate::ByType
    };
}

/// The call for this number of fields: a field and a call are taken off both lists until one field is
/// left.
#[macro_export]
#[doc(hidden)]
macro_rules! parse_call {
    ([$last:tt] [$call:ident $($calls:ident)*] $($arguments:tt)*) => { $crate::$call($($arguments)*) };
    ([$field:tt $($fields:tt)+] [$call:ident $($calls:ident)*] $($arguments:tt)*) => {
        $crate::parse_call!([$($fields)+] [$($calls)*] $($arguments)*)
    };
    ($($other:tt)*) => { compile_error!("a struct, a tuple struct or a variant that is parsed has at most twelve fields") };
}
