//! `fields!` and `variants!`: the `fmt` of a struct, a tuple struct, a variant or an enum in one call.

/// Prints a whole struct, tuple struct or variant, in place of `#[derive(uDebug)]`.
///
/// `fields!(f, self, Pair { x, y })`, `fields!(f, self, Tuple(x, y))` and `fields!(f, self, Unit)` take the
/// value apart. They write its name and its fields in the given order, as the builders would. If a field is
/// left out, the compiler names it in an error.
///
/// A whole enum is printed by `variants!`. In an arm of a `match` of yours the variant is taken apart already:
/// write `fields!(f, Variant { x, y })`, `fields!(f, Variant(x, y))` or `fields!(f, None)`. For other values,
/// write `fields!(f, Pair { x: a.x, y: b.y })`. These print the fields that are named, and don't see whether
/// one is left out. Values are taken by reference. A type that holds itself has at most twelve fields.
///
/// With `..` at the end, as in `fields!(f, self, Session { user, .. })`, only the fields that are named
/// are printed, and `..` after them, as `finish_non_exhaustive` does.
#[macro_export]
macro_rules! fields {
    ($formatter:expr, $value:ident, $name:ident { $($field:ident),* $(,)? } $(,)?) => {{
        let formatter: &mut $crate::Formatter<_> = $formatter;
        let $name { $($field),* } = &$value;
        $crate::fields!(formatter, $name { $($field: *$field),* })
    }};
    ($formatter:expr, $value:ident, $name:ident { $($field:ident,)* .. } $(,)?) => {{
        let formatter: &mut $crate::Formatter<_> = $formatter;
        let $name { $($field,)* .. } = &$value;
        $crate::fields!(formatter, $name { $($field: *$field,)* .. })
    }};
    ($formatter:expr, $value:ident, $name:ident ( $($field:ident),* $(,)? ) $(,)?) => {{
        let formatter: &mut $crate::Formatter<_> = $formatter;
        let $name($($field),*) = &$value;
        $crate::fields!(formatter, $name($(*$field),*))
    }};
    ($formatter:expr, $value:ident, $name:ident $(,)?) => {{
        let $name {} = &$value;
        $crate::fields!($formatter, $name)
    }};
    ($formatter:expr, self $(,)?) => { $crate::fields!() };
    ($formatter:expr, $name:ident { $($field:ident),+ $(,)? } $(,)?) => {
        $crate::fields!($formatter, $name { $($field: $field),+ })
    };
    ($formatter:expr, $name:ident { $($field:ident,)+ .. } $(,)?) => {
        $crate::fields!($formatter, $name { $($field: $field,)+ .. })
    };
    ($formatter:expr, $name:ident $(,)?) => { $crate::Formatter::name_alone($formatter, stringify!($name)) };
    ($formatter:expr, $name:ident {} $(,)?) => { $crate::Formatter::struct_0($formatter, stringify!($name)) };
    ($formatter:expr, $name:ident { .. } $(,)?) => { $crate::Formatter::non_exhaustive_0($formatter, stringify!($name)) };
    ($formatter:expr, $name:ident () $(,)?) => { $crate::Formatter::tuple_0($formatter, stringify!($name)) };
    ($formatter:expr, $name:ident { $($field:ident: $value:expr),+ $(,)? } $(,)?) => {
        $crate::whole_value!(
            struct_of [$($field)+]
            [struct_1 struct_2 struct_3 struct_4 struct_5 struct_6 struct_7 struct_8 struct_9 struct_10 struct_11 struct_12]
            $formatter, stringify!($name), $(stringify!($field), &$value,)+
        )
    };
    ($formatter:expr, $name:ident { $($field:ident: $value:expr,)+ .. } $(,)?) => {
        $crate::whole_value!(
            non_exhaustive_of [$($field)+]
            [
                non_exhaustive_1 non_exhaustive_2 non_exhaustive_3 non_exhaustive_4 non_exhaustive_5 non_exhaustive_6
                non_exhaustive_7 non_exhaustive_8 non_exhaustive_9 non_exhaustive_10 non_exhaustive_11 non_exhaustive_12
            ]
            $formatter, stringify!($name), $(stringify!($field), &$value,)+
        )
    };
    ($formatter:expr, $name:ident ( $($value:expr),+ $(,)? ) $(,)?) => {
        $crate::whole_value!(
            tuple_of [$(($value))+]
            [tuple_1 tuple_2 tuple_3 tuple_4 tuple_5 tuple_6 tuple_7 tuple_8 tuple_9 tuple_10 tuple_11 tuple_12]
            $formatter, stringify!($name), $(&$value,)+
        )
    };
    ($($other:tt)*) => {
        compile_error!("expected a formatter and what it prints: `self, Name { x, y }` or `self, Name(x, y)`, which take the value apart, `Name { x, y }`, `Name { x: e, y: e }`, `Name(e, e)` or `Name`; `..` may end the fields in braces")
    };
}

/// Prints a whole enum, in place of `#[derive(uDebug)]`: each variant as `fields!` does.
///
/// Write `variants!(f, self, Event { Started, Said(node, text), Lost { since, peers } })`. Each variant is taken
/// apart, so if a variant or a field is left out, the compiler names it in an error.
#[macro_export]
macro_rules! variants {
    ($formatter:expr, $value:ident, $name:ident {
        $($variant:ident $(( $($item:ident),* $(,)? ))? $({ $($field:ident),* $(,)? })?),+ $(,)?
    } $(,)?) => {{
        let formatter: &mut $crate::Formatter<_> = $formatter;
        match &$value {
            $($name::$variant $(($($item),*))? $({ $($field),* })? => {
                $crate::fields!(formatter, $variant $(($(*$item),*))? $({ $($field: *$field),* })?)
            })+
        }
    }};
    ($($other:tt)*) => {
        compile_error!("expected a formatter and an enum: `self, Name { A, B(x, y), C { x, y } }`")
    };
}
