//! `prove_fields!` and `prove_variants!`: `prove_value` of a user's struct or enum.

/// Proves `is_value` of a struct or a tuple struct, field by field: the body of its `prove_value`.
///
/// Write `prove_fields!(A, self, Pair { x, y })` or `prove_fields!(A, self, Tuple(x, y))`, where `A` is the
/// allocator's type in `impl uParse<A>`. Fields of which `is_value` says nothing may be left out: `Pair { x, .. }`.
#[macro_export]
macro_rules! prove_fields {
    ($allocator:ty, $value:ident, $name:ident { $($field:ident),* $(,)? } $(,)?) => {{
        let $name { $($field),* } = &$value;
        $($crate::uParse::<$allocator>::prove_value($field);)*
    }};
    ($allocator:ty, $value:ident, $name:ident { $($field:ident,)* .. } $(,)?) => {{
        let $name { $($field,)* .. } = &$value;
        $($crate::uParse::<$allocator>::prove_value($field);)*
    }};
    ($allocator:ty, $value:ident, $name:ident ( $($field:ident),* $(,)? ) $(,)?) => {{
        let $name($($field),*) = &$value;
        $($crate::uParse::<$allocator>::prove_value($field);)*
    }};
    ($($other:tt)*) => {
        compile_error!("expected an allocator's type and a struct: `A, self, Name { x, y }` or `A, self, Name(x, y)`")
    };
}

/// Proves `is_value` of an enum: the body of its `prove_value`.
///
/// Write `prove_variants!(A, self, Event { Started, Said(node, text), Lost { since, peers } })`, where `A` is the
/// allocator's type in `impl uParse<A>`.
#[macro_export]
macro_rules! prove_variants {
    ($allocator:ty, $value:ident, $name:ident {
        $($variant:ident $(( $($item:ident),* $(,)? ))? $({ $($field:ident),* $(,)? })?),+ $(,)?
    } $(,)?) => {
        match &$value {
            $($name::$variant $(($($item),*))? $({ $($field),* })? => {
                $($($crate::uParse::<$allocator>::prove_value($item);)*)?
                $($($crate::uParse::<$allocator>::prove_value($field);)*)?
            })+
        }
    };
    ($($other:tt)*) => {
        compile_error!("expected an allocator's type and an enum: `A, self, Name { A, B(x, y), C { x, y } }`")
    };
}
