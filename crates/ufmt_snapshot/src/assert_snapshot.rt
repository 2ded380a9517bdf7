//! `assert_snapshot!`, for tests.

/// Asserts that a value's pretty text is the stored one: `assert_snapshot!(rt; &pair, "(\n    1,\n)")`.
///
/// Where they differ, the test fails with the first line that does, and with the whole pretty text. If
/// that is right, store it in place of the other.
#[macro_export]
macro_rules! assert_snapshot {
    ($rt:expr; $value:expr, $stored:expr $(,)?) => {
        match $crate::compare_pretty($rt.alloc(), $value, $stored) {
            std::result::Result::Ok(std::option::Option::None) => {}
            std::result::Result::Ok(std::option::Option::Some(message)) => {
                std::panic!($rt; "{message}")
            }
            std::result::Result::Err(_) => std::panic!($rt; "no memory to compare a snapshot"),
        }
    };
    ($($other:tt)*) => {
        compile_error!("write `assert_snapshot!(rt; &value, \"text\")`")
    };
}
