//! The version of the library.
ghost use Rattle.std.specs.Prelude.{◌≡◌};

/// Returns the version, as `UFMT_VERSION` of the header has it: 10,000 for each of its first number, 100 for
/// each of its second, and its third.
#[unsafe(no_mangle)]
pub extern "C" fn ufmt_version() -> u32
    ensures { result ≡ 400 }
{
    400
}
