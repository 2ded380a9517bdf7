//! Texts that C passes as bytes.
ghost use Rattle.std.specs.Prelude.{◌≡◌, MatchOption};
ghost use Rattle.std.specs.Str.{IsUtf8, IsValidUpTo};
ghost use Rattle.ufmt_c.specs.Private.Front.{IsTextAtFront};

/// Returns the bytes as a text. If they aren't UTF-8, `detail` becomes the number of bytes at the front
/// that are.
pub(crate) fn text_of<'a>(bytes: &'a [u8], detail: &mut usize) -> Option<&'a str>
    ensures { MatchOption result (¬ (IsUtf8 bytes.now) × IsValidUpTo bytes.now detail.new)
        (λ text. IsUtf8 bytes.now × (text.now ≡ bytes.now) × (detail.new ≡ detail.old)) }
{
    match str::from_utf8(bytes) {
        Ok(text) => Some(text),
        Err(error) => {
            *detail = error.valid_up_to();
            None
        }
    }
}

/// Returns the longest front of the bytes that is UTF-8.
pub(crate) fn text_at_front(bytes: &[u8]) -> &[u8]
    ensures { IsTextAtFront bytes.now result.now }
{
    match str::from_utf8(bytes) {
        Ok(_text) => bytes,
        Err(error) => {
            let (front, _) = bytes.split_at(error.valid_up_to());
            front
        }
    }
}
