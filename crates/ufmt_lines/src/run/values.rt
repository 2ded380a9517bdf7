//! Which values a conversion leaves as they are: none when it makes texts plain; when it makes them pretty, the values
//! that are short, that have one leaf, or that would then read as a struct.
ghost use Rattle.std.specs.Prelude.{◌≡◌, ◌<◌, ◌≤◌, length};
ghost use Rattle.ufmt_lines.specs.Values.{could_be_struct};
ghost use Rattle.ufmt_lines.specs.Private.StaysAsFound.{StaysAsFound};

use super::conversion::Conversion;
use ufmt::class::Class;
use ufmt::layout::Mode;
use ufmt_scan::{FrontText, begins_with_field};
use ufmt_values::is_after_name;

/// Whether the value with its first bracket at `bracket` stays as it is. A name before the bracket is looked for
/// from `low` on.
pub(super) fn stays(
    conversion: Conversion,
    text: &[u8],
    low: usize,
    bracket: usize,
    value: FrontText,
) -> bool
    requires low { low ≤ bracket }
    requires within { bracket < length text.now }
    ensures { StaysAsFound conversion text.now low bracket value result }
{
    match conversion.to {
        Mode::Pretty => {
            value.len <= conversion.longer_than
                || value.has_one_leaf
                || could_be_struct(text, low, bracket)
        }
        Mode::Plain => false,
    }
}

// Whether a map would read as a struct, if it were pretty.
fn could_be_struct(text: &[u8], low: usize, bracket: usize) -> bool
    requires low { low ≤ bracket }
    requires within { bracket < length text.now }
    ensures { result ≡ could_be_struct text.now low bracket }
{
    text[bracket] == b'{'
        && is_after_name(text, low, bracket)
        && begins_with_field(Class::Debug, &text[bracket + 1..])
}
