//! A field of a value in a line of a log.
ghost use Rattle.std.specs.Prelude.{◌≡◌, ◌≤◌};
ghost use Rattle.std.specs.Str.{IsUtf8};
ghost use Rattle.ufmt_c.specs.Calls.{RefusesText, bad_option};
ghost use Rattle.ufmt_c.specs.Fields.{FindsField};
ghost use Rattle.ufmt_c.specs.Options.{class_of};

use crate::code::{BAD_OPTION, NO_TEXT, NOT_UTF8};
use crate::options::to_class;
use crate::text::text_of;
use ufmt_values::find_field;

// Promise (programs): A field that C finds in a line has the place and the length that C gets. `no_text` means
// that the line has no such field.
/// Finds a field in a line of a log: of the values of the class in the line, from the left on, the first that
/// is a struct with this field, where the field is a leaf. Returns how many bytes its text has, and `detail`
/// becomes where it begins in the line. Returns `BAD_OPTION` if there is no such class, and else `NOT_UTF8` if
/// the name isn't UTF-8; then `detail` becomes the number of bytes at the name's front that are. Else it
/// returns `NO_TEXT` only if there is no such field, and `detail` stays.
#[unsafe(no_mangle)]
pub extern "C" fn ufmt_field(class: u32, line: &[u8], name: &[u8], detail: &mut usize) -> isize
    ensures field { class ≤ 1 → IsUtf8 name.now
        → FindsField (class_of class) line.now name.now detail.old result detail.new }
    ensures bytes { class ≤ 1 → ¬ (IsUtf8 name.now) → RefusesText name.now result detail.new }
    ensures no_class { ¬ (class ≤ 1) → (result ≡ bad_option) × (detail.new ≡ detail.old) }
{
    let Some(class) = to_class(class) else {
        return BAD_OPTION;
    };
    let Some(name) = text_of(name, detail) else {
        return NOT_UTF8;
    };
    match find_field(class, line, name) {
        Some(field) => {
            *detail = field.start;
            field.text.len() as isize
        }
        None => NO_TEXT,
    }
}
