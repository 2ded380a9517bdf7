//! Whether bytes are a text.
ghost use Rattle.std.specs.Prelude.{◌≡◌, ◌≤◌, IsFalse, IsTrue};
ghost use Rattle.ufmt.specs.Document.{Document};
ghost use Rattle.ufmt.specs.Layout.{layout, setting};
ghost use Rattle.ufmt_c.specs.Options.{AreChoices, class_of, mode_of};
ghost use Rattle.ufmt_scan.specs.Texts.{IsNormalForm, NoDocumentPrints};

use crate::options::{to_class, to_mode};
use ufmt_scan::is_text;

/// Returns whether some document of the class has this text in this mode. No text is one of a class or a
/// mode that there isn't.
#[unsafe(no_mangle)]
pub extern "C" fn ufmt_is_text(class: u32, mode: u32, input: &[u8]) -> bool
    ensures choices { IsTrue result → AreChoices class mode }
    ensures text { IsTrue result
        → (d : Document) × IsNormalForm (class_of class) (layout (setting (mode_of mode) 0)) input.now d }
    ensures no_text { AreChoices class mode → IsFalse result
        → NoDocumentPrints (class_of class) (layout (setting (mode_of mode) 0)) input.now }
{
    let Some(class) = to_class(class) else {
        return false;
    };
    let Some(mode) = to_mode(mode) else {
        return false;
    };
    is_text(class, mode, input)
}
