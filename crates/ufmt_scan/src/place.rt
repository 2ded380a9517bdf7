//! How much of a text fits the documents of a class.
ghost use Rattle.ufmt_core.specs.Layout.{layout, setting};
ghost use Rattle.ufmt_scan.specs.Places.{ReadsUpTo};
ghost use Rattle.ufmt_scan.specs.Private.Place.{Counted};
ghost use Rattle.std.proofs.Common.{refl, sym};
ghost use Rattle.std.proofs.Math.Nat.{add-zero};

use crate::convert::text_sink::{pieces, setting_after};
use crate::scan::{Event, Sink, scan_once};
use std::convert::Infallible;
use ufmt_core::layout::{Mode, Setting};
use ufmt_grammar::class::Class;

// Promise (reading): `valid_up_to` never exceeds the length of the input. For the text of a document it is the
// end of that text, also when a text that may follow comes after it.
/// Returns how many bytes at the front were read before the piece that doesn't fit, or all of them if some
/// document of this class has this text in this mode. A piece is a leaf, or what one event of `scan` has
/// around leaves. A text that is only cut may be read to its end. Doesn't allocate.
pub fn valid_up_to(class: Class, mode: Mode, text: &[u8]) -> usize
    ensures { ReadsUpTo class (layout (setting mode 0)) text.now result }
{
    let mut counter = EventCounter {
        setting: Setting { mode, depth: 0 },
        count: 0,
    };
    let _outcome = scan_once(class, mode, text, &mut counter);
    counter.count.min(text.len())
}

// Counts the bytes of the events that it takes, as they are laid out at this mode and depth. In the mode
// of the scan these are the bytes that were read.
#[derive(Clone, Copy, Drop)]
struct EventCounter {
    setting: Setting,
    count: usize,
}

impl Sink for EventCounter {
    type Error = Infallible;

    ghost took = { Counted };

    ghost stopped = { λ _ _ _. ⊥ };

    ghost begun = { λ s. record { counts = λ few. sym (add-zero s.count); continues = refl } };

    // Not inlined: the scanner has some forty calls of it.
    #[inline(never)]
    fn event(&mut self, event: Event<&str>) -> Result<(), Infallible> {
        let (first, second) = pieces(self.setting, event);
        self.setting = setting_after(self.setting, event);
        self.count = self
            .count
            .saturating_add(first.len())
            .saturating_add(second.len());
        Ok(())
    }
}
