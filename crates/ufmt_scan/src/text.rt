//! Whether a text is one of a document of a class, and what is at its front.
ghost use Rattle.std.specs.Prelude.{◌≡◌, IfSome, IsFalse, IsNone, IsTrue, None, ⊤};
ghost use Rattle.ufmt_core.specs.Document.{Document};
ghost use Rattle.ufmt_core.specs.Layout.{layout, setting};
ghost use Rattle.ufmt_scan.specs.Fronts.{IsFront, begins_with_field, begun_by, leaves_with, opened_by, read_front};
ghost use Rattle.ufmt_scan.specs.Private.Shapes.{Saw};
ghost use Rattle.ufmt_scan.specs.Scan.{event_now};
ghost use Rattle.ufmt_scan.specs.Texts.{IsNormalForm, NoDocumentPrints};
ghost use Rattle.std.proofs.Common.{refl};

use crate::front::split_name;
use crate::scan::{Event, Sink, scan, scan_front};
use crate::strip::strip_two;
use std::convert::Infallible;
use ufmt_core::layout::{Count, Mode};
use ufmt_grammar::class::Class;

// Promise (reading): `is_text` is true for the texts of its class in its mode, and for no other text. Clauses:
// `text`, `no_text`.
/// Returns whether some document of the class has this text in this mode. Takes no memory.
#[inline(always)]
pub fn is_text(class: Class, mode: Mode, text: &[u8]) -> bool
    ensures text { IsTrue result
        → (d : Document) × IsNormalForm class (layout (setting mode 0)) text.now d }
    ensures no_text { IsFalse result → NoDocumentPrints class (layout (setting mode 0)) text.now }
{
    scan(class, mode, text, &mut Ignores).is_ok()
}

/// The text of a document at the front of a longer text.
#[derive(Clone, Copy)]
pub struct FrontText {
    /// How many bytes it has.
    pub len: usize,
    /// Whether the document is a block with entries.
    pub has_entries: bool,
    /// Whether it has one leaf only. A block in it without entries is a leaf.
    pub has_one_leaf: bool,
    /// Whether it is a leaf, and no block, also none without entries.
    pub is_leaf: bool,
}

/// Returns what is at the front of a text: the document of the class whose text, in this mode, ends
/// there. Returns `None` if no document is read from the front. Takes no memory.
pub fn front_text(class: Class, mode: Mode, text: &[u8]) -> Option<FrontText>
    ensures some { IfSome result (λ front. IsFront class mode text.now front) }
    ensures none { IsNone result → read_front class mode text.now ≡ None }
{
    let mut shape = Shape {
        has_entries: false,
        has_block: false,
        leaves: Count::Zero,
    };
    match scan_front(class, mode, text, &mut shape) {
        Ok(len) => Some(FrontText {
            len,
            has_entries: shape.has_entries,
            has_one_leaf: shape.leaves == Count::One,
            is_leaf: !shape.has_block,
        }),
        Err(_) => None,
    }
}

/// Returns whether a field's name, a colon and a space are at the front of a text.
pub fn begins_with_field(class: Class, text: &[u8]) -> bool
    ensures { result ≡ begins_with_field class text.now }
{
    match split_name(class, text) {
        Some((_, rest)) => strip_two(*b": ", rest).is_some(),
        None => false,
    }
}

// A sink that takes each event and keeps none.
#[derive(Clone, Copy)]
struct Ignores;

impl Sink for Ignores {
    type Error = Infallible;

    ghost took = { λ _ _ _. ⊤ };

    ghost stopped = { λ _ _ _. ⊥ };

    ghost begun = { λ _. tt };

    fn event(&mut self, _event: Event<&str>) -> Result<(), Infallible> {
        Ok(())
    }
}

// What the events so far say of a document: whether a block with entries opened, whether a block did, and
// how many leaves there were.
#[derive(Clone, Copy, Drop)]
struct Shape {
    has_entries: bool,
    has_block: bool,
    leaves: Count,
}

impl Sink for Shape {
    type Error = Infallible;

    ghost took = { Saw };

    ghost stopped = { λ _ _ _. ⊥ };

    ghost begun = { λ s. record { entries = refl; blocks = refl; leaves = refl } };

    fn event(&mut self, event: Event<&str>) -> Result<(), Infallible> {
        self.see(event);
        Ok(())
    }
}

impl Shape {
    #[inline(always)]
    fn see(&mut self, event: Event<&str>)
        ensures entries { self.new.has_entries ≡ opened_by self.old.has_entries (event_now event.entry) }
        ensures blocks { self.new.has_block ≡ begun_by self.old.has_block (event_now event.entry) }
        ensures leaves { self.new.leaves ≡ leaves_with self.old.leaves (event_now event.entry) }
    {
        match event {
            Event::Open(_, _) => {
                self.has_entries = true;
                self.has_block = true;
            }
            Event::Leaf(_) => self.leaves = self.leaves.next(),
            Event::Empty(_) | Event::OnlyDots(_) => {
                self.has_block = true;
                self.leaves = self.leaves.next();
            }
            _ => {}
        }
    }
}
