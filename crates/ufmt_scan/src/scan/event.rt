//! The events of a text, and the sinks that take them.
ghost use Rattle.std.specs.Prelude.{[], List, is_ok};
ghost use Rattle.ufmt_scan.specs.Scan.{TakesEvent, TextEvent, event_now};

use ufmt_core::layout::{Count, Kind};

/// What comes next in a text. `T` is the text of a leaf or a name.
#[derive(Clone, Copy)]
pub enum Event<T> {
    /// A leaf, or a name without a block.
    Leaf(T),
    /// A list, a set or a map without entries.
    Empty(Kind),
    /// A struct of which no field is shown: its name, and the dots in braces.
    OnlyDots(T),
    /// The name of a block and its opening, before its first entry.
    Open(Kind, T),
    /// A field's name and the colon after it.
    FieldName(T),
    /// The colon after a key.
    Colon,
    /// What separates two entries, or a field and the dots after it.
    Next,
    /// The end of a block with this many entries.
    Close(Kind, Count),
    /// The dots in place of a struct's last fields, and the end of the struct.
    Dots,
}

/// Accepts the events of a text. It may fail at any event.
pub trait Sink {
    type Error;

    /// From the first state to the second, the sink took these events.
    ghost took: { Self → List TextEvent → Self → Type 0 };

    /// The same, but the sink failed at the last event.
    ghost stopped: { Self → List TextEvent → Self → Type 0 };

    /// Accepts an event.
    fn event(&mut self, event: Event<&str>) -> Result<(), Self::Error>
        ensures { TakesEvent took stopped self.old (event_now event.entry) (is_ok result) self.new };

    /// From a state to itself, the sink took no events.
    ghost begun: { (s : Self) → took s [] s };
}

/// Why a scan failed.
#[derive(Drop, PartialEq, Eq, Debug)]
pub enum ScanError<E> {
    /// No document of the class has this text.
    NotText,
    /// The sink's error.
    Sink(E),
}
