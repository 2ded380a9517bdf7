//! Tests of `scan` with a user's own sink: the scan stops if the sink fails. The events are rows of tools/data/rows.
ghost use Rattle.std.specs.Prelude.{⊤};

use super::same;
use ufmt::class::Class;
use ufmt::layout::Mode;
use ufmt_scan::scan::{Event, ScanError, Sink, scan};

// Takes so many events.
#[derive(Drop)]
struct Few {
    left: usize,
}

// The sink takes no more events.
#[derive(Drop)]
struct Enough;

impl Sink for Few {
    type Error = Enough;

    ghost took = { λ _ _ _. ⊤ };

    ghost stopped = { λ _ _ _. ⊤ };

    ghost begun = { λ _. tt };

    fn event(&mut self, _event: Event<&str>) -> Result<(), Enough> {
        if self.left == 0 {
            return Err(Enough);
        }
        self.left -= 1;
        Ok(())
    }
}

// How the scan ended.
fn ending(outcome: Result<(), ScanError<Enough>>) -> &'static str {
    match outcome {
        Ok(()) => "whole",
        Err(ScanError::NotText) => "no text",
        Err(ScanError::Sink(Enough)) => "stopped",
    }
}

// A row has a class, a mode, a text, how many events the sink takes, how the scan ends, and how many more events the
// sink takes then.
#[test]
fn a_scan_ends_with_its_sink(rt: HostRuntime) {
    let (plain, pretty) = (Mode::Plain, Mode::Pretty);
    for (class, mode, text, left, wanted, then) in [
        (Class::Token, plain, "[a, \"b\"]", 9, "whole", 4),
        (Class::Token, plain, "[a, b]", 5, "whole", 0),
        (Class::Token, plain, "[a, b]", 4, "stopped", 0),
        (Class::Token, plain, "[a, b]", 0, "stopped", 0),
        (Class::Token, plain, "S { x: 1 }", 1, "stopped", 0),
        (Class::Token, pretty, "[\n    a,\n]", 3, "whole", 0),
        (Class::Token, pretty, "[\n    a,\n]", 2, "stopped", 0),
        (Class::Token, plain, "[a, b", 9, "no text", 5),
        (Class::Token, plain, "a b", 9, "no text", 8),
        (Class::Token, plain, "", 9, "no text", 9),
        (Class::Debug, plain, "S { .. }", 1, "whole", 0),
        (Class::Debug, plain, "S { .. }", 0, "stopped", 0),
        (Class::Debug, plain, "S { x: 1, .. }", 4, "stopped", 0),
        (Class::Debug, plain, "S { x: 1, ..", 9, "no text", 5),
    ] {
        let mut few = Few { left };
        let ended = ending(scan(class, mode, text.as_bytes(), &mut few));
        same(&rt, (ended, few.left), (wanted, then), text);
    }
}
