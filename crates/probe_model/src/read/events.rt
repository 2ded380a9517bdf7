//! A sink that notes each event.
ghost use Rattle.std.specs.Prelude.{⊤};

use std::alloc::{AllocError, Global};
use ufmt::layout::{Count, Kind};
use ufmt_doc::scan::{Event, Sink};

/// The events so far: letters or a sign for each, and its text.
#[derive(Drop)]
pub struct Events {
    pub text: String,
}

impl Events {
    pub fn new(alloc: Global) -> Self {
        Events {
            text: String::new(alloc),
        }
    }

    fn note(&mut self, signs: &str, text: &str) -> Result<(), AllocError> {
        self.text.push_str(signs)?;
        self.text.push_str(text)?;
        self.text.push(' ')
    }

    fn note_kind(&mut self, sign: &str, kind: Kind) -> Result<(), AllocError> {
        self.text.push_str(sign)?;
        self.text.push_str(match kind {
            Kind::Brackets => "l",
            Kind::Braces => "b",
            Kind::Struct => "s",
            Kind::Tuple => "t",
            Kind::Unnamed => "u",
        })
    }
}

fn digit(count: Count) -> &'static str {
    match count {
        Count::Zero => "0",
        Count::One => "1",
        Count::Several => "2",
    }
}

impl Sink for Events {
    type Error = AllocError;

    ghost took = { λ _ _ _. ⊤ };

    ghost stopped = { λ _ _ _. ⊤ };

    ghost begun = { λ _. tt };

    fn event(&mut self, event: Event<&str>) -> Result<(), AllocError> {
        match event {
            Event::Leaf(text) => self.note("=", text),
            Event::Empty(kind) => {
                self.note_kind("e", kind)?;
                self.note("", "")
            }
            Event::OnlyDots(name) => self.note("ed", name),
            Event::Open(kind, name) => {
                self.note_kind("o", kind)?;
                self.note("", name)
            }
            Event::FieldName(name) => self.note(".", name),
            Event::Colon => self.note(":", ""),
            Event::Next => self.note(",", ""),
            Event::Dots => self.note("cd", ""),
            Event::Close(kind, count) => {
                self.note_kind("c", kind)?;
                self.note(digit(count), "")
            }
        }
    }
}
