//! A sink that lays out the events that it takes.
ghost use Rattle.std.specs.Prelude.{◌≡◌, ◌<◌, ◌++◌, All, is_ok, true, false};
ghost use Rattle.ufmt_core.specs.Layout.{frame, indentation, lead};
ghost use Rattle.ufmt_core.specs.declared.layout.Count.TheVariants.{Zero};
ghost use Rattle.ufmt_core.specs.Writes.{Writes};
ghost use Rattle.ufmt_scan.specs.Private.TextSink.{Wrote};
ghost use Rattle.ufmt_scan.specs.Scan.{event_now};
ghost use Rattle.ufmt_scan.specs.ScanTexts.{setting_after, written};
ghost use Rattle.std.proofs.Common.{refl};
ghost use Rattle.ufmt_core.proofs.Writing.{Writes-nothing};

use crate::mode::ParseMode;
use crate::scan::{Event, Sink};
use std::marker::PhantomData;
use ufmt_core::internal::text_from;
use ufmt_core::layout::{COLON, Count, Kind, Mode, ONLY_DOTS, Setting};
use ufmt_core::uWrite;

// The front of a line and its indentation at this depth. They are cut from a line at the greatest
// depth, whose indentation is 17 times 60 spaces.
macro_rules! new_line {
    ($front:literal, $depth:expr) => {
        new_line!($front, $depth, "                                                            ")
    };
    ($front:literal, $depth:expr, $s:literal) => {
        cut(
            $front,
            concat!($front, $s, $s, $s, $s, $s, $s, $s, $s, $s, $s, $s, $s, $s, $s, $s, $s, $s),
            $depth,
        )
    };
}

/// A writer, and the depth at which the text continues in the mode `M`. So there is one scan per mode.
#[derive(Drop)]
pub(super) struct TextSink<'w, W, M> {
    pub(super) writer: &'w mut W,
    pub(super) depth: u8,
    pub(super) mode: PhantomData<M>,
}

/// Fails with the writer's error.
impl<W: uWrite, M: ParseMode> Sink for TextSink<'_, W, M> {
    type Error = W::Error;

    ghost took = { Wrote W.seen M.mode true };

    ghost stopped = { Wrote W.seen M.mode false };

    ghost begun = { λ s. record { writes = Writes-nothing s.writer.now; continues = refl; same_writer = refl } };

    #[inline(always)]
    fn event(&mut self, event: Event<&str>) -> Result<(), W::Error> {
        let setting = Setting {
            mode: M::mode(),
            depth: self.depth,
        };
        let (first, second) = pieces(setting, event);
        self.depth = setting_after(setting, event).depth;
        write_piece(first, self.writer)?;
        write_piece(second, self.writer)
    }
}

/// The mode and depth after an event.
#[inline(always)]
pub(crate) fn setting_after(setting: Setting, event: Event<&str>) -> Setting
    ensures { result ≡ setting_after setting (event_now event.entry) }
{
    let Setting { mode, depth } = setting;
    match (event, mode) {
        (Event::Open(_, _), _) => setting.inside(),
        (Event::Close(_, _) | Event::Dots, Mode::Pretty) => Setting {
            mode,
            depth: depth.saturating_sub(1),
        },
        _ => setting,
    }
}

/// The text of an event, in two pieces. Either may be empty.
#[inline(always)]
pub(crate) fn pieces<'a>(setting: Setting, event: Event<&'a str>) -> (&'a str, &'a str)
    ensures { result.0.now ++ result.1.now ≡ written setting (event_now event.entry) }
{
    match (event, setting.mode) {
        (Event::Leaf(text), _) => (text, ""),
        (Event::Empty(Kind::Brackets), _) => ("", "[]"),
        (Event::Empty(Kind::Braces), _) => ("", "{}"),
        (Event::Empty(_), _) => ("", ""),
        (Event::OnlyDots(name), _) => (name, ONLY_DOTS),
        (Event::Open(kind, name), _) => (name, opening(kind, setting.inside())),
        (Event::FieldName(name), _) => (name, COLON),
        (Event::Colon, _) => ("", COLON),
        (Event::Next, Mode::Plain) => ("", ", "),
        (Event::Next, Mode::Pretty) => ("", new_line!(",\n", setting.depth)),
        (Event::Close(kind, count), Mode::Plain) => ("", closing(Mode::Plain, kind, count)),
        (Event::Close(kind, count), Mode::Pretty) => {
            let line = new_line!(",\n", setting.depth.saturating_sub(1));
            (line, closing(Mode::Pretty, kind, count))
        }
        (Event::Dots, Mode::Plain) => ("", ".. }"),
        (Event::Dots, Mode::Pretty) => {
            let line = new_line!("..\n", setting.depth.saturating_sub(1));
            (line, "}")
        }
    }
}

// What opens a block whose entries have this mode and depth.
#[inline(always)]
fn opening(kind: Kind, entry: Setting) -> &'static str
    ensures { result.now ≡ (frame entry.mode kind).opening ++ lead (frame entry.mode kind) entry Zero }
{
    match (kind, entry.mode) {
        (Kind::Brackets, Mode::Plain) => "[",
        (Kind::Brackets, Mode::Pretty) => new_line!("[\n", entry.depth),
        (Kind::Braces, Mode::Plain) => "{",
        (Kind::Braces, Mode::Pretty) => new_line!("{\n", entry.depth),
        (Kind::Struct, Mode::Plain) => " { ",
        (Kind::Struct, Mode::Pretty) => new_line!(" {\n", entry.depth),
        (Kind::Tuple | Kind::Unnamed, Mode::Plain) => "(",
        // As two arms these need no proof file.
        (Kind::Tuple, Mode::Pretty) => new_line!("(\n", entry.depth),
        (Kind::Unnamed, Mode::Pretty) => new_line!("(\n", entry.depth),
    }
}

// The closing bracket of a block with this many entries, after a space or comma if one is there.
#[inline(always)]
fn closing(mode: Mode, kind: Kind, count: Count) -> &'static str
    ensures { result.now ≡ (frame mode kind).closing count }
{
    match (kind, count, mode) {
        (Kind::Struct | Kind::Tuple | Kind::Unnamed, Count::Zero, _) => "",
        (Kind::Struct, _, Mode::Plain) => " }",
        (Kind::Unnamed, Count::One, Mode::Plain) => ",)",
        _ => kind.closing_bracket(),
    }
}

// The front of a line and its indentation at this depth, cut from the deepest line.
#[inline(always)]
#[tactic(auto, using(crate::proofs::Lines::cut_is, crate::proofs::Lines::line_ascii))]
fn cut(front: &str, deepest: &'static str, depth: u8) -> &'static str
    requires ascii { All (λ c. c < 128) front.now }
    requires whole { deepest.now ≡ front.now ++ indentation 255 }
    ensures { result.now ≡ front.now ++ indentation depth }
{
    text_from(&deepest.as_bytes()[..front.len() + 4 * depth as usize], 0)
}

#[inline(always)]
fn write_piece<W: uWrite>(piece: &str, writer: &mut W) -> Result<(), W::Error>
    ensures { Writes W.seen writer.old piece.now (is_ok result) writer.new }
{
    if piece.is_empty() {
        Ok(())
    } else {
        writer.write_str(piece)
    }
}
