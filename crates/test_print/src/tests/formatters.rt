//! Tests of the formatter's own calls: `write_str`, `write_char` and `pretty`.
ghost use Rattle.std.specs.Prelude.{[], ⊤};

use super::asserts::same;
use std::alloc::AllocError;
use test_rows::printed::{Printed, print_to};
use test_rows::rows::are_ok;
use test_rows::writers::Recorded;
use ufmt::{Cursor, Formatter, Full, uWrite};

#[test]
fn write_str_and_write_char_reach_the_writer(rt: HostRuntime) {
    let mut text = String::new(rt.alloc());
    let by_text = [
        text.write_str("a"),
        text.write_char('é'),
        text.write_str(""),
    ];
    let mut f = Formatter::new(&mut text);
    let by_formatter = [f.write_str(""), f.write_str("b"), f.write_char('é')];
    let left = (are_ok(&by_text) && are_ok(&by_formatter), f.is_pretty());
    same(&rt, (left, f.depth()), ((true, false), 0), "what is left");
    same(&rt, text.as_str(), "aébé", "by both");
}

// A writer that counts its calls of `write_char`. Its text is not known.
#[derive(Drop)]
struct Noted {
    text: String,
    characters: u32,
}

impl uWrite for Noted {
    type Error = AllocError;

    ghost seen = { record { known = λ _. ⊥; text = λ _. []; room = λ _. 0; failed = λ _. ⊤; identity = λ _. []; whole_buffer = λ _. [] } };

    fn write_str(&mut self, s: &str) -> Result<(), AllocError> {
        if s.is_empty() {
            return Ok(());
        }
        self.text.push_str(s)
    }

    fn write_char(&mut self, c: char) -> Result<(), AllocError> {
        self.characters = self.characters.saturating_add(1);
        let mut bytes = [0u8; 4];
        self.write_str(c.encode_utf8(&mut bytes))
    }
}

#[test]
fn write_char_calls_write_char_of_the_writer(rt: HostRuntime) {
    let mut noted = Noted {
        text: String::new(rt.alloc()),
        characters: 0,
    };
    let mut reference = &mut noted;
    let is_ok = uWrite::write_char(&mut reference, 'é').is_ok();
    same(&rt, (is_ok, noted.characters), (true, 1), "by a reference");
    let is_ok = Formatter::new(&mut noted).write_char('a').is_ok();
    let given = (is_ok, noted.characters);
    same(&rt, given, (true, 2), "over a reference");
    let mut f = Formatter::new(noted);
    let outcomes = [f.write_char('b'), f.write_str("c")];
    let noted = f.into_inner();
    let given = (are_ok(&outcomes), noted.characters);
    same(&rt, given, (true, 3), "by a formatter");
    same(&rt, noted.text.as_str(), "éabc", "the text");
}

// Writes an empty text by the writer and by a formatter, and a character of four bytes.
fn write_both<W: uWrite + Drop>(mut writer: W) -> [Result<(), W::Error>; 3] {
    let by_writer = writer.write_str("");
    let mut f = Formatter::new(writer);
    [by_writer, f.write_str(""), f.write_char('🦀')]
}

#[test]
fn references_pass_each_piece_to_their_writer(rt: HostRuntime) {
    let mut recorded = Recorded::new(rt.alloc());
    let mut reference = &mut recorded;
    let by_two = write_both(&mut reference);
    let by_one = write_both(reference);
    let by_itself = recorded.write_char('🦀');
    let are_ok = are_ok(&by_two) && are_ok(&by_one) && by_itself.is_ok();
    same(&rt, are_ok, true, "by two references, by one and by none");
    let pieces = recorded.barred.as_str();
    same(&rt, pieces, "||🦀|||🦀|🦀|", "by two, by one and by none");
}

struct Dropped;

impl Printed for Dropped {
    fn print<W: uWrite>(&self, f: &mut Formatter<W>) -> Result<(), W::Error> {
        let _list = f.debug_list()?;
        Ok(())
    }
}

#[test]
fn a_dropped_builder_writes_no_closing_bracket(rt: HostRuntime) {
    let ((outcome, _, outside), text) = print_to(true, &Dropped, String::new(rt.alloc()));
    same(&rt, outcome.is_ok(), true, "its outcome");
    same(&rt, outside, (false, 0), "what is left");
    same(&rt, text.as_str(), "[", "the text");
}

// The result of a pretty part that returns this error, and mode and depth after it.
fn fail_by_itself<W: uWrite>(writer: W, error: W::Error) -> ((Result<(), W::Error>, bool, u8), W)
where
    W::Error: Drop,
{
    let mut f = Formatter::new(writer);
    let outcome = f.pretty(|_| Err(error));
    ((outcome, f.is_pretty(), f.depth()), f.into_inner())
}

#[test]
fn pretty_goes_back_to_plain_mode_after_an_error(rt: HostRuntime) {
    let mut buffer = [0; 8];
    let (left, cursor) = fail_by_itself(Cursor::new(&mut buffer), Full);
    same(&rt, left, (Err(Full), false, 0), "what is left");
    same(&rt, cursor.remaining(), 8, "what remains");
}

// The result of a pretty part of one piece, the mode inside it, and mode and depth after it.
fn write_in_pretty_mode<W: uWrite>(
    f: &mut Formatter<W>,
    piece: &str,
) -> (Result<(), W::Error>, bool, bool, u8) {
    let mut inside = false;
    let outcome = f.pretty(|f| {
        inside = f.is_pretty();
        f.write_str(piece)
    });
    (outcome, inside, f.is_pretty(), f.depth())
}

#[test]
fn pretty_goes_back_to_plain_mode_after_a_refused_piece(rt: HostRuntime) {
    let mut buffer = [0; 1];
    let mut f = Formatter::new(Cursor::new(&mut buffer));
    let refused = write_in_pretty_mode(&mut f, "ab");
    same(&rt, refused, (Err(Full), true, false, 0), "what is left");
    let cursor = f.into_inner();
    same(&rt, cursor.written(), b"".as_slice(), "nothing is written");
    let mut f = Formatter::new(cursor);
    let taken = write_in_pretty_mode(&mut f, "a");
    same(&rt, taken, (Ok(()), true, false, 0), "a piece that fits");
    same(&rt, f.into_inner().written(), b"a".as_slice(), "the piece");
}
