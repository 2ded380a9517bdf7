//! Tests of `Cursor`, of `write_to_buffer`, and of a formatter that continues after a failed entry.
use super::asserts::{has_wanted_rows, same};
use test_rows::rows::Table;
use test_rows::{put_rows, rows_of};
use ufmt::{Cursor, Formatter, Full, laws, uWrite};

#[test]
fn a_cursor_takes_pieces_that_fit(rt: HostRuntime) {
    let mut table = Table::new(rt.alloc());
    let mut buffer = *b"......";
    let mut cursor = Cursor::new(&mut buffer);
    for (piece, wanted) in [
        ("", "Ok(6) "),
        ("ab", "Ok(4) ab"),
        ("cdefg", "Err(Full) ab"),
    ] {
        put_rows!(table; put_written(cursor.write_str(piece), cursor.remaining(), cursor.written()) => wanted;);
    }
    for (character, wanted) in [('é', "Ok(2) abé"), ('€', "Err(Full) abé")] {
        put_rows!(table; put_written(cursor.write_char(character), cursor.remaining(), cursor.written()) => wanted;);
    }
    put_rows!(table; put_written(cursor.write_str(""), cursor.remaining(), cursor.written()) => "Ok(2) abé";);
    same(&rt, cursor.remaining(), 2, "what remains");
    same(&rt, buffer.as_slice(), "abé..".as_bytes(), "the buffer");
    let mut cursor = Cursor::new(&mut []);
    for (piece, wanted) in [("", "Ok(0) "), ("a", "Err(Full) ")] {
        put_rows!(table; put_written(cursor.write_str(piece), cursor.remaining(), cursor.written()) => wanted;);
    }
    same(&rt, cursor.remaining(), 0, "what remains");
    has_wanted_rows(&rt, &table);
}

#[test]
fn write_to_buffer_keeps_the_other_bytes(rt: HostRuntime) {
    let mut buffer = *b"....";
    let outcome = laws::write_to_buffer(&mut buffer, "abcde");
    same(&rt, (outcome, &buffer), (Err(Full), b"...."), "too long");
    let outcome = laws::write_to_buffer(&mut buffer, "ab");
    same(&rt, (outcome, &buffer), (Ok(()), b"ab.."), "short");
}

// Begins a list whose first entry fails. Then writes `x` if the builder is closed and the depth is
// as before.
fn entry_then_text<W: uWrite<Error = Full>>(f: &mut Formatter<W>) -> Result<(), Full> {
    let mut list = f.debug_list()?;
    let outcome = list.entry(&1u64);
    let is_closed = outcome == Err(Full) && !list.is_open();
    let is_as_before = is_closed && f.depth() == 0;
    f.write_str(if is_as_before { "x" } else { "" })
}

fn entry_then_text_to<W: uWrite<Error = Full>>(
    is_pretty: bool,
    writer: W,
) -> (Result<(), Full>, (bool, u8), W) {
    let mut f = Formatter::new(writer);
    let outcome = if is_pretty {
        f.pretty(|f| entry_then_text(f))
    } else {
        entry_then_text(&mut f)
    };
    (outcome, (f.is_pretty(), f.depth()), f.into_inner())
}

// A buffer of one byte takes only the bracket. One of three also takes the line feed. The four
// spaces of the entry don't fit then, but the text does.
#[test]
fn a_formatter_continues_after_a_failed_entry(rt: HostRuntime) {
    let mut table = Table::new(rt.alloc());
    for (size, is_pretty, wanted) in rows_of![
        1, false => "Err(Full) ["; 1, true => "Err(Full) ["; 3, true => "Ok(0) [\nx";
    ] {
        let mut buffer = [0; 3];
        let writer = Cursor::new(&mut buffer[..size]);
        let (outcome, left, cursor) = entry_then_text_to(is_pretty, writer);
        same(&rt, left, (false, 0), "what is left");
        put_rows!(table; put_written(outcome, cursor.remaining(), cursor.written()) => wanted;);
    }
    has_wanted_rows(&rt, &table);
}
