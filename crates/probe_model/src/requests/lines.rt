//! Lines of each kind of piece, in columns and without, by `pieces!` and by `uwrite!`.
use super::Request;
use crate::digest::Digest;
use crate::pieces::Pieces;
use ufmt::{Formatter, pieces, uWrite, uwrite, uwriteln, write_line};

/// Writes a text in each kind of piece.
pub fn pieces(request: &Request<'_>, text: &str) -> Digest {
    let mut pieces = Pieces::new();
    write_pieces(request, text, &mut pieces);
    write_each(request, text, &mut pieces);
    let mut f = Formatter::new(&mut pieces);
    let _ = write(request, text, &mut f);
    let _ = f.pretty(|f| write_in_a_list(request, text, f));
    pieces.digest
}

fn write_pieces(request: &Request<'_>, text: &str, pieces: &mut Pieces) {
    let Request { column, hex, .. } = *request;
    let line =
        pieces!(text text, display text, debug text, pretty (text, ()), hex (text.len()) with hex);
    let _ = write_line(pieces, &line);
    let columns = pieces!(
        display text in column, debug text in column, pretty (text, ()) in column,
        hex (text.len()) with hex in column, display '!' in column
    );
    let _ = write_line(pieces, &columns);
}

fn write_each(request: &Request<'_>, text: &str, pieces: &mut Pieces) {
    let Request { column, hex, .. } = *request;
    let (texts, numbers) = ([text, "", "x"], [0u32, 255]);
    let line = pieces!(
        each display texts between text, each debug texts between "", each pretty texts between text,
        each hex numbers with hex between text, each display texts in column between text,
        each hex numbers with hex in column between ", "
    );
    let _ = write_line(pieces, &line);
}

fn write<W: uWrite>(
    request: &Request<'_>,
    text: &str,
    f: &mut Formatter<W>,
) -> Result<(), W::Error> {
    let Request { column, hex, .. } = *request;
    uwrite!(f, text text, display text, debug (text, 'c'), pretty (text,), hex (text.len()) with hex)?;
    let width = column.width;
    uwrite!(f, bin (text.len()) with hex, oct (text.len()) with hex, zeros (text.len()) to width)?;
    uwriteln!(f, display text in column, debug (text, 'c') in column, hex (text.len()) with hex in column)
}

fn write_in_a_list<W: uWrite>(
    request: &Request<'_>,
    text: &str,
    f: &mut Formatter<W>,
) -> Result<(), W::Error> {
    let mut list = f.debug_list()?;
    let outcome = write(request, text, list.begin_entry()?);
    list.end_entry(outcome)?;
    list.finish()
}
