//! The place of a byte in a text: its line and its column, as an editor counts.
ghost use Rattle.std.specs.Prelude.{◌≡◌, take};
ghost use Rattle.std.specs.Fmt.{is_char_start};
ghost use Rattle.ufmt_parse.specs.Places.{IsPlaceAfter};

/// Returns the line and the column of the byte `at`, both from 1. The column counts characters of the line,
/// as most editors do. A place past the end of the text is the end. In a text that isn't UTF-8, a byte counts
/// unless it has the form 10xxxxxx.
pub fn line_and_column(text: &[u8], at: usize) -> (usize, usize)
    ensures { IsPlaceAfter (take at text.now) result.0 result.1 }
{
    let before = &text[..at.min(text.len())];
    let mut line = 1;
    let mut column = 1;
    for byte in before {
        if *byte == b'\n' {
            line += 1;
            column = 1;
        } else if begins_character(*byte) {
            column += 1;
        }
    }
    (line, column)
}

// The other bytes of a character are of the form 10xxxxxx.
fn begins_character(byte: u8) -> bool
    ensures { result ≡ is_char_start byte }
{
    byte < 0x80 || byte >= 0xc0
}
