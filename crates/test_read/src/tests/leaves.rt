//! Tests of `is_symbol` and `split_escaped`.
use super::same;
use ufmt_scan::internal::split_escaped;
use ufmt_scan::leaf::is_symbol;

#[test]
fn symbols_are_leaves_that_are_no_words(rt: HostRuntime) {
    for (text, wanted) in [
        ("()", true),
        ("\"\"", true),
        ("'\u{e9}'", true),
        ("", false),
        ("az_AZ-09", false),
        ("()()", false),
        ("\"a\"b", false),
        ("\"\\u{7F}\"", false),
        ("''", false),
        ("'ab'", false),
    ] {
        same(&rt, is_symbol(text), wanted, text);
    }
}

// What is between quotation marks, the byte that its front is decoded to, and how many bytes
// follow.
const SPELLINGS: [(&str, Option<(u8, usize)>); 12] = [
    ("", None),
    ("ab", Some((b'a', 1))),
    ("'", Some((b'\'', 0))),
    ("\\n\"", Some((b'\n', 1))),
    ("\\\"", Some((b'"', 0))),
    ("\\\\\\", Some((b'\\', 1))),
    ("\\u{1b}", Some((27, 0))),
    ("\\u{1B}", None),
    ("\\u{01}", None),
    ("\\u{41}", None),
    ("\\'", None),
    ("\t", None),
];

#[test]
fn split_escaped_decodes_a_byte_in_its_one_spelling(rt: HostRuntime) {
    for (inside, wanted) in SPELLINGS {
        let given = split_escaped(b'"', inside.as_bytes()).map(|(byte, rest)| (byte, rest.len()));
        same(&rt, given, wanted, inside);
    }
}
