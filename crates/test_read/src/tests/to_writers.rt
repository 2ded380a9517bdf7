//! Tests of conversions to writers and into buffers of each size.
use super::holds;
use std::alloc::{AllocError, Global};
use ufmt::class::Class;
use ufmt::layout::Mode;
use ufmt::{Cursor, Full, uWrite};
use ufmt_doc::convert::{convert_into, write_converted};
use ufmt_doc::scan::ScanError;

// Whether the conversion to a buffer of this size is `Ok` if the whole fits, and else writes a
// prefix and fails with `Full`.
fn is_fitted(
    alloc: Global,
    class: Class,
    to: Mode,
    text: &[u8],
    other: &[u8],
    size: usize,
) -> Result<bool, AllocError> {
    let mut bytes = vec![in alloc; 0u8; size]?;
    let mut cursor = Cursor::new(bytes.as_mut_slice());
    let is_right = match write_converted(&mut cursor, class, to, text) {
        Ok(()) => size >= other.len() && cursor.written() == other,
        Err(ScanError::Sink(Full)) => size < other.len() && other.starts_with(cursor.written()),
        Err(ScanError::NotText) => false,
    };
    Ok(is_right)
}

// For how many sizes that holds, from no byte to one more than the result has.
fn fitted(
    alloc: Global,
    class: Class,
    to: Mode,
    text: &str,
    other: &str,
) -> Result<usize, AllocError> {
    let mut count = 0usize;
    for size in 0..=other.len().saturating_add(1) {
        if is_fitted(alloc, class, to, text.as_bytes(), other.as_bytes(), size)? {
            count = count.saturating_add(1);
        }
    }
    Ok(count)
}

#[test]
fn conversions_fail_with_full_only_if_the_buffer_is_too_short(rt: HostRuntime) {
    let plain = "{a: [\"b\", ()], N: {}, (c,): {d, e}}";
    let pretty =
        "{\n    a: [\n        \"b\",\n        (),\n    ],\n    N: {},\n    (\n        c,\n    ): {\n        d,\n        e,\n    },\n}";
    let dotted = "S { a: (1.5,), .. }";
    let dotted_pretty = "S {\n    a: (\n        1.5,\n    ),\n    ..\n}";
    let rows = [
        (Class::Token, Mode::Pretty, plain, pretty),
        (Class::Token, Mode::Plain, pretty, plain),
        (Class::Debug, Mode::Pretty, dotted, dotted_pretty),
        (Class::Debug, Mode::Plain, dotted_pretty, dotted),
    ];
    for (class, to, text, other) in rows {
        let sizes = fitted(rt.alloc(), class, to, text, other);
        holds(&rt, sizes == Ok(other.len().saturating_add(2)), text);
    }
}

// Whether the conversion into a buffer with room enough succeeds only if this is a text, writes
// `front`, and keeps the bytes after it.
fn is_at_front(to: Mode, text: &str, is_text: bool, front: &str) -> bool {
    let mut bytes = [b'#'; 64];
    let outcome = convert_into(&mut bytes, Class::Token, to, text.as_bytes());
    let is_said = match outcome {
        Ok(count) => is_text && count == front.len(),
        Err(ScanError::NotText) => !is_text,
        Err(ScanError::Sink(Full)) => false,
    };
    is_said
        && bytes.starts_with(front.as_bytes())
        && bytes.iter().skip(front.len()).all(|byte| *byte == b'#')
}

#[test]
fn conversions_into_a_buffer_write_at_its_front(rt: HostRuntime) {
    let plain = "S { a: [1, ()] }";
    let pretty = "S {\n    a: [\n        1,\n        (),\n    ],\n}";
    let rows = [
        (Mode::Pretty, plain, true, pretty),
        (Mode::Plain, pretty, true, plain),
        (Mode::Pretty, "[a, b", false, "[\n    a,\n    b"),
        (Mode::Plain, "[\n    a\n]", false, "[a"),
        (Mode::Pretty, ", a", false, ""),
    ];
    for (to, text, is_text, front) in rows {
        holds(&rt, is_at_front(to, text, is_text, front), text);
    }
}

#[test]
fn errors_are_compared_and_shown(rt: HostRuntime) {
    let mut bytes = [0u8; 4];
    let written = convert_into(&mut bytes, Class::Token, Mode::Plain, b"[\n    a,\n]");
    assert_eq!(rt; written, Ok(3));
    let full = convert_into(&mut bytes, Class::Token, Mode::Pretty, b"[a]");
    assert_eq!(rt; full, Err(ScanError::Sink(Full)));
    let refused = convert_into(&mut bytes, Class::Token, Mode::Pretty, b"]");
    assert_eq!(rt; refused, Err(ScanError::NotText));
}
