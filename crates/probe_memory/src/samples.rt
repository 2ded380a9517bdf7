//! The texts that are read and converted.

/// The texts of a document or of none, and how many allocations the calls on them make.
///
/// A reader makes one for each leaf, name and field name that isn't empty, one for each block with
/// entries, and one more for a map. The vector of open blocks takes one. A block's entries, and this
/// vector, take one more each time they pass 4, 8, 16 and so on. A text grows to 8 bytes, 16, 32 and so on, or to what a longer piece needs. Each growth is
/// one.
#[derive(Clone, Copy)]
pub struct Sample {
    pub name: &'static str,
    pub plain: &'static str,
    pub pretty: &'static str,
    /// Whether they are texts of a document.
    pub is_read: bool,
    /// Allocations for the document, from either text.
    pub of_document: u64,
    /// Allocations for the pretty text, written to a `String`.
    pub of_pretty: u64,
    /// Allocations for the plain text, written to a `String`.
    pub of_plain: u64,
}

impl Sample {
    /// Returns the plain text, if it is one of a document.
    pub fn ample_plain(&self) -> Option<&'static str> {
        if self.is_read { Some(self.plain) } else { None }
    }

    /// Returns the pretty text, if it is one of a document.
    pub fn ample_pretty(&self) -> Option<&'static str> {
        if self.is_read {
            Some(self.pretty)
        } else {
            None
        }
    }
}

/// The texts of a debug document that is no token document.
pub const DEBUG: Sample = Sample {
    name: "numbers and dots",
    plain: "(1.5, S { a: 0..5, .. }, T { .. })",
    pretty: "(\n    1.5,\n    S {\n        a: 0..5,\n        ..\n    },\n    T { .. },\n)",
    is_read: true,
    of_document: 8,
    of_pretty: 5,
    of_plain: 4,
};

pub const NODE_PLAIN: &str = "Node { value: 1, next: Some(Node { value: 0, next: None }) }";

pub const NODE_PRETTY: &str = "\
Node {
    value: 1,
    next: Some(
        Node {
            value: 0,
            next: None,
        },
    ),
}";

/// A list of blocks of each kind, with up to five entries, and of leaves of each kind. One leaf is
/// longer than 255 bytes. `loosen` turns the leaves `A` and `B` into blocks.
pub const MANY_PLAIN: &str = "\
[{a, A, c}, {d: 1, A: 2, f: B, g: 4}, S { h: 5, i: A, j: {}, k: 8, l: B }, n(m, A), (A,), (q, r), [], {}, (), \
\"\\\"é\\\"\\n\", '\\'', '€', wwwwwwwwwwwwwwwwwwwwwwwwwwwwwwwwwwwwwwwwwwwwwwwwwwwwwwwwwwwwwwwwwwwwwwwwwwwwwwwwwwwwwwwwwwwwwwwwwwwwwwwwwwwwwwwwwwwwwwwwwwwwwwwwwwwwwwwwwwwwwwwwwwwwwwwwwwwwwwwwwwwwwwwwwwwwwwwwwwwwwwwwwwwwwwwwwwwwwwwwwwwwwwwwwwwwwwwwwwwwwwwwwwwwwwwwwwwwwwwwwwwwwwwwwwwwwwwwwwww, \"\\0\\t\\r\\\\\\u{1}\\u{7f}'\"]";

pub const MANY_PRETTY: &str = "\
[
    {
        a,
        A,
        c,
    },
    {
        d: 1,
        A: 2,
        f: B,
        g: 4,
    },
    S {
        h: 5,
        i: A,
        j: {},
        k: 8,
        l: B,
    },
    n(
        m,
        A,
    ),
    (
        A,
    ),
    (
        q,
        r,
    ),
    [],
    {},
    (),
    \"\\\"é\\\"\\n\",
    '\\'',
    '€',
    wwwwwwwwwwwwwwwwwwwwwwwwwwwwwwwwwwwwwwwwwwwwwwwwwwwwwwwwwwwwwwwwwwwwwwwwwwwwwwwwwwwwwwwwwwwwwwwwwwwwwwwwwwwwwwwwwwwwwwwwwwwwwwwwwwwwwwwwwwwwwwwwwwwwwwwwwwwwwwwwwwwwwwwwwwwwwwwwwwwwwwwwwwwwwwwwwwwwwwwwwwwwwwwwwwwwwwwwwwwwwwwwwwwwwwwwwwwwwwwwwwwwwwwwwwwwwwwwwwww,
    \"\\0\\t\\r\\\\\\u{1}\\u{7f}'\",
]";

/// The list of blocks and leaves. Its document is read by `read_twice`.
pub const MANY: Sample = Sample {
    name: "many entries",
    plain: MANY_PLAIN,
    pretty: MANY_PRETTY,
    is_read: true,
    of_document: 45,
    of_pretty: 8,
    of_plain: 7,
};

/// A node, each kind of block with two entries, and lines that are no text of a document.
pub fn all() -> [Sample; 3] {
    [
        Sample {
            name: "a node",
            plain: NODE_PLAIN,
            pretty: NODE_PRETTY,
            is_read: true,
            of_document: 14,
            of_pretty: 5,
            of_plain: 4,
        },
        Sample {
            name: "each kind of block",
            plain: "{[a, b]: (c, {d, e}), n(f, g): S { h: {}, i: j }}",
            pretty: "\
{
    [
        a,
        b,
    ]: (
        c,
        {
            d,
            e,
        },
    ),
    n(
        f,
        g,
    ): S {
        h: {},
        i: j,
    },
}",
            is_read: true,
            of_document: 20,
            of_pretty: 6,
            of_plain: 4,
        },
        Sample {
            name: "three lines",
            plain: "ab\n\nxyz",
            pretty: "ab\n\nxyz",
            is_read: false,
            of_document: 1,
            of_pretty: 1,
            of_plain: 1,
        },
    ]
}
