//! Tests of nested lists: how deep a token document is at most, and how long its texts are.
use super::same;
use super::shape::Shape::{self, Leaf, Listed};
use super::shape::made;
use std::alloc::{AllocError, Global};
use ufmt::{plain_text, pretty_text};
use ufmt_doc::{Doc, StructName, Tree};

// `count` lists around a document.
pub fn lists_around<N: StructName>(
    alloc: Global,
    count: usize,
    inner: &Shape<'_>,
) -> Result<Tree<N>, AllocError> {
    let mut doc = made(alloc, inner)?;
    for _ in 0..count {
        let mut entries = Vec::new(alloc);
        entries.push(doc)?;
        doc = Tree::Listed(entries);
    }
    Ok(doc)
}

// How many lines a text has, and how many spaces its innermost line begins with.
fn lines_and_spaces(text: &str, innermost: &str) -> (usize, usize) {
    let (mut count, mut spaces) = (0usize, 0);
    for line in text.lines() {
        count = count.saturating_add(1);
        if line.trim_start() == innermost {
            spaces = line.len().saturating_sub(innermost.len());
        }
    }
    (count, spaces)
}

// Whether it is a token document, the lengths of its texts, and the lines of the pretty one.
type Sizes = (bool, usize, usize, (usize, usize));

// The sizes of `count` lists.
fn measured(
    alloc: Global,
    count: usize,
    inner: &Shape<'_>,
    innermost: &str,
) -> Result<Sizes, AllocError> {
    let doc: Doc = lists_around(alloc, count, inner)?;
    let plain = plain_text(alloc, &doc)?.len();
    let pretty = pretty_text(alloc, &doc)?;
    let lines = lines_and_spaces(&pretty, innermost);
    Ok((doc.is_token(), plain, pretty.len(), lines))
}

// A list adds two bytes to the plain text, and two lines to the pretty one. Each list after the
// 255th adds 2045 bytes to the pretty text: 1020 spaces, which is the most, to each line, and five
// bytes more.
#[test]
fn lists_are_nested_255_deep_and_lines_begin_with_1020_spaces(rt: HostRuntime) {
    let rows: [(usize, Shape<'_>, &str, Sizes); 4] = [
        (255, Leaf("x"), "x,", (true, 511, 261_376, (511, 1020))),
        (255, Listed(&[]), "[],", (true, 512, 261_377, (511, 1020))),
        (256, Leaf("x"), "x,", (false, 513, 263_421, (513, 1020))),
        (300, Leaf("x"), "x,", (false, 601, 353_401, (601, 1020))),
    ];
    for (count, inner, innermost, wanted) in rows {
        let given = measured(rt.alloc(), count, &inner, innermost);
        same(&rt, (count, given), (count, Ok(wanted)), innermost);
    }
}
