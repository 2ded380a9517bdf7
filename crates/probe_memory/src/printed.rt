//! Prints a node to a `String`, and shows what is left if memory is refused.
ghost use Rattle.std.specs.Prelude.{[], ◌∷◌};
ghost use Rattle.ufmt.specs.ValueDocuments.{named_struct, number, option_document};

use crate::outcome::Outcome;
use std::alloc::AllocError;
use std::io;
use ufmt::{Formatter, fields, uDebug, uWrite};

/// A number, and perhaps what is next.
#[derive(Drop)]
pub struct Node<T> {
    value: u64,
    next: Option<T>,
}

impl<T: uDebug> uDebug for Node<T> {
    ghost document = { λ n. named_struct "Node"
        (("value", number n.value) ∷ ("next", option_document T.document n.next) ∷ []) };

    fn fmt<W: uWrite>(&self, f: &mut Formatter<W>) -> Result<(), W::Error> {
        fields!(f, self, Node { value, next })
    }
}

/// A node, and the next one.
pub fn two_nodes() -> Node<Node<()>> {
    Node {
        value: 1,
        next: Some(Node {
            value: 0,
            next: None,
        }),
    }
}

/// Prints a node plain and pretty, and says what text, mode and depth are left.
pub fn report(rt: &HostRuntime) -> io::Result<()> {
    let mut text = String::new(rt.alloc());
    let mut f = Formatter::new(&mut text);
    let outcome = two_nodes().fmt(&mut f);
    report_left(rt, "plain", 4, outcome, f)?;
    let mut text = String::new(rt.alloc());
    let mut f = Formatter::new(&mut text);
    let outcome = f.pretty(|f| two_nodes().fmt(f));
    report_left(rt, "pretty", 5, outcome, f)
}

fn report_left(
    rt: &HostRuntime,
    mode: &str,
    allocations: u64,
    outcome: Result<(), AllocError>,
    f: Formatter<&mut String>,
) -> io::Result<()> {
    let outcome = Outcome::of_memory(outcome);
    let (is_pretty, depth) = (f.is_pretty(), f.depth());
    let text = f.into_inner();
    println!(rt;
        "fmt of a node, {mode}: {}, {allocations} allocations; is_pretty={is_pretty} depth={depth} text={:?}",
        outcome.message(),
        text.as_str()
    )
}
