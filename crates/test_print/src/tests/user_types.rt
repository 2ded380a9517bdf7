//! Tests of a user's own types. `blocks` has pieces of pairs, tuples and structs that end in dots.
//! `tools/expected/show '{ #[derive(Debug)] struct A { x: i32 } A { x: 1 } }'` prints such texts by core::fmt.
use super::asserts::has_wanted_rows;
use example_print::{
    Braces, I32, InPrettyMode, Json, Letter, Link, LinkEvent, Measurement, Message, Nested, Node,
    Pair, Parens, Port, Ports, Sample, Scores, Temperature, Tree, Tuple, Users, Window, X, Y, log,
    print,
};
use std::alloc::{AllocError, Global};
use std::borrow::CowStr;
use std::collections::{BTreeMap, VecDeque};
use std::rc::Rc;
use test_rows::by_fields::S;
use test_rows::rows::{Table, map};
use test_rows::{by_builders, forwarded, put_filled, put_rows};

fn node(alloc: Global) -> Result<Node, AllocError> {
    let (value, next) = (0, None);
    let last = Node { value, next };
    let (value, next) = (1, Some(Box::new(alloc, last)?));
    Ok(Node { value, next })
}

fn node_by_builders(alloc: Global) -> Result<by_builders::Node, AllocError> {
    let (value, next) = (0, None);
    let last = by_builders::Node { value, next };
    let (value, next) = (1, Some(Box::new(alloc, last)?));
    Ok(by_builders::Node { value, next })
}

fn settings(alloc: Global) -> Result<S<BTreeMap<u64, u64>, u64>, AllocError> {
    let m = map(alloc, &[(1u64, 2u64)])?;
    Ok(S { m, n: 3 })
}

fn settings_by_builders(
    alloc: Global,
) -> Result<by_builders::S<BTreeMap<i32, i32>, i32>, AllocError> {
    let m = map(alloc, &[(1i32, 2i32)])?;
    Ok(by_builders::S { m, n: 3 })
}

fn tree(alloc: Global) -> Result<Tree, AllocError> {
    let (size, children) = (2, Vec::new(alloc));
    let leaf = Tree { size, children };
    let mut children = Vec::new(alloc);
    children.push(leaf)?;
    Ok(Tree { size: 1, children })
}

fn ports(alloc: Global) -> Result<Vec<Port<u8>>, AllocError> {
    let mut ports = Vec::new(alloc);
    for (number, user) in [(80, 7u8), (443, 9)] {
        ports.push(Port { number, user })?;
    }
    Ok(ports)
}

#[test]
fn log_and_print_write_into_a_buffer(rt: HostRuntime) {
    let mut table = Table::new(rt.alloc());
    let measurement = Measurement {
        channel: 3,
        celsius: -4,
    };
    put_filled!(table; buffer[64] log(buffer, &measurement, 0xbeef);
        64 => "Ok(59) Measurement { channel: 3, celsius: -4 } control 0x0000beef\n~~~~~";
        59 => "Ok(59) Measurement { channel: 3, celsius: -4 } control 0x0000beef\n~~~~~";
        58 => "Err(Full) Measurement { channel: 3, celsius: -4 } control 0x0000beef~~~~~~";
        20 => "Err(Full) Measurement { ~~~~~~~~~~~~~~~~~~~~~~~~~~~~~~~~~~~~~~~~~~~~~~~~~~";
    );
    let message = Message {
        node: 2,
        level: '!',
        text: "valve is \"open\"",
    };
    put_filled!(table; buffer[64] print(buffer, &message);
        64 => "Ok(58) Message { node: 2, level: '!', text: \"valve is \\\"open\\\"\" }~~~~~~";
        58 => "Ok(58) Message { node: 2, level: '!', text: \"valve is \\\"open\\\"\" }~~~~~~";
        57 => "Err(Full) Message { node: 2, level: '!', text: \"valve is \\\"open\\\"\" ~~~~~~~";
        18 => "Err(Full) Message { node: 2~~~~~~~~~~~~~~~~~~~~~~~~~~~~~~~~~~~~~~~~~~~~~~~";
    );
    has_wanted_rows(&rt, &table);
}

// A list of a number, and a table.
fn pairs(alloc: Global) -> Result<Json, AllocError> {
    let mut list = Vec::new(alloc);
    list.push(Json::Number(-1))?;
    let mut table = BTreeMap::new(alloc);
    table.insert(7u8, Json::Null)?;
    let mut pairs = Vec::new(alloc);
    pairs.push((String::from_str(alloc, "a")?, Json::Array(list)))?;
    pairs.push((String::from_str(alloc, "b")?, Json::Table(table)))?;
    Ok(Json::Object(pairs))
}

// Each value is printed by `fields!` and by builders, to which a `Node` goes back by `begin_field` and
// `end_field`. A derive of Rust's `Debug` prints the same.
#[test]
fn fields_and_builders_print_as_by_core_fmt(rt: HostRuntime) {
    let mut table = Table::new(rt.alloc());
    put_rows!(table;
        same_texts(&Braces {}, &by_builders::Braces {}) => "Braces";
        same_texts(&Parens(), &by_builders::Parens()) => "Parens";
        same_texts(&I32(0i32), &by_builders::I32(0u64)) => "I32(0)~\nI32(\n    0,\n)";
        same_texts(&Tuple(0i32, 0u64), &by_builders::Tuple(0u64, 0i32)) => "Tuple(0, 0)~\nTuple(\n    0,\n    0,\n)";
        same_texts(&Pair { x: 0i32, y: 0u64 }, &by_builders::Pair { x: 0u64, y: 0i32 }) => "Pair { x: 0, y: 0 }~\nPair {\n    x: 0,\n    y: 0,\n}";
        same_texts(
            &Nested { first: Pair { x: 0u64, y: 0u64 }, second: Pair { x: 0u64, y: 0u64 } },
            &by_builders::Nested { first: by_builders::Pair { x: 0i32, y: 0i32 }, second: by_builders::Pair { x: 0i32, y: 0i32 } }
        ) => "\
Nested { first: Pair { x: 0, y: 0 }, second: Pair { x: 0, y: 0 } }~
Nested {
    first: Pair {
        x: 0,
        y: 0,
    },
    second: Pair {
        x: 0,
        y: 0,
    },
}";
        same_texts(&Letter::A::<u64>, &by_builders::Letter::A::<i32>) => "A";
        same_texts(&Letter::B(0i32, 1), &by_builders::Letter::B(0u64, 1)) => "B(0, 1)~\nB(\n    0,\n    1,\n)";
        same_texts(&Letter::C { x: 0u64, y: 1 }, &by_builders::Letter::C { x: 0i32, y: 1 }) => "C { x: 0, y: 1 }~\nC {\n    x: 0,\n    y: 1,\n}";
        same_texts(&X(0i32), &by_builders::X(0u64)) => "X(0)~\nX(\n    0,\n)";
        same_texts(&Y::Z(0i32), &by_builders::Y::Z(0u64)) => "Z(0)~\nZ(\n    0,\n)";
        same_texts(&Y::W::<u64>, &by_builders::Y::W::<i32>) => "W";
        same_texts_of_made(node(rt.alloc()), node_by_builders(rt.alloc())) => "\
Node { value: 1, next: Some(Node { value: 0, next: None }) }~
Node {
    value: 1,
    next: Some(
        Node {
            value: 0,
            next: None,
        },
    ),
}";
        same_texts_of_made(settings(rt.alloc()), settings_by_builders(rt.alloc()))
            => "S { m: {1: 2}, n: 3 }~\nS {\n    m: {\n        1: 2,\n    },\n    n: 3,\n}";
        same_texts(&[InPrettyMode(Some(1u64))], &[by_builders::InPrettyMode(Some(1i32))])
            => "[Some(\n    1,\n)]~\n[\n    Some(\n        1,\n    ),\n]";
    );
    has_wanted_rows(&rt, &table);
}

// A derive of Rust's `Debug` prints the same, and of ports and scores `debug_map` and `debug_list` of core::fmt.
#[test]
fn types_of_users_print_as_by_core_fmt(rt: HostRuntime) {
    let mut table = Table::new(rt.alloc());
    put_rows!(table;
        plain(&[
            LinkEvent::DisconnectedByOtherSide, LinkEvent::ReceivedAcknowledgement(7, Some(2)),
            LinkEvent::ReconfiguredAfterPowerLoss { temperature_in_celsius: -4, time_without_connection: 60 }
        ]) => "[DisconnectedByOtherSide, ReceivedAcknowledgement(7, Some(2)), ReconfiguredAfterPowerLoss { temperature_in_celsius: -4, time_without_connection: 60 }]";
        texts(&forwarded::Y) => "X";
        texts(&Sample { channel: 3, celsius: -4.5 }) => "Sample { channel: 3, celsius: -4.5 }~\nSample {\n    channel: 3,\n    celsius: -4.5,\n}";
        texts(&Temperature { celsius: 21 }) => "21 °C";
        texts(&[Temperature { celsius: -4 }]) => "[-4 °C]~\n[\n    -4 °C,\n]";
        plain_of_made(tree(rt.alloc())) => "Tree { size: 1, children: [Tree { size: 2, children: [] }] }";
        texts_of_made(Vec::from_slice(rt.alloc(), &[Some(1u64), None]).map(|scores| Scores { scores }))
            => "[Some(1), None]~\n[\n    Some(\n        1,\n    ),\n    None,\n]";
        texts_of_made(ports(rt.alloc()).map(|ports| Ports { ports })) => "{80: 7, 443: 9}~\n{\n    80: 7,\n    443: 9,\n}";
        texts_of_made(ports(rt.alloc()).map(|ports| Users { ports })) => "[7, 9]~\n[\n    7,\n    9,\n]";
        plain_of_made(window(rt.alloc())) => "Window { name: \"main\", lines: 3..9, recent: [7, 8] }";
        plain_of_made(chains_with_one_end(rt.alloc()))
            => "[Link { id: 1, rest: Some(Link { id: 3, rest: None }) }, Link { id: 2, rest: Some(Link { id: 3, rest: None }) }]";
        pieces(&LinkEvent::DisconnectedByOtherSide) => "DisconnectedByOtherSide|";
        plain_of_made(pairs(rt.alloc())) => "Object([(\"a\", Array([Number(-1)])), (\"b\", Table({7: Null}))])";
    );
    has_wanted_rows(&rt, &table);
}

fn window(alloc: Global) -> Result<Window<'static>, AllocError> {
    let mut recent = VecDeque::new(alloc);
    recent.push_back(7)?;
    recent.push_back(8)?;
    Ok(Window {
        name: CowStr::Borrowed("main"),
        lines: 3..9,
        recent,
    })
}

fn chains_with_one_end(alloc: Global) -> Result<[Link; 2], AllocError> {
    let end = Rc::new(alloc, Link { id: 3, rest: None })?;
    let (rest, again) = (Some(end.clone()?), Some(end));
    Ok([Link { id: 1, rest }, Link { id: 2, rest: again }])
}
