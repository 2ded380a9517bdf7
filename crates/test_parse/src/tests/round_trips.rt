//! Tests of values that are printed and parsed again.
use super::same;
use example_parse::{Mix, Sample};
use std::collections::BTreeMap;
use ufmt_parse::{ParseError, parse, round_trip, round_trip_in};

const SET: Mix = Mix {
    channel: 255,
    level: -32768,
};

#[test]
fn a_value_comes_back_from_memory(rt: HostRuntime) {
    let alloc = rt.alloc();
    same(&rt, round_trip(alloc, &SET), Ok(SET), "a struct");
    same(&rt, round_trip(alloc, &'\''), Ok('\''), "a character");
    let (channel, celsius) = (3, -4.5);
    let sample = Sample { channel, celsius };
    same(&rt, round_trip(alloc, &sample), Ok(sample), "a float");
    let pair = (1u8, Some(false));
    same(&rt, round_trip(alloc, &pair), Ok(pair), "a tuple");
    let text: Result<String, ParseError> = parse(alloc, "\"a\\n\\\"b\\\\µ\"".as_bytes());
    let again = text.ok().and_then(|text| round_trip(alloc, &text).ok());
    same(&rt, again.as_deref(), Some("a\n\"b\\µ"), "a text");
    let map: Result<BTreeMap<u8, bool>, ParseError> = parse(alloc, b"{1: true, 2: false}");
    let again = map.ok().and_then(|map| round_trip(alloc, &map).ok());
    same(&rt, again.as_ref().map(BTreeMap::len), Some(2), "a map");
}

#[test]
fn a_value_comes_back_from_a_buffer_without_an_allocator(rt: HostRuntime) {
    let mut buffer = [b'.'; 40];
    let found = round_trip_in((), &mut buffer, &SET);
    same(&rt, found, Ok(Some(SET)), "a struct");
    let text = b"Mix { channel: 255, level: -32768 }.....";
    same(&rt, &buffer, text, "the buffer");
    let mut whole = [0; 35];
    let found = round_trip_in((), &mut whole, &SET);
    same(&rt, found, Ok(Some(SET)), "a buffer of the length");
    let mut short = [0; 34];
    let found = round_trip_in((), &mut short, &SET);
    same(&rt, found, Ok(None), "a buffer that is too short");
    let text = b"Mix { channel: 255, level: -32768 ";
    same(&rt, &short, text, "its prefix");
}
