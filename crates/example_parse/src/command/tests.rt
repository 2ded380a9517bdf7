//! Tests of `parse_command`.
use super::*;
use std::str::from_utf8;
use ufmt::debug_into;

#[test]
fn a_command_is_printed_to_a_buffer_and_parsed_back(rt: HostRuntime) {
    let mix = Mix {
        channel: 3,
        level: -4,
    };
    let mut buffer = [0; 32];
    if let Ok(length) = debug_into(&mut buffer, &mix) {
        let text = &buffer[..length];
        assert_eq!(rt; from_utf8(text), Ok("Mix { channel: 3, level: -4 }"));
        assert_eq!(rt; parse_command(text), Ok(mix));
    } else {
        assert!(rt; false);
    }
}
