//! Reads a line of standard input, as `Mix { channel: 3, level: -4 }`, and says what it sets, or where it stops to be such a line.
#![tactic(auto)]

use example_parse::{Mix, parse_command};
use std::io::{self, BufRead};
use ufmt::{Device, pieces, write_line};

fn main(rt: HostRuntime) -> io::Result<()> {
    let mut line = String::new(rt.alloc());
    let mut input = io::BufReader::new(rt.alloc(), rt.reader())?;
    let _length = input.read_line(&mut line)?;
    let text = line.trim_end().as_bytes();
    let mut output = Device::new(io::writer(&rt));
    match parse_command(text) {
        Ok(Mix { channel, level }) => {
            let line =
                pieces!(text "channel ", debug channel, text " is set to ", debug level, text "\n");
            write_line(&mut output, &line)
        }
        Err(error) => {
            let reason = error.in_text_of::<Mix, ()>((), text);
            write_line(
                &mut output,
                &pieces!(text "not a setting: ", display reason, text "\n"),
            )
        }
    }
}
