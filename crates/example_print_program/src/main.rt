//! Prints a value to standard output: in a line, and on several.
#![tactic(auto)]

ghost use Rattle.std.specs.Prelude.{[], ◌∷◌};
ghost use Rattle.ufmt.specs.ValueDocuments.{integer, named_struct};

use std::io::{self, Write};
use ufmt::{Device, Formatter, fields, pieces, uDebug, uWrite, write_line};

#[derive(Drop)]
struct Point {
    x: i32,
    y: i32,
}

impl uDebug for Point {
    ghost document = { λ p. named_struct "Point" (("x", integer p.x) ∷ ("y", integer p.y) ∷ []) };

    fn fmt<W: uWrite>(&self, f: &mut Formatter<W>) -> Result<(), W::Error> {
        fields!(f, self, Point { x, y })
    }
}

fn main(rt: HostRuntime) -> io::Result<()> {
    let point = Point { x: 3, y: -4 };
    // One write of standard output for many pieces.
    let output = io::BufWriter::new(rt.alloc(), io::writer(&rt))?;
    let mut output = Device::new(output);
    write_line(&mut output, &pieces!(text "at ", debug point, text "\n"))?;
    write_line(&mut output, &pieces!(pretty point, text "\n"))?;
    output.into_inner().flush()
}
