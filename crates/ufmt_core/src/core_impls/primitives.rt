//! `uDebug` of `bool`, `char`, `&str` and `()`.
ghost use Rattle.std.specs.Prelude.{codes, if◌then◌else◌};
ghost use Rattle.std.specs.Str.{chars};
ghost use Rattle.ufmt_core.specs.Document.{leaf};
ghost use Rattle.ufmt_core.specs.Quoted.{quoted_char, quoted_text};

use crate::formatter::Formatter;
use crate::quoted::{write_quoted_char, write_quoted_text};
use crate::uDebug;
use crate::write::uWrite;

impl uDebug for bool {
    ghost document = { λ b. leaf (if b then codes "true" else codes "false") };

    fn fmt<W: uWrite>(&self, f: &mut Formatter<W>) -> Result<(), W::Error> {
        f.write_str(if *self { "true" } else { "false" })
    }
}

/// Prints the character or its escape in apostrophes. Takes no memory.
impl uDebug for char {
    ghost document = { λ c. leaf (quoted_char c) };

    fn fmt<W: uWrite>(&self, f: &mut Formatter<W>) -> Result<(), W::Error> {
        write_quoted_char(f, *self)
    }
}

/// Prints the text in quotation marks, with escapes. Takes no memory.
impl uDebug for &str {
    ghost document = { λ s. leaf (quoted_text (chars s.now)) };

    fn fmt<W: uWrite>(&self, f: &mut Formatter<W>) -> Result<(), W::Error> {
        write_quoted_text(f, self)
    }
}

impl uDebug for () {
    ghost document = { λ _. leaf (codes "()") };

    fn fmt<W: uWrite>(&self, f: &mut Formatter<W>) -> Result<(), W::Error> {
        f.write_str("()")
    }
}
