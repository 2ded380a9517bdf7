//! A message with a text in it, printed to a buffer of a fixed size.
ghost use Rattle.std.specs.Prelude.{[], ◌∷◌};
ghost use Rattle.ufmt.specs.Buffer.{Fronts};
ghost use Rattle.ufmt.specs.Layout.{plain_text};
ghost use Rattle.ufmt.specs.ValueDocuments.{character, named_struct, number, str};

use ufmt::{Formatter, Full, debug_into, fields, uDebug, uWrite};

/// What a node of a network reports, and how urgent it is.
#[derive(Drop)]
pub struct Message<'a> {
    pub node: u16,
    pub level: char,
    pub text: &'a str,
}

impl uDebug for Message<'_> {
    ghost document = { λ m. named_struct "Message"
        (("node", number m.node) ∷ ("level", character m.level) ∷ ("text", str m.text) ∷ []) };

    fn fmt<W: uWrite>(&self, f: &mut Formatter<W>) -> Result<(), W::Error> {
        fields!(f, self, Message { node, level, text })
    }
}

/// Prints the message to the front of the buffer, and returns its length. If it doesn't fit, the error
/// is `Full`, and the buffer begins with a prefix of it.
pub fn print<'a>(buffer: &mut [u8], message: &Message<'a>) -> Result<usize, Full>
    ensures { Fronts buffer.old (plain_text (⟦<Message<'a> as uDebug>⟧.document message.now)) result
        buffer.new }
{
    debug_into(buffer, message)
}
