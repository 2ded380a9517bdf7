//! The commands of the program.
ghost use Rattle.std.specs.Prelude.{◌≡◌, ◌↔◌, [], ◌∷◌, map, string_bytes, Some};
ghost use Rattle.ufmt_conv.specs.Command.{name_of, usage_line};

/// What the program does with its input.
#[derive(Clone, Copy, PartialEq, Eq, Debug)]
pub enum Command {
    /// Prints the lengths of its lines.
    Lengths,
    /// Prints the pretty text of a plain text.
    Pretty,
    /// Prints the plain text of a pretty text.
    Plain,
}

impl Command {
    /// Returns the command for the arguments after the program's name: exactly one, which is its name.
    pub fn parse(words: &[String]) -> Option<Command>
        ensures { (command : Command) → (result ≡ Some command)
            ↔ (map string_bytes words.now ≡ name_of command ∷ []) }
    {
        match words {
            [word] => Command::named(word.as_str()),
            _ => None,
        }
    }

    // The command with this name.
    fn named(name: &str) -> Option<Command>
        ensures { (command : Command) → (result ≡ Some command) ↔ (name.now ≡ name_of command) }
    {
        match name {
            "lengths" => Some(Command::Lengths),
            "pretty" => Some(Command::Pretty),
            "plain" => Some(Command::Plain),
            _ => None,
        }
    }
}

/// Returns the line for arguments that are no command, without its line feed.
pub fn usage() -> &'static str
    ensures { result.now ≡ usage_line }
{
    "usage: ufmt_conv lengths|pretty|plain"
}
