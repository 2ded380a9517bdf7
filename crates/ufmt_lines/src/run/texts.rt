//! What the program says of itself.
ghost use Rattle.std.specs.Prelude.{◌≡◌};
ghost use Rattle.ufmt_lines.specs.Texts.{help_text, usage_line, version_text};

/// Returns the line that follows the line of a wrong argument, without its line feed.
pub fn usage() -> &'static str
    ensures { result.now ≡ usage_line }
{
    "usage: ufmt_lines [--longer-than N | --plain | --help | --version] [--] [FILE..]"
}

/// Returns what `--help` prints: the usage line, and lines on what each argument does.
pub fn help() -> &'static str
    ensures { result.now ≡ help_text }
{
    "usage: ufmt_lines [--longer-than N | --plain | --help | --version] [--] [FILE..]\n\
     \n\
     Writes each line of the files, with its long debug texts made pretty. The files are\n\
     read as one, in their order. Without a file, standard input is read.\n\
     \n\
     \x20 --longer-than N  makes texts of more than N bytes pretty, not of more than 40\n\
     \x20 --plain          writes pretty texts of several lines as plain ones\n\
     \x20 -h, --help       prints this text\n\
     \x20 -V, --version    prints the version\n\
     \x20 --               ends the options: what follows are files\n\
     \x20 -                is standard input\n"
}

/// Returns what `--version` prints.
pub fn version() -> &'static str
    ensures { result.now ≡ version_text }
{
    "ufmt_lines 0.4.0\n"
}
