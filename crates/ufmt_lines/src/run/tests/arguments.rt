//! Tests of arguments, and of what is printed of them.
use super::*;

const PRETTY: Request = Request::Convert(Conversion {
    to: Mode::Pretty,
    longer_than: 40,
});

const PLAIN: Request = Request::Convert(Conversion {
    to: Mode::Plain,
    longer_than: 40,
});

fn longer_than(longer_than: usize) -> Request {
    Request::Convert(Conversion {
        to: Mode::Pretty,
        longer_than,
    })
}

fn words(alloc: Global, row: &[&str]) -> Result<Vec<String>, AllocError> {
    let mut words = Vec::new(alloc);
    for word in row {
        words.push(String::from_str(alloc, word)?)?;
    }
    Ok(words)
}

// Arguments, and the inputs that they name. The request is the one for these options.
const FILES: [(&[&str], &[&str]); 10] = [
    (&[], &["-"]),
    (&["a"], &["a"]),
    (&["a", "b", "a"], &["a", "b", "a"]),
    (&["-"], &["-"]),
    (&["a", "-", ""], &["a", "-", ""]),
    (&["--"], &["-"]),
    (&["--", "--plain", "--", "-x"], &["--plain", "--", "-x"]),
    (&["a", "--", "b"], &["a", "b"]),
    (
        &["plain", "help", "--", "--help"],
        &["plain", "help", "--help"],
    ),
    (&["a\nb", " --plain"], &["a\nb", " --plain"]),
];

// Options may be before, between and after files.
#[test]
fn files_are_inputs(rt: HostRuntime) -> Result<(), Fail> {
    for (row, names) in FILES {
        let words = words(rt.alloc(), row)?;
        same(&rt, asked(&words) == Ok(PRETTY), true, "files alone");
        let given = inputs(rt.alloc(), &words)?;
        same(&rt, given.as_slice() == names, true, "the names");
    }
    let rows: [(&[&str], Request); 7] = [
        (&["--plain", "a", "b"], PLAIN),
        (&["a", "--plain", "b", "--plain"], PLAIN),
        (&["a", "b", "--longer-than", "7"], longer_than(7)),
        (&["a", "--longer-than=7", "b"], longer_than(7)),
        (
            &["--longer-than", "8", "a", "b", "--longer-than=7"],
            longer_than(7),
        ),
        (&["--longer-than", "7", "a", "--", "b"], longer_than(7)),
        (
            &["a", "--longer-than", "8", "b", "--longer-than", "7"],
            longer_than(7),
        ),
    ];
    for (row, request) in rows {
        let words = words(rt.alloc(), row)?;
        same(&rt, asked(&words) == Ok(request), true, "options and files");
        let given = inputs(rt.alloc(), &words)?;
        same(
            &rt,
            given.as_slice() == ["a", "b"].as_slice(),
            true,
            "the names",
        );
    }
    Ok(())
}

#[test]
fn options_are_requests(rt: HostRuntime) -> Result<(), Fail> {
    let rows: [(&[&str], Request); 14] = [
        (&["--plain"], PLAIN),
        (&["--longer-than", "40"], PRETTY),
        (&["--longer-than", "0"], longer_than(0)),
        (&["--longer-than", "007"], longer_than(7)),
        (&["--longer-than=007"], longer_than(7)),
        (&["--longer-than=0"], longer_than(0)),
        (
            &["--longer-than", "18446744073709551615"],
            longer_than(usize::MAX),
        ),
        (&["--help"], Request::Help),
        (&["--version"], Request::Version),
        (&["-h"], Request::Help),
        (&["-V"], Request::Version),
        (&["--longer-than=1", "-h"], Request::Help),
        (&["a", "--plain", "--version", "--what"], Request::Version),
        (
            &["--plain", "--longer-than", "1", "--help", "--what"],
            Request::Help,
        ),
    ];
    for (row, request) in rows {
        let words = words(rt.alloc(), row)?;
        same(&rt, asked(&words) == Ok(request), true, "options");
    }
    Ok(())
}

const NOT_A_NUMBER: &str =
    "ufmt_lines: --longer-than needs a number below 2^64 in decimal digits, not: ";

const UNKNOWN: &str = "ufmt_lines: unknown option: ";

// Wrong arguments, and what is said of the first that is wrong.
const WRONG: [(&[&str], &str, &str); 23] = [
    (
        &["--longer-than"],
        "ufmt_lines: --longer-than needs a number",
        "",
    ),
    (
        &["a", "--longer-than"],
        "ufmt_lines: --longer-than needs a number",
        "",
    ),
    (&["--longer-than", ""], NOT_A_NUMBER, ""),
    (&["--longer-than", "--plain"], NOT_A_NUMBER, "--plain"),
    (&["--longer-than", "--", "7"], NOT_A_NUMBER, "--"),
    (&["--longer-than", "4 "], NOT_A_NUMBER, "4 "),
    (&["--longer-than=", "7"], NOT_A_NUMBER, "--longer-than="),
    (&["--longer-than==7"], NOT_A_NUMBER, "--longer-than==7"),
    (&["--longer-than=4 "], NOT_A_NUMBER, "--longer-than=4 "),
    (&["--longer-than", "-1"], NOT_A_NUMBER, "-1"),
    (&["--longer-than", "+1"], NOT_A_NUMBER, "+1"),
    (
        &["--longer-than", "18446744073709551616"],
        NOT_A_NUMBER,
        "18446744073709551616",
    ),
    (
        &["--longer-than", "99999999999999999999999"],
        NOT_A_NUMBER,
        "99999999999999999999999",
    ),
    (
        &["--longer-than", "40", "--plain"],
        "ufmt_lines: --longer-than doesn't go with --plain",
        "",
    ),
    (
        &["--plain", "a", "--longer-than", "40"],
        "ufmt_lines: --longer-than doesn't go with --plain",
        "",
    ),
    (&["--longer", "40"], UNKNOWN, "--longer"),
    (&["a", "--plain=1", "--help"], UNKNOWN, "--plain=1"),
    (&["-p"], UNKNOWN, "-p"),
    (&["-hV"], UNKNOWN, "-hV"),
    (&["-H"], UNKNOWN, "-H"),
    (&["--longer-than:7"], UNKNOWN, "--longer-than:7"),
    (
        &["--longer-than=40", "--plain"],
        "ufmt_lines: --longer-than doesn't go with --plain",
        "",
    ),
    (&["---", "--"], UNKNOWN, "---"),
];

#[test]
fn wrong_arguments_are_named(rt: HostRuntime) -> Result<(), Fail> {
    for (row, what, word) in WRONG {
        let words = words(rt.alloc(), row)?;
        same(
            &rt,
            asked(&words) == Err(Mistake { what, word }),
            true,
            what,
        );
    }
    Ok(())
}

const USAGE: &str =
    "usage: ufmt_lines [--longer-than N | --plain | --help | --version] [--] [FILE..]";

const HELP: &str = "\
usage: ufmt_lines [--longer-than N | --plain | --help | --version] [--] [FILE..]

Writes each line of the files, with its long debug texts made pretty. The files are
read as one, in their order. Without a file, standard input is read.

  --longer-than N  makes texts of more than N bytes pretty, not of more than 40
  --plain          writes pretty texts of several lines as plain ones
  -h, --help       prints this text
  -V, --version    prints the version
  --               ends the options: what follows are files
  -                is standard input
";

// A text that is printed is written whole, and flushed. A device that fails is not called again.
#[test]
fn texts_are_printed_whole(rt: HostRuntime) {
    same(&rt, usage(), USAGE, "usage");
    for (text, wanted) in [(help(), HELP), (version(), "ufmt_lines 0.4.0\n")] {
        for (most, fails_at, outcome, len) in [
            (WHOLE, NEVER, Ok(()), wanted.len()),
            (1, NEVER, Ok(()), wanted.len()),
            (5, 1, Err(IoFault::CannotWrite), 0),
            (5, 3, Err(IoFault::CannotWrite), 10),
        ] {
            let mut output = Watched::new(Sink::new(rt.alloc(), most, fails_at, false));
            same(&rt, print(text, &mut output), outcome, wanted);
            let taken = output.device().taken.as_slice();
            same(&rt, taken == &wanted.as_bytes()[..len], true, wanted);
        }
    }
}
