//! Laws, each as the contract of a function.
ghost use Rattle.ufmt_lines.specs.LongValues.{LongValuesBecomePretty};
ghost use Rattle.ufmt_lines.specs.OutputLaws.{GroupsAreTheText, LinesAreMadePretty, OutputsAreTheOutput, PlainLogsComeBack, PlainTextsComeBack, PrettyRestIsInLine};

/// The groups of a text, put together, are the text.
pub fn groups_are_the_text()
    ensures { GroupsAreTheText }
{}

/// Where texts are made pretty, each line is a group by itself. A rest in which no line ends has no
/// line feed.
pub fn lines_are_made_pretty()
    ensures lines { LinesAreMadePretty }
    ensures rest { PrettyRestIsInLine }
{}

/// The outputs for the groups of a text, put together, are the output for the text.
pub fn outputs_are_the_output()
    ensures { OutputsAreTheOutput }
{}

// Promise (programs): A log that `--plain` leaves unchanged comes back from its pretty form. Each group
// becomes what it becomes in the whole log. Also: `laws::outputs_are_the_output`.
/// A log that `--plain` leaves as it is comes back, byte for byte, after it is made pretty and then
/// plain. So does a text that is converted as a whole.
pub fn plain_logs_come_back()
    ensures log { PlainLogsComeBack }
    ensures text { PlainTextsComeBack }
{}

// Promise (programs): A value whose text is longer than the limit becomes pretty, whatever follows, if there
// is no opening bracket and no quotation mark before it. It stays if it has only one leaf, or is a map that
// would read as a struct. If bytes of a name stand right before it, they must be UTF-8, and the value must not be a tuple
// without a name.
/// The plain text of a value that is longer than the limit becomes its pretty text, unless it has one leaf
/// only, or is a map that would read as a struct. Before it may be any bytes without an opening bracket and
/// a quotation mark, and a name only if it has none or goes on with it.
pub fn long_values_become_pretty()
    ensures { LongValuesBecomePretty }
{}
