//! How documents are laid out: the two modes, and the text around the entries of each kind of block.
//! An entry is its lead, its text and its trail. Formatters and the scanner take these texts from here.
ghost use Rattle.std.specs.Prelude.{◌≡◌, ◌++◌, ℕ};
ghost use Rattle.ufmt_core.specs.Layout.{frame, gap, indentation, inner_space, inside, lead, line_start, setting, new_line, next, later_lead, trail, tuple_kind, Mode, Pretty, Several};

/// Opens a list.
pub const OPENING_BRACKET: &str = "[";

/// Opens a set or a map.
pub const OPENING_BRACE: &str = "{";

/// Comes after the name of a struct that shows none of its fields.
pub const ONLY_DOTS: &str = " { .. }";

/// Comes between a key or a field's name and its value.
pub const COLON: &str = ": ";

/// Indents a line, once for each depth.
pub const INDENT: &str = "    ";

/// How blocks are laid out: all on one line, or one entry a line.
#[derive(Clone, Copy, PartialEq, Eq)]
pub enum Mode {
    Plain,
    Pretty,
}

/// The kinds of blocks, by the brackets around their entries.
#[derive(Clone, Copy)]
pub enum Kind {
    /// A list.
    Brackets,
    /// A set or a map.
    Braces,
    Struct,
    Tuple,
    /// A tuple whose name is empty.
    Unnamed,
}

/// How many entries a block has.
#[derive(Clone, Copy)]
pub enum Count {
    Zero,
    One,
    Several,
}

/// The mode and depth that a document is laid out in.
#[derive(Clone, Copy, PartialEq, Eq)]
pub struct Setting {
    pub mode: Mode,
    pub depth: u8,
}

impl Count {
    /// The count with one entry more.
    #[inline(always)]
    pub fn next(self) -> Count
        ensures { result ≡ next self }
    {
        match self {
            Count::Zero => Count::One,
            Count::One | Count::Several => Count::Several,
        }
    }
}

impl Kind {
    /// The kind of a tuple with this name.
    #[inline(always)]
    pub fn tuple(name: &str) -> Kind
        ensures { result ≡ tuple_kind name.now }
    {
        if name.is_empty() {
            Kind::Unnamed
        } else {
            Kind::Tuple
        }
    }

    /// The bracket before the entries. A struct has a space before its bracket.
    #[inline(always)]
    pub fn opening_bracket(self) -> &'static str
        ensures { result.now ≡ (frame Pretty self).opening ++ (frame Pretty self).start }
    {
        match self {
            Kind::Brackets => OPENING_BRACKET,
            Kind::Braces => OPENING_BRACE,
            Kind::Struct => " {",
            Kind::Tuple | Kind::Unnamed => "(",
        }
    }

    /// The bracket after the entries.
    #[inline(always)]
    pub fn closing_bracket(self) -> &'static str
        ensures { result.now ≡ (frame Pretty self).closing Several }
    {
        match self {
            Kind::Brackets => "]",
            Kind::Braces | Kind::Struct => "}",
            Kind::Tuple | Kind::Unnamed => ")",
        }
    }

    /// The space between a bracket and the entries, which only a plain struct has.
    #[inline(always)]
    fn inner_space(self, mode: Mode) -> &'static str
        ensures { result.now ≡ inner_space mode self }
    {
        match (self, mode) {
            (Kind::Struct, Mode::Plain) => " ",
            _ => "",
        }
    }

    /// The text after a block's name, with entries or without. The bracket of a struct or a tuple comes
    /// with its first entry.
    #[inline(always)]
    pub fn opening(self) -> &'static str
        ensures { (mode : Mode) → result.now ≡ (frame mode self).opening }
    {
        match self {
            Kind::Brackets | Kind::Braces => self.opening_bracket(),
            Kind::Struct | Kind::Tuple | Kind::Unnamed => "",
        }
    }

    /// The bracket in the lead of the first entry. It is empty where `opening` has the bracket.
    #[inline(always)]
    fn lead_bracket(self) -> &'static str
        ensures { result.now ≡ (frame Pretty self).start }
    {
        match self {
            Kind::Brackets | Kind::Braces => "",
            Kind::Struct | Kind::Tuple | Kind::Unnamed => self.opening_bracket(),
        }
    }

    /// The text before the first entry: a bracket, and the space after a struct's brace. Either may be
    /// empty.
    #[inline(always)]
    pub fn start(self, mode: Mode) -> (&'static str, &'static str)
        ensures { result.0.now ++ result.1.now ≡ (frame mode self).start }
    {
        // One match of both, so that the scanner knows how long each text is. With `self.lead_bracket()` and
        // `self.inner_space(mode)` each start of a struct costs it 60 steps more.
        match (self, mode) {
            (Kind::Brackets | Kind::Braces, _) => ("", ""),
            (Kind::Struct, Mode::Plain) => (Kind::Struct.opening_bracket(), " "),
            (Kind::Struct, Mode::Pretty) => (Kind::Struct.opening_bracket(), ""),
            (Kind::Tuple | Kind::Unnamed, _) => (Kind::Tuple.opening_bracket(), ""),
        }
    }

    /// The text before an entry that follows `count` others, up to the gap: of the first a bracket, which may be
    /// empty, and later a comma and a space.
    #[inline(always)]
    pub(crate) fn lead(self, mode: Mode, count: Count) -> &'static str
        ensures { (k : ℕ) → result.now ++ (gap mode self count ++ line_start mode k)
            ≡ lead (frame mode self) (setting mode k) count }
    {
        match count {
            Count::Zero => self.lead_bracket(),
            Count::One | Count::Several => mode.later_lead(),
        }
    }

    /// The text between the bracket and the line of the first entry: a line feed, or the space in a plain struct.
    /// It may be empty.
    #[inline(always)]
    pub(crate) fn gap(self, mode: Mode, count: Count) -> &'static str
        ensures { result.now ≡ gap mode self count }
    {
        match (count, mode) {
            (Count::One | Count::Several, _) => "",
            (Count::Zero, Mode::Pretty) => "\n",
            (Count::Zero, Mode::Plain) => self.inner_space(mode),
        }
    }

    /// The text that ends a block with `count` entries, on its last line: a space or a comma, and a
    /// bracket. Either may be empty.
    #[inline(always)]
    pub fn closing(self, mode: Mode, count: Count) -> (&'static str, &'static str)
        ensures { result.0.now ++ result.1.now ≡ (frame mode self).closing count }
    {
        match (self, mode, count) {
            (Kind::Struct | Kind::Tuple | Kind::Unnamed, _, Count::Zero) => ("", ""),
            (Kind::Unnamed, Mode::Plain, Count::One) => (",", self.closing_bracket()),
            _ => (self.inner_space(mode), self.closing_bracket()),
        }
    }
}

impl Mode {
    /// The text between the start of a block and the line of its first entry.
    #[inline(always)]
    pub fn line_feed(self) -> &'static str
        ensures { (k : ℕ) → result.now ++ line_start self k ≡ new_line self k }
    {
        match self {
            Mode::Plain => "",
            Mode::Pretty => "\n",
        }
    }

    /// The text before an entry that is not the first, without the indentation.
    #[inline(always)]
    pub fn later_lead(self) -> &'static str
        ensures { (k : ℕ) → result.now ++ line_start self k ≡ later_lead self k }
    {
        match self {
            Mode::Plain => ", ",
            Mode::Pretty => "",
        }
    }

    /// The text after an entry.
    #[inline(always)]
    pub fn trail(self) -> &'static str
        ensures { result.now ≡ trail self }
    {
        match self {
            Mode::Plain => "",
            Mode::Pretty => ",\n",
        }
    }
}

impl Setting {
    /// The mode and depth of the entries of a block. The depth saturates.
    #[inline(always)]
    pub fn inside(self) -> Setting
        ensures { result ≡ inside self }
    {
        match self.mode {
            Mode::Plain => self,
            Mode::Pretty => Setting {
                mode: Mode::Pretty,
                depth: self.depth.saturating_add(1),
            },
        }
    }

    /// How many times a line is indented.
    #[inline(always)]
    pub fn indents(self) -> u8
        ensures { indentation result ≡ line_start self.mode self.depth }
    {
        match self.mode {
            Mode::Plain => 0,
            Mode::Pretty => self.depth,
        }
    }
}
