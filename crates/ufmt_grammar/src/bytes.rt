//! The classes of bytes in the grammar, in one table.
ghost use Rattle.std.specs.Prelude.{◌≡◌};
ghost use Rattle.ufmt_grammar.specs.Bytes.{bit_of, is_in};

/// A class of bytes. The table has a bit for each.
#[derive(Clone, Copy)]
pub enum ByteClass {
    /// In a word of a token document: ASCII letters, digits, `_` and `-`.
    TokenWord,
    /// In a word of a debug document.
    Word,
    /// In a word whatever follows: other than a colon and a backslash.
    Plain,
    /// The same in ASCII.
    PlainAscii,
    /// In a word whatever follows, or a colon.
    Run,
    /// In a name: in a word, or a colon.
    Name,
    /// In no leaf outside of quotes.
    Ending,
    /// Stays between quotes, whichever they are, and is not a backslash.
    Quoted,
    /// In ASCII, and without an escape between quotation marks.
    Unescaped,
    /// In a character in UTF-8 after its first byte.
    Continuation,
    /// In an escape after its first byte: letters, digits and braces.
    Escape,
    /// After a name: a space, a comma or a bracket.
    AfterName,
}

const TOKEN_WORD: u16 = 1 << ByteClass::TokenWord as u16;

const WORD: u16 = 1 << ByteClass::Word as u16;

const PLAIN: u16 = 1 << ByteClass::Plain as u16;

const PLAIN_ASCII: u16 = 1 << ByteClass::PlainAscii as u16;

const RUN: u16 = 1 << ByteClass::Run as u16;

const NAME: u16 = 1 << ByteClass::Name as u16;

const ENDING: u16 = 1 << ByteClass::Ending as u16;

const QUOTED: u16 = 1 << ByteClass::Quoted as u16;

const UNESCAPED: u16 = 1 << ByteClass::Unescaped as u16;

const CONTINUATION: u16 = 1 << ByteClass::Continuation as u16;

const ESCAPE: u16 = 1 << ByteClass::Escape as u16;

const AFTER_NAME: u16 = 1 << ByteClass::AfterName as u16;

// A control.
const __: u16 = ENDING;

// An opening parenthesis.
const PA: u16 = AFTER_NAME | QUOTED | UNESCAPED;

// A comma, a space or a square bracket, or a closing parenthesis.
const EN: u16 = PA | ENDING;

// A brace.
const BR: u16 = EN | ESCAPE;

// A quotation mark.
const QU: u16 = 0;

// An apostrophe.
const AP: u16 = UNESCAPED;

// A backslash.
const BS: u16 = WORD | NAME;

// A colon.
const CO: u16 = RUN | NAME | QUOTED | UNESCAPED;

// The first byte of a character past ASCII.
const FI: u16 = WORD | PLAIN | RUN | NAME | QUOTED;

// A later byte of such a character.
const LA: u16 = FI | CONTINUATION;

// Other punctuation.
const OT: u16 = FI | PLAIN_ASCII | UNESCAPED;

// A hyphen or an underscore.
const HY: u16 = OT | TOKEN_WORD;

// A letter or a digit.
const LE: u16 = HY | ESCAPE;

// The classes of each byte.
static CLASSES: [u16; 256] = [
    __, __, __, __, __, __, __, __, __, __, __, __, __, __, __, __, // 0x00
    __, __, __, __, __, __, __, __, __, __, __, __, __, __, __, __, // 0x10
    EN, OT, QU, OT, OT, OT, OT, AP, PA, EN, OT, OT, EN, HY, OT, OT, // 0x20
    LE, LE, LE, LE, LE, LE, LE, LE, LE, LE, CO, OT, OT, OT, OT, OT, // 0x30
    OT, LE, LE, LE, LE, LE, LE, LE, LE, LE, LE, LE, LE, LE, LE, LE, // 0x40
    LE, LE, LE, LE, LE, LE, LE, LE, LE, LE, LE, EN, BS, EN, OT, HY, // 0x50
    OT, LE, LE, LE, LE, LE, LE, LE, LE, LE, LE, LE, LE, LE, LE, LE, // 0x60
    LE, LE, LE, LE, LE, LE, LE, LE, LE, LE, LE, BR, OT, BR, OT, __, // 0x70
    LA, LA, LA, LA, LA, LA, LA, LA, LA, LA, LA, LA, LA, LA, LA, LA, // 0x80
    LA, LA, LA, LA, LA, LA, LA, LA, LA, LA, LA, LA, LA, LA, LA, LA, // 0x90
    LA, LA, LA, LA, LA, LA, LA, LA, LA, LA, LA, LA, LA, LA, LA, LA, // 0xa0
    LA, LA, LA, LA, LA, LA, LA, LA, LA, LA, LA, LA, LA, LA, LA, LA, // 0xb0
    FI, FI, FI, FI, FI, FI, FI, FI, FI, FI, FI, FI, FI, FI, FI, FI, // 0xc0
    FI, FI, FI, FI, FI, FI, FI, FI, FI, FI, FI, FI, FI, FI, FI, FI, // 0xd0
    FI, FI, FI, FI, FI, FI, FI, FI, FI, FI, FI, FI, FI, FI, FI, FI, // 0xe0
    FI, FI, FI, FI, FI, FI, FI, FI, FI, FI, FI, FI, FI, FI, FI, FI, // 0xf0
];

impl ByteClass {
    /// Returns whether the byte is of the class.
    #[inline(always)]
    pub fn contains(self, byte: u8) -> bool
        ensures { result ≡ is_in self byte }
    {
        CLASSES[byte as usize] & self.bit() != 0
    }

    // The class's bit in the table.
    #[inline(always)]
    fn bit(self) -> u16
        ensures { result ≡ bit_of self }
    {
        1 << self as u16
    }
}
