//! The calls on the texts of one class and one mode.
use crate::read::loose::Loosener;
use std::alloc::{AllocError, Global};
use std::convert::Infallible;
use ufmt::class::Class;
use ufmt::layout::Mode;
use ufmt::{Full, uDebug, uWrite};
use ufmt_doc::convert::{convert, convert_into, other_mode, to_plain, to_pretty, write_converted};
use ufmt_doc::doc::{DebugName, StructName, Tree};
use ufmt_doc::plain_reader::{ReadError, read_plain};
use ufmt_doc::pretty_reader::read_pretty;
use ufmt_doc::scan::{ScanError, Sink, scan};
use ufmt_doc::{is_text, laws, read_debug, valid_up_to};

/// The name of a struct in the documents of one class.
pub trait Name: StructName {
    /// Reads a text of this class.
    fn read(alloc: Global, mode: Mode, text: &[u8]) -> Result<Tree<Self>, ReadError>;
}

/// Of token documents.
impl Name for String {
    fn read(alloc: Global, mode: Mode, text: &[u8]) -> Result<Tree<String>, ReadError> {
        match mode {
            Mode::Plain => read_plain(alloc, text),
            Mode::Pretty => read_pretty(alloc, text),
        }
    }
}

/// Of debug documents.
impl Name for DebugName {
    fn read(alloc: Global, mode: Mode, text: &[u8]) -> Result<Tree<DebugName>, ReadError> {
        read_debug(alloc, mode, text)
    }
}

/// A text, and the class and the mode in which it is read.
#[derive(Clone, Copy)]
pub struct Calls<'a> {
    pub alloc: Global,
    pub class: Class,
    pub mode: Mode,
    pub text: &'a [u8],
}

impl<'a> Calls<'a> {
    /// Returns the calls on the text as one of a token document.
    pub fn on_token_text(alloc: Global, mode: Mode, text: &'a [u8]) -> Calls<'a> {
        Calls {
            alloc,
            class: Class::Token,
            mode,
            text,
        }
    }

    /// Returns the calls on the text as one of a debug document.
    pub fn on_debug_text(&self) -> Calls<'a> {
        Calls {
            alloc: self.alloc,
            class: Class::Debug,
            mode: self.mode,
            text: self.text,
        }
    }
}

impl Calls<'_> {
    /// Returns the calls of the other mode on a converted text.
    pub fn on_converted<'b>(&self, text: &'b str) -> Calls<'b> {
        Calls {
            alloc: self.alloc,
            class: self.class,
            mode: other_mode(self.mode),
            text: text.as_bytes(),
        }
    }

    pub fn is_text(&self) -> bool {
        is_text(self.class, self.mode, self.text)
    }

    pub fn valid_up_to(&self) -> usize {
        valid_up_to(self.class, self.mode, self.text)
    }

    pub fn scan<S: Sink>(&self, sink: &mut S) -> Result<(), ScanError<S::Error>> {
        scan(self.class, self.mode, self.text, sink)
    }

    /// Reads the text. The name is that of the class.
    pub fn read<N: Name>(&self) -> Result<Tree<N>, ReadError> {
        N::read(self.alloc, self.mode, self.text)
    }

    /// Reads the text, and puts the document in another form that has the same texts.
    pub fn read_loose<N: Name>(&self) -> Result<Tree<N>, ReadError> {
        let mut doc = self.read::<N>()?;
        let mut loosener = Loosener {
            alloc: self.alloc,
            is_struct_next: true,
        };
        loosener.loosen(&mut doc);
        Ok(doc)
    }

    /// Converts the text to the other mode.
    pub fn convert(&self) -> Result<String, ReadError> {
        convert(self.alloc, self.class, other_mode(self.mode), self.text)
    }

    /// Does the same with a token text, by the call for its mode.
    pub fn convert_token(&self) -> Result<String, ReadError> {
        match self.mode {
            Mode::Plain => to_pretty(self.alloc, self.text),
            Mode::Pretty => to_plain(self.alloc, self.text),
        }
    }

    pub fn convert_to<W: uWrite>(&self, writer: &mut W) -> Result<(), ScanError<W::Error>> {
        write_converted(writer, self.class, other_mode(self.mode), self.text)
    }

    pub fn convert_into(&self, buffer: &mut [u8]) -> Result<usize, ScanError<Full>> {
        convert_into(buffer, self.class, other_mode(self.mode), self.text)
    }

    /// Reads the text, and prints it again.
    pub fn again(&self) -> Result<String, ReadError> {
        let (_, again) = laws::text_again(self.alloc, self.class, self.mode, self.text)?;
        Ok(again)
    }

    /// Converts the text to the other mode and back.
    pub fn by_way_of_the_other(&self) -> Result<String, ReadError> {
        let (_, again) = laws::text_by_way_of_the_other(
            self.alloc, self.class, self.mode, self.text,
        )?;
        Ok(again)
    }

    /// Returns a value's text in this mode.
    pub fn print<T: uDebug>(&self, value: &T) -> Result<String, AllocError> {
        match self.mode {
            Mode::Plain => ufmt::plain_text(self.alloc, value),
            Mode::Pretty => ufmt::pretty_text(self.alloc, value),
        }
    }

    /// Prints a value to a writer of pieces, which never fails.
    pub fn print_to<T: uDebug, W: uWrite<Error = Infallible>>(&self, writer: &mut W, value: &T) {
        let _ = match self.mode {
            Mode::Plain => ufmt::write_debug(writer, value),
            Mode::Pretty => ufmt::write_pretty(writer, value),
        };
    }

    pub fn print_into<T: uDebug>(&self, buffer: &mut [u8], doc: &T) -> Result<usize, Full> {
        match self.mode {
            Mode::Plain => ufmt::debug_into(buffer, doc),
            Mode::Pretty => ufmt::pretty_into(buffer, doc),
        }
    }
}
