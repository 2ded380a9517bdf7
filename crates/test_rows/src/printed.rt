//! Values that a row prints, by `uDebug` or by another call.
ghost use Rattle.std.specs.Prelude.{◌<◌};

use ufmt::pieces::InColumn;
use ufmt::{
    Align, Column, Decimal, Formatter, HexOptions, Line, Radix, uDebug, uDisplay, uDisplayHex,
    uDisplayRadix, uDisplayZeros, uWrite,
};

/// Hexadecimal options that lines and columns print with.
pub const PREFIXED: HexOptions = HexOptions {
    upper_case: false,
    pad_char: b'0',
    pad_length: 6,
    ox_prefix: true,
};

/// Options for digits in two and in eight. They have no letters.
pub const BITS: HexOptions = HexOptions {
    upper_case: true,
    pad_char: b'0',
    pad_length: 10,
    ox_prefix: true,
};

pub fn column(align: Align, fill: char, width: usize) -> Column {
    Column { width, align, fill }
}

pub fn in_column<M>(mark: M, column: Column) -> InColumn<M> {
    InColumn { mark, column }
}

pub fn decimal(value: i64, places: u8) -> Decimal {
    Decimal { value, places }
}

/// A value that prints to any writer. `print` has no contract: the rows say what it writes.
pub trait Printed {
    fn print<W: uWrite>(&self, f: &mut Formatter<W>) -> Result<(), W::Error>;
}

impl<T: uDebug> Printed for T {
    fn print<W: uWrite>(&self, f: &mut Formatter<W>) -> Result<(), W::Error> {
        self.fmt(f)
    }
}

/// Prints by `uDisplay`.
#[derive(Drop)]
pub struct Displayed<T>(pub T);

impl<T: uDisplay> Printed for Displayed<T> {
    fn print<W: uWrite>(&self, f: &mut Formatter<W>) -> Result<(), W::Error> {
        self.0.fmt(f)
    }
}

/// Prints a line, in either mode.
#[derive(Drop)]
pub struct PrintedLine<L>(pub L);

impl<L: Line> Printed for PrintedLine<L> {
    fn print<W: uWrite>(&self, f: &mut Formatter<W>) -> Result<(), W::Error> {
        self.0.print(f)
    }
}

/// Prints by `fmt_hex`.
#[derive(Drop)]
pub struct Hexadecimal<T> {
    pub number: T,
    pub options: HexOptions,
    pub ghost has_ascii_pad: { options.pad_char < 128 },
}

impl<T: uDisplayHex> Printed for Hexadecimal<T> {
    fn print<W: uWrite>(&self, f: &mut Formatter<W>) -> Result<(), W::Error> {
        self.number.fmt_hex(f, self.options)
    }
}

/// Prints by `fmt_radix`.
#[derive(Drop)]
pub struct Digits<T> {
    pub number: T,
    pub radix: Radix,
    pub options: HexOptions,
    pub ghost has_ascii_pad: { options.pad_char < 128 },
}

impl<T: uDisplayRadix> Printed for Digits<T> {
    fn print<W: uWrite>(&self, f: &mut Formatter<W>) -> Result<(), W::Error> {
        self.number.fmt_radix(f, self.radix, self.options)
    }
}

/// Prints by `fmt_zeros`.
#[derive(Drop)]
pub struct ZeroPadded<T> {
    pub number: T,
    pub width: usize,
}

impl<T: uDisplayZeros> Printed for ZeroPadded<T> {
    fn print<W: uWrite>(&self, f: &mut Formatter<W>) -> Result<(), W::Error> {
        self.number.fmt_zeros(f, self.width)
    }
}

/// Prints by `with_stuff`.
#[derive(Drop)]
pub struct Payload<'a> {
    pub payload: &'a str,
    pub options: HexOptions,
    pub ghost has_ascii_pad: { options.pad_char < 128 },
}

impl Printed for Payload<'_> {
    fn print<W: uWrite>(&self, f: &mut Formatter<W>) -> Result<(), W::Error> {
        self.options.with_stuff(f, self.payload)
    }
}

/// What a call leaves: its result, and mode and depth inside the pretty part and after it.
pub type Left<E> = (Result<(), E>, (bool, u8), (bool, u8));

// Prints the value in this mode. Returns the result, and mode and depth before the mode ends.
fn print_in<T: Printed, W: uWrite>(
    is_pretty: bool,
    value: &T,
    f: &mut Formatter<W>,
) -> (Result<(), W::Error>, (bool, u8)) {
    if !is_pretty {
        let outcome = value.print(f);
        return (outcome, (f.is_pretty(), f.depth()));
    }
    let mut inside = (false, 0);
    let outcome = f.pretty(|f| {
        let outcome = value.print(f);
        inside = (f.is_pretty(), f.depth());
        outcome
    });
    (outcome, inside)
}

/// Prints the value to this writer in this mode. Returns what is left, and the writer.
pub fn print_to<T: Printed, W: uWrite>(
    is_pretty: bool,
    value: &T,
    writer: W,
) -> (Left<W::Error>, W) {
    let mut f = Formatter::new(writer);
    let (outcome, inside) = print_in(is_pretty, value, &mut f);
    let outside = (f.is_pretty(), f.depth());
    ((outcome, inside, outside), f.into_inner())
}
