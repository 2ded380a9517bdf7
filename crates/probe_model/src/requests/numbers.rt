//! The payload as a number of each type that has it, by each trait that prints it.
use super::Request;
use crate::digest::Digest;
use crate::pieces::Pieces;
use std::num::{
    NonZeroI8, NonZeroI16, NonZeroI32, NonZeroI64, NonZeroI128, NonZeroIsize, NonZeroU8,
    NonZeroU16, NonZeroU32, NonZeroU64, NonZeroU128, NonZeroUsize, Saturating, Wrapping,
    f32_from_bits_with_nan, f64_from_bits_with_nan,
};
use ufmt::{
    Decimal, Formatter, pieces, uDebug, uDisplay, uDisplayFixed, uDisplayHex, uDisplayRadix,
    uDisplayZeros, uWrite, write_debug, write_display, write_line, write_pretty,
};

// The number of each type, and that of the type without 0.
macro_rules! of_types {
    ($printer:ident, $text:ident; $($number:ident $nonzero:ident)*) => {{
        $(
            $printer.number($text.parse::<$number>().ok());
            $printer.number($text.parse::<$number>().ok().and_then($nonzero::new));
        )*
    }};
}

/// Writes the number in decimal digits, also with zeros before them and with places after a point, and in each radix, and
/// the floats with these bits, also with so many decimals. A text that is no number is written as the payload of a padded text.
pub fn pieces(request: &Request<'_>, text: &str) -> Digest {
    let mut printer = Printer {
        request: *request,
        pieces: Pieces::new(),
    };
    printer.padded(text);
    printer.unsigned(text);
    printer.signed(text);
    printer.number(text.parse::<u32>().ok().map(Wrapping));
    printer.number(text.parse::<i64>().ok().map(Saturating));
    printer.decimal(text.parse::<i64>().ok());
    printer.float(
        text.parse::<u32>()
            .ok()
            .map(|bits| f32_from_bits_with_nan(bits)),
    );
    printer.float(
        text.parse::<u64>()
            .ok()
            .map(|bits| f64_from_bits_with_nan(bits)),
    );
    printer.pieces.digest
}

#[derive(Drop)]
struct Printer<'a> {
    request: Request<'a>,
    pieces: Pieces,
}

impl Printer<'_> {
    fn padded(&mut self, text: &str) {
        let Request { hex, .. } = self.request;
        let mut f = Formatter::new(&mut self.pieces);
        let _ = hex.with_stuff(&mut f, text);
    }

    fn unsigned(&mut self, text: &str) {
        of_types!(self, text;
            u8 NonZeroU8 u16 NonZeroU16 u32 NonZeroU32 u64 NonZeroU64 u128 NonZeroU128 usize NonZeroUsize)
    }

    fn signed(&mut self, text: &str) {
        of_types!(self, text;
            i8 NonZeroI8 i16 NonZeroI16 i32 NonZeroI32 i64 NonZeroI64 i128 NonZeroI128 isize NonZeroIsize)
    }

    fn number<T: uDebug + uDisplay + uDisplayHex + uDisplayRadix + uDisplayZeros + Drop>(
        &mut self,
        number: Option<T>,
    ) {
        let Some(number) = number else {
            return;
        };
        let _ = write_debug(&mut self.pieces, &number);
        let _ = write_pretty(&mut self.pieces, &number);
        let _ = write_display(&mut self.pieces, &number);
        let Request { hex, .. } = self.request;
        let width = hex.pad_length;
        let line = pieces!(
            hex number with hex, bin number with hex, oct number with hex, zeros number to width
        );
        let _ = write_line(&mut self.pieces, &line);
    }

    fn float<T: uDebug + uDisplay + uDisplayFixed + Drop>(&mut self, float: Option<T>) {
        let Some(float) = float else {
            return;
        };
        let _ = write_debug(&mut self.pieces, &float);
        let _ = write_pretty(&mut self.pieces, &float);
        let _ = write_display(&mut self.pieces, &float);
        let Request { alloc, hex, .. } = self.request;
        let (mut text, decimals) = (String::new(alloc), hex.pad_length);
        let _ = write_line(&mut text, &pieces!(fixed float to decimals));
        let _ = self.pieces.write_str(&text);
    }

    // The number of places is that of the pad byte.
    fn decimal(&mut self, value: Option<i64>) {
        let Some(value) = value else {
            return;
        };
        let Request { hex, .. } = self.request;
        let decimal = Decimal {
            value,
            places: hex.pad_char,
        };
        let _ = write_debug(&mut self.pieces, &decimal);
        let _ = write_display(&mut self.pieces, &decimal);
        let width = hex.pad_length;
        let _ = write_line(&mut self.pieces, &pieces!(zeros decimal to width));
    }
}
