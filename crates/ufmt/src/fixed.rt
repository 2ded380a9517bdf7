//! `uDisplayFixed`: texts of floats with a number of decimals.
ghost use Rattle.std.specs.Prelude.{◌≡◌, ◌-◌, ℕ, List, is_ok};
ghost use Rattle.std.specs.Fmt.{char_count};
ghost use Rattle.ufmt_core.specs.Document.{leaf};
ghost use Rattle.ufmt_core.specs.Formatter.{Prints};
ghost use Rattle.ufmt_fixed.specs.Text.{fixed_text};

use crate::display::uDisplay;
use crate::pad::pad;
use ufmt_core::internal::text_from;
use ufmt_core::{Formatter, uDebug, uWrite};
use ufmt_fixed::{LongText, ShortText};
use ufmt_float::Float;

/// A float that prints itself with a number of decimals, as Rust's `{:.2}` would.
pub trait uDisplayFixed {
    /// The float's text with a number of decimals.
    ghost fixed_text: { Self → ℕ → List ℕ };

    /// Writes the float's text with so many decimals. Its exact value is rounded, and of two decimals that
    /// are as close the even one is taken. On `Err` a prefix of that was written. Mode, depth and the
    /// writer's identity are as before.
    fn fmt_fixed<W>(&self, f: &mut Formatter<W>, decimals: usize) -> Result<(), W::Error>
    where
        W: uWrite,
        ensures { Prints W.seen f.old (fixed_text self.now decimals) (is_ok result) f.new };

    /// Returns how many characters the float's text lacks up to this width.
    fn missing_fixed(&self, decimals: usize, width: usize) -> usize
        ensures { result ≡ width - char_count (fixed_text self.now decimals) };
}

impl uDisplayFixed for f32 {
    ghost fixed_text = { λ x decimals. fixed_text decimals x };

    #[inline(always)]
    fn fmt_fixed<W: uWrite>(&self, f: &mut Formatter<W>, decimals: usize) -> Result<(), W::Error> {
        write_fixed(*self, f, decimals)
    }

    fn missing_fixed(&self, decimals: usize, width: usize) -> usize {
        missing(*self, decimals, width)
    }
}

impl uDisplayFixed for f64 {
    ghost fixed_text = { λ x decimals. fixed_text decimals x };

    #[inline(always)]
    fn fmt_fixed<W: uWrite>(&self, f: &mut Formatter<W>, decimals: usize) -> Result<(), W::Error> {
        write_fixed(*self, f, decimals)
    }

    fn missing_fixed(&self, decimals: usize, width: usize) -> usize {
        missing(*self, decimals, width)
    }
}

/// Prints what the reference refers to.
impl<T: uDisplayFixed> uDisplayFixed for &T {
    ghost fixed_text = { λ x. T.fixed_text x.now };

    fn fmt_fixed<W: uWrite>(&self, f: &mut Formatter<W>, decimals: usize) -> Result<(), W::Error> {
        (**self).fmt_fixed(f, decimals)
    }

    fn missing_fixed(&self, decimals: usize, width: usize) -> usize {
        (**self).missing_fixed(decimals, width)
    }
}

/// Prints what the reference refers to.
impl<T: uDisplayFixed> uDisplayFixed for &mut T {
    ghost fixed_text = { λ x. T.fixed_text x.now };

    fn fmt_fixed<W: uWrite>(&self, f: &mut Formatter<W>, decimals: usize) -> Result<(), W::Error> {
        (**self).fmt_fixed(f, decimals)
    }

    fn missing_fixed(&self, decimals: usize, width: usize) -> usize {
        (**self).missing_fixed(decimals, width)
    }
}

/// A float with a number of decimals, as a value, for use in a field or a list. `Fixed { value: 2.5, decimals: 2 }`
/// prints `2.50`.
#[derive(Clone, Copy, Debug, PartialEq, Drop)]
pub struct Fixed<T> {
    pub value: T,
    /// How many digits come after the point. Without any there is no point.
    pub decimals: usize,
}

/// Prints the value with so many decimals.
impl<T: uDisplayFixed> uDisplay for Fixed<T> {
    ghost display = { λ x. leaf (T.fixed_text x.value x.decimals) };

    #[inline(always)]
    fn fmt<W: uWrite>(&self, f: &mut Formatter<W>) -> Result<(), W::Error> {
        self.value.fmt_fixed(f, self.decimals)
    }
}

/// Prints the value with so many decimals, as `uDisplay` does.
impl<T: uDisplayFixed> uDebug for Fixed<T> {
    ghost document = { λ x. leaf (T.fixed_text x.value x.decimals) };

    #[inline(always)]
    fn fmt<W: uWrite>(&self, f: &mut Formatter<W>) -> Result<(), W::Error> {
        self.value.fmt_fixed(f, self.decimals)
    }
}

#[inline(always)]
fn write_fixed<F: Float, W: uWrite>(
    x: F,
    f: &mut Formatter<W>,
    decimals: usize,
) -> Result<(), W::Error>
    ensures { Prints W.seen f.old (fixed_text decimals (F.value x)) (is_ok result) f.new }
{
    match ShortText::of(x, decimals) {
        Some(text) => f.write_str(text_from(text.as_bytes(), 0)),
        None => write_long(x, f, decimals),
    }
}

// Out of line: its frame is large, and few texts need it.
#[inline(never)]
fn write_long<F: Float, W: uWrite>(
    x: F,
    f: &mut Formatter<W>,
    decimals: usize,
) -> Result<(), W::Error>
    ensures { Prints W.seen f.old (fixed_text decimals (F.value x)) (is_ok result) f.new }
{
    let text = LongText::of(x, decimals);
    let (digits, zeros) = text.parts();
    f.write_str(text_from(digits, 0))?;
    pad::<W, b'0'>(f, &[b'0'; 64], zeros)
}

// How many characters the text is short of the width: none of it is written.
fn missing<F: Float>(x: F, decimals: usize, width: usize) -> usize
    ensures { result ≡ width - char_count (fixed_text decimals (F.value x)) }
{
    match ShortText::of(x, decimals) {
        Some(text) => width.saturating_sub(text.as_bytes().len()),
        None => {
            let text = LongText::of(x, decimals);
            let (digits, zeros) = text.parts();
            width.saturating_sub(digits.len()).saturating_sub(zeros)
        }
    }
}
