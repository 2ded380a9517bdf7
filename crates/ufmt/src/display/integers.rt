//! `uDisplay` of integers, which print as by `uDebug`.
use crate::display::uDisplay;
use ufmt_core::{Formatter, uDebug, uWrite};

impl uDisplay for u8 {
    ghost display = { ⟦<u8 as uDebug>⟧.document };

    fn fmt<W: uWrite>(&self, f: &mut Formatter<W>) -> Result<(), W::Error> {
        uDebug::fmt(self, f)
    }
}

impl uDisplay for u16 {
    ghost display = { ⟦<u16 as uDebug>⟧.document };

    fn fmt<W: uWrite>(&self, f: &mut Formatter<W>) -> Result<(), W::Error> {
        uDebug::fmt(self, f)
    }
}

impl uDisplay for u32 {
    ghost display = { ⟦<u32 as uDebug>⟧.document };

    fn fmt<W: uWrite>(&self, f: &mut Formatter<W>) -> Result<(), W::Error> {
        uDebug::fmt(self, f)
    }
}

impl uDisplay for u64 {
    ghost display = { ⟦<u64 as uDebug>⟧.document };

    fn fmt<W: uWrite>(&self, f: &mut Formatter<W>) -> Result<(), W::Error> {
        uDebug::fmt(self, f)
    }
}

impl uDisplay for u128 {
    ghost display = { ⟦<u128 as uDebug>⟧.document };

    fn fmt<W: uWrite>(&self, f: &mut Formatter<W>) -> Result<(), W::Error> {
        uDebug::fmt(self, f)
    }
}

impl uDisplay for usize {
    ghost display = { ⟦<usize as uDebug>⟧.document };

    fn fmt<W: uWrite>(&self, f: &mut Formatter<W>) -> Result<(), W::Error> {
        uDebug::fmt(self, f)
    }
}

impl uDisplay for i8 {
    ghost display = { ⟦<i8 as uDebug>⟧.document };

    fn fmt<W: uWrite>(&self, f: &mut Formatter<W>) -> Result<(), W::Error> {
        uDebug::fmt(self, f)
    }
}

impl uDisplay for i16 {
    ghost display = { ⟦<i16 as uDebug>⟧.document };

    fn fmt<W: uWrite>(&self, f: &mut Formatter<W>) -> Result<(), W::Error> {
        uDebug::fmt(self, f)
    }
}

impl uDisplay for i32 {
    ghost display = { ⟦<i32 as uDebug>⟧.document };

    fn fmt<W: uWrite>(&self, f: &mut Formatter<W>) -> Result<(), W::Error> {
        uDebug::fmt(self, f)
    }
}

impl uDisplay for i64 {
    ghost display = { ⟦<i64 as uDebug>⟧.document };

    fn fmt<W: uWrite>(&self, f: &mut Formatter<W>) -> Result<(), W::Error> {
        uDebug::fmt(self, f)
    }
}

impl uDisplay for i128 {
    ghost display = { ⟦<i128 as uDebug>⟧.document };

    fn fmt<W: uWrite>(&self, f: &mut Formatter<W>) -> Result<(), W::Error> {
        uDebug::fmt(self, f)
    }
}

impl uDisplay for isize {
    ghost display = { ⟦<isize as uDebug>⟧.document };

    fn fmt<W: uWrite>(&self, f: &mut Formatter<W>) -> Result<(), W::Error> {
        uDebug::fmt(self, f)
    }
}
