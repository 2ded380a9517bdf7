//! `uDisplay` of nonzero numbers, which print as by `uDebug`.
use crate::display::uDisplay;
use std::num::{
    NonZeroI8, NonZeroI16, NonZeroI32, NonZeroI64, NonZeroI128, NonZeroIsize, NonZeroU8,
    NonZeroU16, NonZeroU32, NonZeroU64, NonZeroU128, NonZeroUsize,
};
use ufmt_core::{Formatter, uDebug, uWrite};

impl uDisplay for NonZeroU8 {
    ghost display = { ⟦<NonZeroU8 as uDebug>⟧.document };

    fn fmt<W: uWrite>(&self, f: &mut Formatter<W>) -> Result<(), W::Error> {
        uDebug::fmt(self, f)
    }
}

impl uDisplay for NonZeroU16 {
    ghost display = { ⟦<NonZeroU16 as uDebug>⟧.document };

    fn fmt<W: uWrite>(&self, f: &mut Formatter<W>) -> Result<(), W::Error> {
        uDebug::fmt(self, f)
    }
}

impl uDisplay for NonZeroU32 {
    ghost display = { ⟦<NonZeroU32 as uDebug>⟧.document };

    fn fmt<W: uWrite>(&self, f: &mut Formatter<W>) -> Result<(), W::Error> {
        uDebug::fmt(self, f)
    }
}

impl uDisplay for NonZeroU64 {
    ghost display = { ⟦<NonZeroU64 as uDebug>⟧.document };

    fn fmt<W: uWrite>(&self, f: &mut Formatter<W>) -> Result<(), W::Error> {
        uDebug::fmt(self, f)
    }
}

impl uDisplay for NonZeroU128 {
    ghost display = { ⟦<NonZeroU128 as uDebug>⟧.document };

    fn fmt<W: uWrite>(&self, f: &mut Formatter<W>) -> Result<(), W::Error> {
        uDebug::fmt(self, f)
    }
}

impl uDisplay for NonZeroUsize {
    ghost display = { ⟦<NonZeroUsize as uDebug>⟧.document };

    fn fmt<W: uWrite>(&self, f: &mut Formatter<W>) -> Result<(), W::Error> {
        uDebug::fmt(self, f)
    }
}

impl uDisplay for NonZeroI8 {
    ghost display = { ⟦<NonZeroI8 as uDebug>⟧.document };

    fn fmt<W: uWrite>(&self, f: &mut Formatter<W>) -> Result<(), W::Error> {
        uDebug::fmt(self, f)
    }
}

impl uDisplay for NonZeroI16 {
    ghost display = { ⟦<NonZeroI16 as uDebug>⟧.document };

    fn fmt<W: uWrite>(&self, f: &mut Formatter<W>) -> Result<(), W::Error> {
        uDebug::fmt(self, f)
    }
}

impl uDisplay for NonZeroI32 {
    ghost display = { ⟦<NonZeroI32 as uDebug>⟧.document };

    fn fmt<W: uWrite>(&self, f: &mut Formatter<W>) -> Result<(), W::Error> {
        uDebug::fmt(self, f)
    }
}

impl uDisplay for NonZeroI64 {
    ghost display = { ⟦<NonZeroI64 as uDebug>⟧.document };

    fn fmt<W: uWrite>(&self, f: &mut Formatter<W>) -> Result<(), W::Error> {
        uDebug::fmt(self, f)
    }
}

impl uDisplay for NonZeroI128 {
    ghost display = { ⟦<NonZeroI128 as uDebug>⟧.document };

    fn fmt<W: uWrite>(&self, f: &mut Formatter<W>) -> Result<(), W::Error> {
        uDebug::fmt(self, f)
    }
}

impl uDisplay for NonZeroIsize {
    ghost display = { ⟦<NonZeroIsize as uDebug>⟧.document };

    fn fmt<W: uWrite>(&self, f: &mut Formatter<W>) -> Result<(), W::Error> {
        uDebug::fmt(self, f)
    }
}
