//! Types whose `fmt` isn't one call of `fields!`: a list, a map, entries in halves, a struct that ends in
//! dots, two documents joined, and a value in pretty mode.
ghost use Rattle.std.specs.Prelude.{[], ◌∷◌, codes, map};
ghost use Rattle.std.specs.Str.{encode_utf8_all};
ghost use Rattle.ufmt.specs.Document.{documents, joined, leaf, list_of, map_of, pairs_of, pretty_part};
ghost use Rattle.ufmt.specs.ValueDocuments.{integer, non_exhaustive_struct, number};

use ufmt::{Formatter, fmt_pretty, uDebug, uWrite};

/// A struct that prints as the list in it.
#[derive(Drop)]
pub struct Scores<T> {
    pub scores: Vec<T>,
}

impl<T: uDebug> uDebug for Scores<T> {
    ghost document = { λ s. list_of (documents (map T.document s.scores.items)) };

    fn fmt<W: uWrite>(&self, f: &mut Formatter<W>) -> Result<(), W::Error> {
        f.list_of(&self.scores)
    }
}

/// A port, and what uses it.
#[derive(Drop)]
pub struct Port<T> {
    pub number: u64,
    pub user: T,
}

/// Ports, which print as a map, by `entry` in a loop.
#[derive(Drop)]
pub struct Ports<T> {
    pub ports: Vec<Port<T>>,
}

impl<T: uDebug> uDebug for Ports<T> {
    ghost document = { λ t.
        map_of (pairs_of (map (λ p. (number p.number, T.document p.user)) t.ports.items)) };

    fn fmt<W: uWrite>(&self, f: &mut Formatter<W>) -> Result<(), W::Error> {
        let mut map = f.debug_map()?;
        for port in &self.ports {
            map.entry(&port.number, &port.user)?;
        }
        map.finish()
    }
}

/// The users of ports, which print as a list, by an entry in halves in a loop.
#[derive(Drop)]
pub struct Users<T> {
    pub ports: Vec<Port<T>>,
}

impl<T: uDebug> uDebug for Users<T> {
    ghost document = { λ t. list_of (documents (map (λ p. T.document p.user) t.ports.items)) };

    fn fmt<W: uWrite>(&self, f: &mut Formatter<W>) -> Result<(), W::Error> {
        let mut list = f.debug_list()?;
        for port in &self.ports {
            let outcome = port.user.fmt(list.begin_entry()?);
            list.end_entry(outcome)?;
        }
        list.finish()
    }
}

/// A meter, of which only the total is shown.
#[derive(Drop)]
pub struct Meter {
    pub total: u64,
    pub key: u64,
}

impl uDebug for Meter {
    ghost document = { λ m. non_exhaustive_struct "Meter" (("total", number m.total) ∷ []) };

    fn fmt<W: uWrite>(&self, f: &mut Formatter<W>) -> Result<(), W::Error> {
        let mut meter = f.debug_struct("Meter")?;
        meter.field("total", &self.total)?;
        meter.finish_non_exhaustive()
    }
}

/// A temperature, which prints with its unit: `21 °C`.
#[derive(Clone, Copy)]
pub struct Temperature {
    pub celsius: i16,
}

impl uDebug for Temperature {
    ghost document = { λ t. joined (documents
        (integer t.celsius ∷ leaf (encode_utf8_all (codes " °C")) ∷ [])) };

    fn fmt<W: uWrite>(&self, f: &mut Formatter<W>) -> Result<(), W::Error> {
        self.celsius.fmt(f)?;
        f.write_str(" °C")
    }
}

/// A value that prints in pretty mode, whatever the mode around it.
#[derive(Drop)]
pub struct InPrettyMode<T>(pub T);

impl<T: uDebug> uDebug for InPrettyMode<T> {
    ghost document = { λ x. pretty_part (T.document x.0) };

    fn fmt<W: uWrite>(&self, f: &mut Formatter<W>) -> Result<(), W::Error> {
        fmt_pretty(&self.0, f)
    }
}
