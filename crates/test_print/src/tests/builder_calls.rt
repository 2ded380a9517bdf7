//! Makes the calls of each builder in a row, until one fails. If a value's own piece is refused,
//! the next call of its entry gets the `Err`.
use ufmt::{DebugList, DebugMap, DebugSet, DebugStruct, DebugTuple, Formatter, uDebug, uWrite};

/// The call that came last, and whether the builder was open before it and after it.
#[derive(Clone, Copy, PartialEq, Debug)]
pub struct LastCall {
    name: &'static str,
    was_open: bool,
    is_open: bool,
}

impl LastCall {
    /// A call that closes an open builder, or one that fails. No builder is open before the call that makes it.
    pub fn closing(name: &'static str) -> Self {
        LastCall {
            name,
            was_open: name != "opening",
            is_open: false,
        }
    }

    fn note(&mut self, name: &'static str, is_open: bool) {
        self.name = name;
        self.was_open = self.is_open;
        self.is_open = is_open;
    }
}

/// The calls of a builder.
#[derive(Clone, Copy)]
enum Call {
    Entry,
    Entries,
    /// The calls that begin and end an entry.
    BeginAndEnd,
    Finish,
    /// The end of a struct with `..`. Another builder has no such call.
    FinishNonExhaustive,
}

// The calls of lists, sets and maps, and those of structs and tuples.
const OF_ENTRIES: [Call; 4] = [Call::Entry, Call::Entries, Call::BeginAndEnd, Call::Finish];

const OF_FIELDS: [Call; 3] = [Call::BeginAndEnd, Call::Entry, Call::Finish];

// The calls of structs that end in dots, with fields and without.
const OF_FIELDS_AND_DOTS: [Call; 3] = [Call::BeginAndEnd, Call::Entry, Call::FinishNonExhaustive];

const OF_DOTS: [Call; 1] = [Call::FinishNonExhaustive];

/// A builder, one call at a time.
trait Calls<E> {
    /// Makes this call, if the builder is open. Returns the name and result of the last call made.
    fn make(&mut self, call: Call) -> (&'static str, Result<(), E>);

    fn may_continue(&self) -> bool;
}

// Prints a value by the formatter that a call lends, or returns the call's error with its name.
macro_rules! print_lent {
    ($value:literal, $name:literal, $lent:expr) => {
        match $lent {
            Ok(f) => $value.fmt(f),
            Err(error) => return ($name, Err(error)),
        }
    };
}

// A call of a list or of a set.
macro_rules! make_for_entries {
    ($builder:ident, $call:ident) => {{
        if !$builder.is_open() {
            return ("none", Ok(()));
        }
        match $call {
            Call::Entry => ("entry", $builder.entry(&1u8)),
            Call::Entries => ("entries", $builder.entries(&[2u8, 3])),
            Call::BeginAndEnd => {
                let outcome = print_lent!(4u8, "begin_entry", $builder.begin_entry());
                ("end_entry", $builder.end_entry(outcome))
            }
            Call::Finish | Call::FinishNonExhaustive => ("finish", $builder.finish()),
        }
    }};
}

// A call of a struct or of a tuple. A struct's fields have names.
macro_rules! make_for_fields {
    ($builder:ident, $call:ident $(, $first:literal, $second:literal)?) => {{
        if !$builder.is_open() {
            return ("none", Ok(()));
        }
        match $call {
            Call::BeginAndEnd => {
                let outcome = print_lent!(1u8, "begin_field", $builder.begin_field($($first)?));
                ("end_field", $builder.end_field(outcome))
            }
            Call::Entry => ("field", $builder.field($($second,)? &2u8)),
            Call::Entries | Call::Finish | Call::FinishNonExhaustive => {
                ("finish", $builder.finish())
            }
        }
    }};
}

impl<W: uWrite> Calls<W::Error> for DebugList<'_, W> {
    fn make(&mut self, call: Call) -> (&'static str, Result<(), W::Error>) {
        make_for_entries!(self, call)
    }

    fn may_continue(&self) -> bool {
        self.is_open()
    }
}

impl<W: uWrite> Calls<W::Error> for DebugSet<'_, W> {
    fn make(&mut self, call: Call) -> (&'static str, Result<(), W::Error>) {
        make_for_entries!(self, call)
    }

    fn may_continue(&self) -> bool {
        self.is_open()
    }
}

impl<W: uWrite> Calls<W::Error> for DebugMap<'_, W> {
    fn make(&mut self, call: Call) -> (&'static str, Result<(), W::Error>) {
        if !self.is_open() {
            return ("none", Ok(()));
        }
        match call {
            Call::Entry => ("entry", self.entry(&1u8, &2u8)),
            Call::Entries => ("entries", self.entries([(3u8, 4u8), (5, 6)])),
            Call::BeginAndEnd => {
                let outcome = print_lent!(7u8, "begin_entry", self.begin_entry());
                let outcome = print_lent!(8u8, "begin_value", self.begin_value(outcome));
                ("end_entry", self.end_entry(outcome))
            }
            Call::Finish | Call::FinishNonExhaustive => ("finish", self.finish()),
        }
    }

    fn may_continue(&self) -> bool {
        self.is_open()
    }
}

impl<W: uWrite> Calls<W::Error> for DebugStruct<'_, W> {
    fn make(&mut self, call: Call) -> (&'static str, Result<(), W::Error>) {
        if matches!(call, Call::FinishNonExhaustive) && self.is_open() {
            return ("finish_non_exhaustive", self.finish_non_exhaustive());
        }
        make_for_fields!(self, call, "a", "b")
    }

    fn may_continue(&self) -> bool {
        self.is_open()
    }
}

impl<W: uWrite> Calls<W::Error> for DebugTuple<'_, W> {
    fn make(&mut self, call: Call) -> (&'static str, Result<(), W::Error>) {
        make_for_fields!(self, call)
    }

    fn may_continue(&self) -> bool {
        self.is_open()
    }
}

// Makes a builder's calls until one fails. The first is the one that made the builder.
fn make_each<E, B: Calls<E> + Drop>(
    builder: Result<B, E>,
    calls: &[Call],
    last: &mut LastCall,
) -> Result<(), E> {
    let mut builder = builder?;
    last.note("opening", builder.may_continue());
    for call in calls {
        let (name, outcome) = builder.make(*call);
        last.note(name, builder.may_continue());
        outcome?;
    }
    Ok(())
}

/// The kinds of blocks, by their builders.
#[derive(Clone, Copy)]
pub enum Block {
    List,
    Set,
    Map,
    Struct,
    /// A struct that ends in dots.
    StructWithDots,
    /// The same without fields.
    OnlyDots,
    Tuple,
}

impl Block {
    /// Makes a builder's calls until one fails.
    pub fn call_in_turn<W: uWrite>(
        self,
        f: &mut Formatter<W>,
        last: &mut LastCall,
    ) -> Result<(), W::Error> {
        match self {
            Block::List => make_each(f.debug_list(), &OF_ENTRIES, last),
            Block::Set => make_each(f.debug_set(), &OF_ENTRIES, last),
            Block::Map => make_each(f.debug_map(), &OF_ENTRIES, last),
            Block::Struct => make_each(f.debug_struct("S"), &OF_FIELDS, last),
            Block::StructWithDots => make_each(f.debug_struct("S"), &OF_FIELDS_AND_DOTS, last),
            Block::OnlyDots => make_each(f.debug_struct("S"), &OF_DOTS, last),
            Block::Tuple => make_each(f.debug_tuple("T"), &OF_FIELDS, last),
        }
    }
}
