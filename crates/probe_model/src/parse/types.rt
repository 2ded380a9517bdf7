//! The types that are parsed, in rows.
use crate::parse::parsed::{TypeLetters, add};
use crate::read::calls::Calls;
use crate::read::fault::{Fault, agree};
use example_parse::{Mix, Node, Tree};
use std::alloc::Global;
use std::boxed::{BoxedSlice, BoxedStr};
use std::cmp::{Ordering, Reverse};
use std::collections::{BTreeMap, BTreeSet, LinkedList, VecDeque};
use std::num::{
    NonZeroI8, NonZeroI16, NonZeroI32, NonZeroI64, NonZeroI128, NonZeroIsize, NonZeroU8,
    NonZeroU16, NonZeroU32, NonZeroU64, NonZeroU128, NonZeroUsize, Saturating, Wrapping,
};
use std::ops::{Bound, ControlFlow, RangeFull};
use std::rc::{Rc, RcSlice, RcStr};
use std::sync::{Arc, ArcSlice, ArcStr};
use ufmt::Decimal;
use ufmt::cells::CellValue;
use ufmt_parse::uParse;

/// Types in a row: the first, and the row of the others, or `()`. They are parsed with this type of allocator.
pub trait Types<A> {
    /// Adds the letter of each type that has a value with the text.
    fn add_all(
        calls: Calls<'_>,
        alloc: A,
        row: &str,
        letters: &mut TypeLetters,
    ) -> Result<(), Fault>;
}

impl<A: Copy> Types<A> for () {
    fn add_all(
        _calls: Calls<'_>,
        _alloc: A,
        row: &str,
        _letters: &mut TypeLetters,
    ) -> Result<(), Fault> {
        agree(row.is_empty(), "the program has a letter for each type")
    }
}

impl<A: Copy, T: uParse<A>, R: Types<A>> Types<A> for (T, R) {
    fn add_all(
        calls: Calls<'_>,
        alloc: A,
        row: &str,
        letters: &mut TypeLetters,
    ) -> Result<(), Fault> {
        let mut row = row.chars();
        add::<T, A>(calls, alloc, letters, row.next().unwrap_or('?'))?;
        R::add_all(calls, alloc, row.as_str(), letters)
    }
}

/// Unsigned and signed numbers: `abcdefghijkl`.
pub type Numbers = (
    u8,
    (
        u16,
        (
            u32,
            (
                u64,
                (
                    u128,
                    (usize, (i8, (i16, (i32, (i64, (i128, (isize, ()))))))),
                ),
            ),
        ),
    ),
);

/// Nonzero numbers: `mnopqrstuv`.
pub type NonZeros = (
    NonZeroU8,
    (
        NonZeroU16,
        (
            NonZeroU32,
            (
                NonZeroU64,
                (
                    NonZeroUsize,
                    (
                        NonZeroI8,
                        (NonZeroI16, (NonZeroI32, (NonZeroI64, (NonZeroIsize, ())))),
                    ),
                ),
            ),
        ),
    ),
);

/// Other values that take no memory: `ABDF`.
pub type Leaves = (bool, (char, ((), (Option<Option<bool>>, ()))));

/// Values that take memory, or that may take some: `CEGJν`.
pub type Owned = (
    String,
    (
        Option<Box<i8>>,
        (Option<String>, (Box<u8>, ((char, (), Vec<bool>), ()))),
    ),
);

/// Results: `HI`.
pub type Results = (Result<String, char>, (Result<(), Option<char>>, ()));

/// Lists and arrays: `KLMNOPQR`.
pub type Lists = (
    Vec<u64>,
    (
        Vec<Option<bool>>,
        (
            Box<Vec<Vec<u8>>>,
            (
                [u8; 0],
                ([bool; 1], ([i16; 2], ([char; 3], ([[u8; 2]; 2], ())))),
            ),
        ),
    ),
);

/// Sets and maps with each type of keys: `STUVWXYZ012345`.
pub type Keyed = (
    BTreeSet<i8>,
    (
        BTreeMap<String, Option<u8>>,
        (
            BTreeSet<bool>,
            (BTreeMap<char, ()>, (BTreeSet<()>, MoreKeys)),
        ),
    ),
);

type MoreKeys = (
    BTreeSet<Option<u8>>,
    (
        BTreeSet<Result<bool, char>>,
        (
            BTreeSet<Vec<i16>>,
            (
                BTreeMap<[u8; 2], Vec<char>>,
                (BTreeSet<Box<i32>>, NumberKeys),
            ),
        ),
    ),
);

type NumberKeys = (
    BTreeMap<u64, BTreeSet<i128>>,
    (
        BTreeMap<u16, BTreeMap<usize, BTreeSet<u128>>>,
        (
            BTreeMap<i64, BTreeSet<isize>>,
            (BTreeMap<u32, BTreeSet<u8>>, ()),
        ),
    ),
);

/// Further types of std that take no memory: `ξοπρστυφ`.
pub type Wrappers = (
    Ordering,
    (
        Bound<u8>,
        (
            ControlFlow<bool, char>,
            (
                Wrapping<i8>,
                (
                    Saturating<u16>,
                    (Reverse<u8>, (CellValue<bool>, (RangeFull, ()))),
                ),
            ),
        ),
    ),
);

/// Shared values, and texts in holders: `ψωбвг`.
pub type Shared = (
    Rc<i8>,
    (
        Arc<Option<bool>>,
        (BoxedStr<Global>, (RcStr<Global>, (ArcStr<Global>, ()))),
    ),
);

/// Queues, and slices in holders: `ежзий`.
pub type Slices = (
    VecDeque<u8>,
    (
        LinkedList<bool>,
        (
            BoxedSlice<i16, Global>,
            (RcSlice<char, Global>, (ArcSlice<u8, Global>, ())),
        ),
    ),
);

/// Sets and maps with further keys: `но`.
pub type FurtherKeys = (
    BTreeSet<Reverse<u8>>,
    (BTreeMap<Ordering, RcStr<Global>>, ()),
);

/// Types that hold themselves: `678`.
pub type Nested = (Tree, (Node, (Vec<Tree>, ())));

/// Types in other types, a struct of a user's, and the widest nonzero numbers: `wxyz9лтфц`.
pub type Further = (
    Vec<String>,
    (
        BTreeMap<u8, bool>,
        (
            Vec<BTreeSet<u8>>,
            (
                Option<[u8; 2]>,
                (
                    BTreeSet<String>,
                    (Mix, (Option<Node>, (NonZeroU128, (NonZeroI128, ())))),
                ),
            ),
        ),
    ),
);

type B = bool;

/// Floats: `пр`.
pub type Floats = (f32, (f64, ()));

/// Fixed-point numbers: `д`.
pub type Decimals = (Decimal, ());

/// Tuples of one field to twelve: `αβγδεζηθικλμ`.
pub type Tuples = (
    (u32,),
    (
        (u8, B),
        (
            (u8, B, u8),
            (
                (u8, B, u8, B),
                ((u8, B, u8, B, u8), ((u8, B, u8, B, u8, B), LongTuples)),
            ),
        ),
    ),
);

type LongTuples = (
    (u8, B, u8, B, u8, B, u8),
    (
        (u8, B, u8, B, u8, B, u8, B),
        (
            (u8, B, u8, B, u8, B, u8, B, u8),
            (
                (u8, B, u8, B, u8, B, u8, B, u8, B),
                (
                    (u8, B, u8, B, u8, B, u8, B, u8, B, u8),
                    ((u8, B, u8, B, u8, B, u8, B, u8, B, u8, B), ()),
                ),
            ),
        ),
    ),
);
