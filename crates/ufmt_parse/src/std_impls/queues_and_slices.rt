//! Queues, linked lists, and the slices that a `Box`, an `Rc`, an `Arc` or a `Cow` holds: each prints as a list.
ghost use Rattle.std.specs.Arc.{arc_slice_items};
ghost use Rattle.std.specs.Box.{boxed_slice_items};
ghost use Rattle.std.specs.Cow.{cow_slice_items};
ghost use Rattle.std.specs.Prelude.{◌≡◌, codes, All, IfOk};
ghost use Rattle.std.specs.Rc.{rc_slice_items};
ghost use Rattle.ufmt_parse.specs.Places.{IsInside};

use crate::uparse::{ByType, uParse};
use std::alloc::{AllocError, Allocator};
use std::borrow::CowSlice;
use std::boxed::BoxedSlice;
use std::collections::{LinkedList, VecDeque};
use std::rc::RcSlice;
use std::sync::ArcSlice;
use ufmt_parser::blocks::parse_list;
use ufmt_parser::entries::Value;
use ufmt_parser::mode::ParseMode;
use ufmt_parser::parser::{Fault, Parser};

/// Takes a list of values, from front to back.
impl<A: Allocator + Copy, T: uParse<A>> uParse<A> for VecDeque<T, A> {
    ghost is_value = { λ queue. All T.is_value queue.items };

    ghost stops = { IsInside (codes "[") };

    fn prove_value(&self) {
        let (front, back) = self.as_slices();
        prove_values(front);
        prove_values(back);
    }

    fn parse_from<M: ParseMode>(
        alloc: A,
        parser: &mut Parser<'_, M>,
    ) -> Result<VecDeque<T, A>, Fault> {
        let values = tri!(parse_list(alloc, parser, &Value(ByType)));
        Ok(VecDeque::from_vec(values))
    }
}

/// Takes a list of values, from front to back. They are in a `Vec` until the last was taken.
impl<A: Allocator + Copy, T: uParse<A>> uParse<A> for LinkedList<T, A> {
    ghost is_value = { λ list. All T.is_value list };

    ghost stops = { IsInside (codes "[") };

    fn prove_value(&self) {
        for value in self.iter() {
            value.prove_value();
        }
    }

    fn parse_from<M: ParseMode>(
        alloc: A,
        parser: &mut Parser<'_, M>,
    ) -> Result<LinkedList<T, A>, Fault> {
        let values = tri!(parse_list(alloc, parser, &Value(ByType)));
        match linked(alloc, values) {
            Err(_) => Err(Fault::OutOfMemory),
            Ok(list) => Ok(list),
        }
    }
}

// The linked list of these values.
fn linked<A: Allocator + Copy, T: Drop>(
    alloc: A,
    values: Vec<T, A>,
) -> Result<LinkedList<T, A>, AllocError>
    ensures { IfOk result (λ list. list ≡ values.items) }
{
    let mut list = LinkedList::new(alloc);
    let mut left = values;
    'values: while let Some(value) = left.pop() {
        list.push_front(value)?;
    }
    Ok(list)
}

// Shows that `is_value` holds of each of these values.
fn prove_values<A, T: uParse<A>>(values: &[T])
    ensures { All T.is_value values.now }
{
    for value in values.iter() {
        value.prove_value();
    }
}

impl<A: Allocator + Copy, T: uParse<A>> uParse<A> for BoxedSlice<T, A> {
    ghost is_value = { λ slice. All T.is_value (boxed_slice_items slice) };

    ghost stops = { IsInside (codes "[") };

    fn prove_value(&self) {
        prove_values(self.as_slice());
    }

    fn parse_from<M: ParseMode>(
        alloc: A,
        parser: &mut Parser<'_, M>,
    ) -> Result<BoxedSlice<T, A>, Fault> {
        let values = tri!(<Vec<T, A>>::parse_from(alloc, parser));
        Ok(values.into_boxed_slice())
    }
}

impl<A: Allocator + Copy, T: uParse<A>> uParse<A> for RcSlice<T, A> {
    ghost is_value = { λ slice. All T.is_value (rc_slice_items slice) };

    ghost stops = { IsInside (codes "[") };

    fn prove_value(&self) {
        prove_values(self.as_slice());
    }

    fn parse_from<M: ParseMode>(
        alloc: A,
        parser: &mut Parser<'_, M>,
    ) -> Result<RcSlice<T, A>, Fault> {
        let values = tri!(<Vec<T, A>>::parse_from(alloc, parser));
        match RcSlice::from_vec(values) {
            Err(_) => Err(Fault::OutOfMemory),
            Ok(slice) => Ok(slice),
        }
    }
}

impl<A: Allocator + Copy, T: uParse<A>> uParse<A> for ArcSlice<T, A> {
    ghost is_value = { λ slice. All T.is_value (arc_slice_items slice) };

    ghost stops = { IsInside (codes "[") };

    fn prove_value(&self) {
        prove_values(self.as_slice());
    }

    fn parse_from<M: ParseMode>(
        alloc: A,
        parser: &mut Parser<'_, M>,
    ) -> Result<ArcSlice<T, A>, Fault> {
        let values = tri!(<Vec<T, A>>::parse_from(alloc, parser));
        match ArcSlice::from_vec(values) {
            Err(_) => Err(Fault::OutOfMemory),
            Ok(slice) => Ok(slice),
        }
    }
}

/// Takes a list of values, which are owned.
impl<'a, A: Allocator + Copy, T: uParse<A>> uParse<A> for CowSlice<'a, T, A> {
    ghost is_value = { λ slice. All T.is_value (cow_slice_items slice) };

    ghost stops = { IsInside (codes "[") };

    fn prove_value(&self) {
        prove_values(self.as_slice());
    }

    fn parse_from<M: ParseMode>(
        alloc: A,
        parser: &mut Parser<'_, M>,
    ) -> Result<CowSlice<'a, T, A>, Fault> {
        let values = tri!(parse_list(alloc, parser, &Value(ByType)));
        Ok(CowSlice::Owned(values))
    }
}
