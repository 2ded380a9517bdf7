//! Laws, each the contract of a function: the document of each type, and the parts of a block's layout.
ghost use Rattle.std.specs.Prelude.{[], ◌∷◌, ◌≡◌, ℕ, ℤ, List, Box, String, codes, string_bytes, map, true, false, None, Some, Ok, Err};
ghost use Rattle.std.specs.Arc.{arc_slice_items, arc_str_bytes, arc_value};
ghost use Rattle.std.specs.BinaryHeap.{heap_items};
ghost use Rattle.std.specs.Borrow.{Bor, MutBor};
ghost use Rattle.std.specs.Box.{boxed_slice_items, boxed_str_bytes};
ghost use Rattle.std.specs.Cow.{cow_slice_items, cow_str_bytes, cow_value};
ghost use Rattle.std.specs.Int.NonZero.{non_zero_u8_get, non_zero_u16_get, non_zero_u32_get, non_zero_u64_get, non_zero_u128_get, non_zero_usize_get, non_zero_i8_get, non_zero_i16_get, non_zero_i32_get, non_zero_i64_get, non_zero_i128_get, non_zero_isize_get};
ghost use Rattle.std.specs.Rc.{rc_slice_items, rc_str_bytes};
ghost use Rattle.std.specs.RefCell.{ref_mut_value, ref_value};
ghost use Rattle.std.specs.Str.{chars};
ghost use Rattle.std.specs.declared.cell.Ref.{Ref};
ghost use Rattle.std.specs.declared.cmp.Ordering.TheVariants.{Less, Equal, Greater};
ghost use Rattle.std.specs.declared.ops.ControlFlow.TheVariants.{Continue, Break};
ghost use Rattle.std.specs.declared.ops.Bound.TheVariants.{Included, Excluded, Unbounded};
ghost use Rattle.ufmt_core.specs.declared.core_impls.cells.RefCellValue.TheVariants.{Borrowed, Held};
ghost use Rattle.ufmt_core.specs.BuilderView.{block_in_parts, dotted_in_parts};
ghost use Rattle.ufmt_core.specs.Document.{Documents, Fields, Pairs, documents, leaf, list_of, map_of, non_exhaustive_of, pairs_of, set_of, struct_of, tuple_of};
ghost use Rattle.ufmt_core.specs.Layout.{Braces, Brackets, Setting, Struct, field_texts, inside, layout, pair_texts, texts, tuple_kind};
ghost use Rattle.ufmt_core.specs.Quoted.{quoted_char, quoted_text};
ghost use Rattle.ufmt_core.specs.Ranges.{after, before, between, range_inclusive_document};
ghost use Rattle.ufmt_core.specs.ValueDocuments.{integer, named, named_struct, named_tuple, number};

mod of_floats;
mod of_tuples;

use crate::core_impls::cells::{CellValue, RefCellValue};
use crate::uDebug;
pub use crate::unsigned::decimal_is_one_text;
pub use of_floats::documents_of_floats;
pub use of_tuples::documents_of_tuples;
use std::alloc::Allocator;
use std::borrow::{Cow, CowSlice, CowStr};
use std::boxed::{BoxedSlice, BoxedStr};
use std::cell::{Ref, RefMut};
use std::cmp::{Ordering, Reverse};
use std::collections::{BTreeMap, BTreeSet, BinaryHeap, HashMap, HashSet, LinkedList, VecDeque};
use std::hash::{BuildHasher, Hash};
use std::num::{
    NonZeroI8, NonZeroI16, NonZeroI32, NonZeroI64, NonZeroI128, NonZeroIsize, NonZeroU8,
    NonZeroU16, NonZeroU32, NonZeroU64, NonZeroU128, NonZeroUsize, Saturating, Wrapping,
};
use std::ops::{
    Bound, ControlFlow, Range, RangeFrom, RangeFull, RangeInclusive, RangeTo, RangeToInclusive,
};
use std::rc::{Rc, RcSlice, RcStr, Weak};
use std::sync::{Arc, ArcSlice, ArcStr};

// Promise (printing): Each type of std has the document that [GUIDE.md](GUIDE.md#what-to-write-for-a-field)
// shows. Also: `laws::documents_of_texts`, `laws::documents_of_collections`,
// `laws::documents_of_sorted_collections`, `laws::documents_of_shared_values`,
// `laws::documents_of_unsorted_collections`, `laws::documents_of_ranges`, `laws::documents_of_wrappers`,
// `laws::documents_of_cell_values`, `laws::references_print_what_they_refer_to`.
/// The document of a number is the leaf of its decimal text, also of a nonzero number. The document of
/// a truth value, of `()` and of `None` is the leaf of its name.
pub fn documents_of_leaves<T: uDebug>()
    ensures of_u8 { (n : ℕ) → ⟦<u8 as uDebug>⟧.document n ≡ number n }
    ensures of_u16 { (n : ℕ) → ⟦<u16 as uDebug>⟧.document n ≡ number n }
    ensures of_u32 { (n : ℕ) → ⟦<u32 as uDebug>⟧.document n ≡ number n }
    ensures of_u64 { (n : ℕ) → ⟦<u64 as uDebug>⟧.document n ≡ number n }
    ensures of_u128 { (n : ℕ) → ⟦<u128 as uDebug>⟧.document n ≡ number n }
    ensures of_usize { (n : ℕ) → ⟦<usize as uDebug>⟧.document n ≡ number n }
    ensures of_i8 { (z : ℤ) → ⟦<i8 as uDebug>⟧.document z ≡ integer z }
    ensures of_i16 { (z : ℤ) → ⟦<i16 as uDebug>⟧.document z ≡ integer z }
    ensures of_i32 { (z : ℤ) → ⟦<i32 as uDebug>⟧.document z ≡ integer z }
    ensures of_i64 { (z : ℤ) → ⟦<i64 as uDebug>⟧.document z ≡ integer z }
    ensures of_i128 { (z : ℤ) → ⟦<i128 as uDebug>⟧.document z ≡ integer z }
    ensures of_isize { (z : ℤ) → ⟦<isize as uDebug>⟧.document z ≡ integer z }
    ensures of_nonzero_u8 { (x : NonZeroU8) → ⟦<NonZeroU8 as uDebug>⟧.document x ≡
        number (non_zero_u8_get x) }
    ensures of_nonzero_u16 { (x : NonZeroU16) → ⟦<NonZeroU16 as uDebug>⟧.document x ≡
        number (non_zero_u16_get x) }
    ensures of_nonzero_u32 { (x : NonZeroU32) → ⟦<NonZeroU32 as uDebug>⟧.document x ≡
        number (non_zero_u32_get x) }
    ensures of_nonzero_u64 { (x : NonZeroU64) → ⟦<NonZeroU64 as uDebug>⟧.document x ≡
        number (non_zero_u64_get x) }
    ensures of_nonzero_u128 { (x : NonZeroU128) → ⟦<NonZeroU128 as uDebug>⟧.document x ≡
        number (non_zero_u128_get x) }
    ensures of_nonzero_usize { (x : NonZeroUsize) → ⟦<NonZeroUsize as uDebug>⟧.document x ≡
        number (non_zero_usize_get x) }
    ensures of_nonzero_i8 { (x : NonZeroI8) → ⟦<NonZeroI8 as uDebug>⟧.document x ≡
        integer (non_zero_i8_get x) }
    ensures of_nonzero_i16 { (x : NonZeroI16) → ⟦<NonZeroI16 as uDebug>⟧.document x ≡
        integer (non_zero_i16_get x) }
    ensures of_nonzero_i32 { (x : NonZeroI32) → ⟦<NonZeroI32 as uDebug>⟧.document x ≡
        integer (non_zero_i32_get x) }
    ensures of_nonzero_i64 { (x : NonZeroI64) → ⟦<NonZeroI64 as uDebug>⟧.document x ≡
        integer (non_zero_i64_get x) }
    ensures of_nonzero_i128 { (x : NonZeroI128) → ⟦<NonZeroI128 as uDebug>⟧.document x ≡
        integer (non_zero_i128_get x) }
    ensures of_nonzero_isize { (x : NonZeroIsize) → ⟦<NonZeroIsize as uDebug>⟧.document x ≡
        integer (non_zero_isize_get x) }
    ensures of_true { ⟦<bool as uDebug>⟧.document true ≡ named "true" }
    ensures of_false { ⟦<bool as uDebug>⟧.document false ≡ named "false" }
    ensures of_unit { (u : Unit {0}) → ⟦<() as uDebug>⟧.document u ≡ named "()" }
    ensures of_none { ⟦<Option<T> as uDebug>⟧.document None ≡ named "None" }
{}

/// The document of a text is its leaf in quotation marks. The document of a character is its leaf in
/// apostrophes. Some characters of ASCII have escapes.
pub fn documents_of_texts<A: Allocator>()
    ensures of_str { (s : Bor (List ℕ)) → ⟦<&'static str as uDebug>⟧.document s ≡
        leaf (quoted_text (chars s.now)) }
    ensures of_string { (s : String A) → ⟦<String<A> as uDebug>⟧.document s ≡
        leaf (quoted_text (chars (string_bytes s))) }
    ensures of_char { (c : ℕ) → ⟦<char as uDebug>⟧.document c ≡ leaf (quoted_char c) }
{}

/// The document of `Some`, `Ok` or `Err` is a tuple of that name. The document of a sequence is the list
/// of its items, in order.
pub fn documents_of_collections<T: uDebug, U: uDebug, A: Allocator, const N: usize>()
    ensures of_some { (x : T) → ⟦<Option<T> as uDebug>⟧.document (Some x) ≡
        named_tuple "Some" (T.document x ∷ []) }
    ensures of_ok { (x : T) → ⟦<Result<T, U> as uDebug>⟧.document (Ok x) ≡
        named_tuple "Ok" (T.document x ∷ []) }
    ensures of_err { (x : U) → ⟦<Result<T, U> as uDebug>⟧.document (Err x) ≡
        named_tuple "Err" (U.document x ∷ []) }
    ensures of_mut_slice { ⟦<&'static mut [T] as uDebug>⟧.document ≡
        (λ xs. list_of (documents (map T.document xs.now))) }
    ensures of_slice { ⟦<&'static [T] as uDebug>⟧.document ≡
        (λ xs. list_of (documents (map T.document xs.now))) }
    ensures of_array { ⟦<[T; N] as uDebug>⟧.document ≡
        (λ xs. list_of (documents (map T.document xs))) }
    ensures of_vec { ⟦<Vec<T, A> as uDebug>⟧.document ≡
        (λ xs. list_of (documents (map T.document xs.items))) }
{}

/// The document of a set is the set of its items. The document of a map is the map of its entries, in
/// the order of their keys.
pub fn documents_of_sorted_collections<K: uDebug + Ord, V: uDebug, A: Allocator>()
    ensures of_set { ⟦<BTreeSet<K, A> as uDebug>⟧.document ≡
        (λ xs. set_of (documents (map K.document xs.keys))) }
    ensures of_map { ⟦<BTreeMap<K, V, A> as uDebug>⟧.document ≡
        (λ es. map_of (pairs_of (map (λ e. (K.document e.0, V.document e.1)) es.entries))) }
{}

/// The document of a value that is shared, lent by a cell, or borrowed until it is written to is that of
/// the value. The document of such a text or slice is that of a text or a list.
pub fn documents_of_shared_values<T: uDebug, A: Allocator>()
    ensures of_rc { ⟦<Rc<T, A> as uDebug>⟧.document ≡ (λ x. T.document x.value) }
    ensures of_weak { ⟦<Weak<T, A> as uDebug>⟧.document ≡ (λ _. named "(Weak)") }
    ensures of_arc { ⟦<Arc<T, A> as uDebug>⟧.document ≡ (λ x. T.document (arc_value x)) }
    ensures of_cow { ⟦<Cow<'static, T> as uDebug>⟧.document ≡ (λ x. T.document (cow_value x)) }
    ensures of_ref { ⟦<Ref<'static, T> as uDebug>⟧.document ≡ (λ x. T.document (ref_value x)) }
    ensures of_ref_mut { ⟦<RefMut<'static, T> as uDebug>⟧.document ≡
        (λ x. T.document (ref_mut_value x)) }
    ensures of_rc_str { ⟦<RcStr<A> as uDebug>⟧.document ≡
        (λ s. leaf (quoted_text (chars (rc_str_bytes s)))) }
    ensures of_arc_str { ⟦<ArcStr<A> as uDebug>⟧.document ≡
        (λ s. leaf (quoted_text (chars (arc_str_bytes s)))) }
    ensures of_cow_str { ⟦<CowStr<'static, A> as uDebug>⟧.document ≡
        (λ s. leaf (quoted_text (chars (cow_str_bytes s)))) }
    ensures of_boxed_str { ⟦<BoxedStr<A> as uDebug>⟧.document ≡
        (λ s. leaf (quoted_text (chars (boxed_str_bytes s)))) }
    ensures of_rc_slice { ⟦<RcSlice<T, A> as uDebug>⟧.document ≡
        (λ xs. list_of (documents (map T.document (rc_slice_items xs)))) }
    ensures of_arc_slice { ⟦<ArcSlice<T, A> as uDebug>⟧.document ≡
        (λ xs. list_of (documents (map T.document (arc_slice_items xs)))) }
    ensures of_cow_slice { ⟦<CowSlice<'static, T, A> as uDebug>⟧.document ≡
        (λ xs. list_of (documents (map T.document (cow_slice_items xs)))) }
    ensures of_boxed_slice { ⟦<BoxedSlice<T, A> as uDebug>⟧.document ≡
        (λ xs. list_of (documents (map T.document (boxed_slice_items xs)))) }
{}

/// The document of a queue, a linked list or a heap is the list of its items. That of a hashed set or
/// map is the set or the map of its items. They are in the order of iteration.
pub fn documents_of_unsorted_collections<
    K: uDebug + Eq + Hash,
    V: uDebug,
    T: uDebug + Ord,
    S: BuildHasher,
    A: Allocator,
>()
    ensures of_queue { ⟦<VecDeque<V, A> as uDebug>⟧.document ≡
        (λ xs. list_of (documents (map V.document xs.items))) }
    ensures of_linked_list { ⟦<LinkedList<V, A> as uDebug>⟧.document ≡
        (λ xs. list_of (documents (map V.document xs))) }
    ensures of_heap { ⟦<BinaryHeap<T, A> as uDebug>⟧.document ≡
        (λ xs. list_of (documents (map T.document (heap_items xs)))) }
    ensures of_set { ⟦<HashSet<K, S, A> as uDebug>⟧.document ≡
        (λ xs. set_of (documents (map K.document xs.keys))) }
    ensures of_map { ⟦<HashMap<K, V, S, A> as uDebug>⟧.document ≡
        (λ es. map_of (pairs_of (map (λ e. (K.document e.0, V.document e.1)) es.entries))) }
{}

/// The document of a range has those of its ends, in order, around the dots. That of an inclusive range
/// says so after it gave its last value.
pub fn documents_of_ranges<T: uDebug + PartialOrd>()
    ensures of_range { ⟦<Range<T> as uDebug>⟧.document ≡
        (λ r. between (T.document r.start) (codes "..") (T.document r.end)) }
    ensures of_range_inclusive { ⟦<RangeInclusive<T> as uDebug>⟧.document ≡
        range_inclusive_document T.document T.partial_cmp }
    ensures of_range_from { ⟦<RangeFrom<T> as uDebug>⟧.document ≡
        (λ r. before (T.document r.start) (codes "..")) }
    ensures of_range_to { ⟦<RangeTo<T> as uDebug>⟧.document ≡
        (λ r. after (codes "..") (T.document r.end)) }
    ensures of_range_to_inclusive { ⟦<RangeToInclusive<T> as uDebug>⟧.document ≡
        (λ r. after (codes "..=") (T.document r.end)) }
    ensures of_range_full { ⟦<RangeFull as uDebug>⟧.document ≡ (λ _. named "..") }
{}

/// The document of a number whose operators wrap or saturate is that of the number. A variant's document
/// is its name, or a tuple of that name.
pub fn documents_of_wrappers<T: uDebug, U: uDebug>()
    ensures of_wrapping { ⟦<Wrapping<T> as uDebug>⟧.document ≡ (λ x. T.document x.0) }
    ensures of_saturating { ⟦<Saturating<T> as uDebug>⟧.document ≡ (λ x. T.document x.0) }
    ensures of_reverse { ⟦<Reverse<T> as uDebug>⟧.document ≡
        (λ x. named_tuple "Reverse" (T.document x.0 ∷ [])) }
    ensures of_less { ⟦<Ordering as uDebug>⟧.document Less ≡ named "Less" }
    ensures of_equal { ⟦<Ordering as uDebug>⟧.document Equal ≡ named "Equal" }
    ensures of_greater { ⟦<Ordering as uDebug>⟧.document Greater ≡ named "Greater" }
    ensures of_included { (x : T) → ⟦<Bound<T> as uDebug>⟧.document (Included x) ≡
        named_tuple "Included" (T.document x ∷ []) }
    ensures of_excluded { (x : T) → ⟦<Bound<T> as uDebug>⟧.document (Excluded x) ≡
        named_tuple "Excluded" (T.document x ∷ []) }
    ensures of_unbounded { ⟦<Bound<T> as uDebug>⟧.document Unbounded ≡ named "Unbounded" }
    ensures of_continue { (x : U) → ⟦<ControlFlow<T, U> as uDebug>⟧.document (Continue x) ≡
        named_tuple "Continue" (U.document x ∷ []) }
    ensures of_break { (x : T) → ⟦<ControlFlow<T, U> as uDebug>⟧.document (Break x) ≡
        named_tuple "Break" (T.document x ∷ []) }
{}

/// The document of what was read of a cell is a struct of the cell's name, with the value as its field.
pub fn documents_of_cell_values<T: uDebug>()
    ensures of_cell_value { ⟦<CellValue<T> as uDebug>⟧.document ≡
        (λ c. named_struct "Cell" (("value", T.document c.0) ∷ [])) }
    ensures of_held { (r : Ref T) → ⟦<RefCellValue<'static, T> as uDebug>⟧.document (Held r) ≡
        named_struct "RefCell" (("value", T.document (ref_value r)) ∷ []) }
    ensures of_borrowed { ⟦<RefCellValue<'static, T> as uDebug>⟧.document Borrowed ≡
        named_struct "RefCell" (("value", named "<borrowed>") ∷ []) }
{}

// Promise (printing): A block is its name, its opening, its entries and its ending, all from one table.
/// The layout of a block is its name and opening, its entries in a row, and its ending, in each mode and
/// at each depth. The ending of a struct may be dots. The calls of its builder write these texts.
pub fn blocks_are_their_parts()
    ensures of_list { (s : Setting) (ds : Documents) → layout s (list_of ds) ≡
        block_in_parts Brackets ([]) s (texts (inside s) ds) }
    ensures of_set { (s : Setting) (ds : Documents) → layout s (set_of ds) ≡
        block_in_parts Braces ([]) s (texts (inside s) ds) }
    ensures of_map { (s : Setting) (ps : Pairs) → layout s (map_of ps) ≡
        block_in_parts Braces ([]) s (pair_texts (inside s) ps) }
    ensures of_struct { (s : Setting) (name : List ℕ) (fs : Fields) → layout s (struct_of name fs) ≡
        block_in_parts Struct name s (field_texts (inside s) fs) }
    ensures of_non_exhaustive { (s : Setting) (name : List ℕ) (fs : Fields) →
        layout s (non_exhaustive_of name fs) ≡ dotted_in_parts name s (field_texts (inside s) fs) }
    ensures of_tuple { (s : Setting) (name : List ℕ) (ds : Documents) → layout s (tuple_of name ds) ≡
        block_in_parts (tuple_kind name) name s (texts (inside s) ds) }
{}

/// A reference prints as the value that it refers to.
pub fn references_print_what_they_refer_to<T: uDebug, A: Allocator>()
    ensures debug { (x : Bor T) → ⟦<&'static T as uDebug>⟧.document x ≡ T.document x.now }
    ensures debug_mut { (x : MutBor T) → ⟦<&'static mut T as uDebug>⟧.document x ≡ T.document
        x.now }
    ensures debug_box { (x : Box T A) → ⟦<Box<T, A> as uDebug>⟧.document x ≡ T.document x.value }
{}
