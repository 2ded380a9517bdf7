//! Laws, each as the contract of a function.
ghost use Rattle.std.specs.Prelude.{[], ◌∷◌, is_ok, ◌≡◌, ◌<◌, ◌≤◌, ◌↔◌, ◌++◌, ℕ, ℤ, List, String, Box, length, drop, map, encode_utf8, string_bytes, IsOk, OnOk, OnErr};
ghost use Rattle.ufmt_core.specs.Bytes.{line_feed};
ghost use Rattle.ufmt_core.specs.Decimal.{decimal};
ghost use Rattle.ufmt_core.specs.Document.{leaf};
ghost use Rattle.std.specs.Arc.{arc_str_bytes, arc_value};
ghost use Rattle.std.specs.Borrow.{Bor, MutBor};
ghost use Rattle.std.specs.Box.{boxed_str_bytes};
ghost use Rattle.std.specs.Cow.{cow_str_bytes, cow_value};
ghost use Rattle.std.specs.Int.{w8, w16, w32, w64, w128};
ghost use Rattle.std.specs.Int.NonZero.{non_zero_u8_get, non_zero_u16_get, non_zero_u32_get, non_zero_u64_get, non_zero_u128_get, non_zero_usize_get, non_zero_i8_get, non_zero_i16_get, non_zero_i32_get, non_zero_i64_get, non_zero_i128_get, non_zero_isize_get};
ghost use Rattle.std.specs.Rc.{rc_str_bytes};
ghost use Rattle.std.specs.RefCell.{ref_mut_value, ref_value};
ghost use Rattle.ufmt_core.specs.Formatter.{Prints, setting_of};
ghost use Rattle.ufmt.specs.Column.{ColumnsAreFilled};
ghost use Rattle.ufmt.specs.Pieces.{column, each, hex, pieces_text, pretty, shown, text};
ghost use Rattle.ufmt.specs.declared.hex.HexOptions.{HexOptions};
ghost use Rattle.ufmt.specs.Hex.{PrintsHexadecimal, PrintsBits};
ghost use Rattle.ufmt.specs.Dump.{DigitsHaveTheirWidth, DumpHasEachByte, TextsBeginInOneColumn};

mod floats;
mod numbers;

use crate::column::Column;
use crate::display::uDisplay;
use crate::hex::{HexOptions, uDisplayHex};
use crate::pieces::Line;
use crate::{pieces, uwrite, uwriteln};
pub use floats::{
    floats_display_their_texts, floats_print_decimals, line_of_decimals, uwrite_decimals,
};
pub use numbers::{
    decimals_denote_their_values, digits_are_one_text, integers_print_zeros, line_of_numbers,
    nonzero_prints_one_radix_text, nonzero_prints_zeros, padding_reaches_length,
    references_print_one_radix_text, references_print_zeros, signed_prints_bits_in_each_radix,
    unsigned_prints_in_each_radix, uwrite_numbers, zeros_reach_width,
};
use std::alloc::Allocator;
use std::borrow::{Cow, CowStr};
use std::boxed::BoxedStr;
use std::cell::{Ref, RefMut};
use std::num::{
    NonZeroI8, NonZeroI16, NonZeroI32, NonZeroI64, NonZeroI128, NonZeroIsize, NonZeroU8,
    NonZeroU16, NonZeroU32, NonZeroU64, NonZeroU128, NonZeroUsize, Saturating, Wrapping,
};
use std::rc::{Rc, RcStr};
use std::sync::{Arc, ArcStr};
use ufmt_core::cursor::{Cursor, Full};
pub use ufmt_core::laws::{
    blocks_are_their_parts, decimal_is_one_text, documents_of_cell_values,
    documents_of_collections, documents_of_floats, documents_of_leaves, documents_of_ranges,
    documents_of_shared_values, documents_of_sorted_collections, documents_of_texts,
    documents_of_tuples, documents_of_unsorted_collections, documents_of_wrappers,
    references_print_what_they_refer_to,
};
use ufmt_core::{Formatter, uDebug, uWrite};
pub use ufmt_fixed::laws::nearest_is_closest;
pub use ufmt_float::laws::{float_texts_are_parsed, floats_have_one_text};
pub use ufmt_grammar::laws::{
    float_texts_are_leaves, normal_forms, numbers_are_words, plain_reads_one_way,
    pretty_reads_one_way, quoted_leaves_are_read_exactly, quoted_one_way, shifted_at_depth,
    texts_are_read_exactly, texts_determine_normal_forms, tokens_are_debug, unquoted_as_before,
};

// Promise (buffers): A `Cursor` accepts a piece if and only if it fits, and a refused piece changes nothing.
/// After the loan of a cursor, its buffer begins with the bytes that were written. The others are as
/// before.
pub fn write_to_buffer(buffer: &mut [u8], text: &str) -> Result<(), Full>
    ensures fits { IsOk result ↔ (length text.now ≤ length buffer.old) }
    ensures ok { OnOk result (buffer.new ≡ text.now ++ drop (length text.now) buffer.old) }
    ensures full { OnErr result (buffer.new ≡ buffer.old) }
{
    let mut cursor = Cursor::new(buffer);
    cursor.write_str(text)
}

/// The rows of a dump joined are its bytes, and each has as many as asked, but for the last. The digits of a
/// row are as wide as is said of them. The texts of all rows begin in one column, as long as the offsets are
/// below 2^32.
pub fn dump_rows_have_each_byte()
    ensures rows { DumpHasEachByte }
    ensures width { DigitsHaveTheirWidth }
    ensures column { TextsBeginInOneColumn }
{}

/// An unsigned number prints its hexadecimal text, padded.
pub fn unsigned_prints_hexadecimal()
    ensures of_u8 { PrintsHexadecimal ⟦<u8 as uDisplayHex>⟧.hex_text }
    ensures of_u16 { PrintsHexadecimal ⟦<u16 as uDisplayHex>⟧.hex_text }
    ensures of_u32 { PrintsHexadecimal ⟦<u32 as uDisplayHex>⟧.hex_text }
    ensures of_u64 { PrintsHexadecimal ⟦<u64 as uDisplayHex>⟧.hex_text }
    ensures of_u128 { PrintsHexadecimal ⟦<u128 as uDisplayHex>⟧.hex_text }
    ensures of_usize { PrintsHexadecimal ⟦<usize as uDisplayHex>⟧.hex_text }
{}

/// A signed number prints the hexadecimal text of the unsigned number with its width and bits.
pub fn signed_prints_as_unsigned()
    ensures of_i8 { PrintsBits w8 ⟦<i8 as uDisplayHex>⟧.hex_text ⟦<u8 as uDisplayHex>⟧.hex_text }
    ensures of_i16 { PrintsBits w16 ⟦<i16 as uDisplayHex>⟧.hex_text
        ⟦<u16 as uDisplayHex>⟧.hex_text }
    ensures of_i32 { PrintsBits w32 ⟦<i32 as uDisplayHex>⟧.hex_text
        ⟦<u32 as uDisplayHex>⟧.hex_text }
    ensures of_i64 { PrintsBits w64 ⟦<i64 as uDisplayHex>⟧.hex_text
        ⟦<u64 as uDisplayHex>⟧.hex_text }
    ensures of_i128 { PrintsBits w128 ⟦<i128 as uDisplayHex>⟧.hex_text
        ⟦<u128 as uDisplayHex>⟧.hex_text }
    ensures of_isize { PrintsBits w64 ⟦<isize as uDisplayHex>⟧.hex_text
        ⟦<usize as uDisplayHex>⟧.hex_text }
{}

// Promise (printing): `uDisplay` prints numbers and `bool` as `uDebug` does, except floats. It prints texts
// without quotes, and a wrapper as what it holds. Also: `laws::texts_display_as_they_are`,
// `laws::references_display_what_they_refer_to`, `laws::wrappers_display_what_they_hold`.
/// A whole number, a nonzero number and a truth value print the same text by `uDebug` and `uDisplay`.
pub fn both_traits_print_one_text()
    ensures of_u8 { ⟦<u8 as uDisplay>⟧.display ≡ ⟦<u8 as uDebug>⟧.document }
    ensures of_u16 { ⟦<u16 as uDisplay>⟧.display ≡ ⟦<u16 as uDebug>⟧.document }
    ensures of_u32 { ⟦<u32 as uDisplay>⟧.display ≡ ⟦<u32 as uDebug>⟧.document }
    ensures of_u64 { ⟦<u64 as uDisplay>⟧.display ≡ ⟦<u64 as uDebug>⟧.document }
    ensures of_u128 { ⟦<u128 as uDisplay>⟧.display ≡ ⟦<u128 as uDebug>⟧.document }
    ensures of_usize { ⟦<usize as uDisplay>⟧.display ≡ ⟦<usize as uDebug>⟧.document }
    ensures of_i8 { ⟦<i8 as uDisplay>⟧.display ≡ ⟦<i8 as uDebug>⟧.document }
    ensures of_i16 { ⟦<i16 as uDisplay>⟧.display ≡ ⟦<i16 as uDebug>⟧.document }
    ensures of_i32 { ⟦<i32 as uDisplay>⟧.display ≡ ⟦<i32 as uDebug>⟧.document }
    ensures of_i64 { ⟦<i64 as uDisplay>⟧.display ≡ ⟦<i64 as uDebug>⟧.document }
    ensures of_i128 { ⟦<i128 as uDisplay>⟧.display ≡ ⟦<i128 as uDebug>⟧.document }
    ensures of_isize { ⟦<isize as uDisplay>⟧.display ≡ ⟦<isize as uDebug>⟧.document }
    ensures of_nonzero_u8 { ⟦<NonZeroU8 as uDisplay>⟧.display ≡ ⟦<NonZeroU8 as uDebug>⟧.document }
    ensures of_nonzero_u16 { ⟦<NonZeroU16 as uDisplay>⟧.display ≡
        ⟦<NonZeroU16 as uDebug>⟧.document }
    ensures of_nonzero_u32 { ⟦<NonZeroU32 as uDisplay>⟧.display ≡
        ⟦<NonZeroU32 as uDebug>⟧.document }
    ensures of_nonzero_u64 { ⟦<NonZeroU64 as uDisplay>⟧.display ≡
        ⟦<NonZeroU64 as uDebug>⟧.document }
    ensures of_nonzero_u128 { ⟦<NonZeroU128 as uDisplay>⟧.display ≡
        ⟦<NonZeroU128 as uDebug>⟧.document }
    ensures of_nonzero_usize { ⟦<NonZeroUsize as uDisplay>⟧.display ≡
        ⟦<NonZeroUsize as uDebug>⟧.document }
    ensures of_nonzero_i8 { ⟦<NonZeroI8 as uDisplay>⟧.display ≡ ⟦<NonZeroI8 as uDebug>⟧.document }
    ensures of_nonzero_i16 { ⟦<NonZeroI16 as uDisplay>⟧.display ≡
        ⟦<NonZeroI16 as uDebug>⟧.document }
    ensures of_nonzero_i32 { ⟦<NonZeroI32 as uDisplay>⟧.display ≡
        ⟦<NonZeroI32 as uDebug>⟧.document }
    ensures of_nonzero_i64 { ⟦<NonZeroI64 as uDisplay>⟧.display ≡
        ⟦<NonZeroI64 as uDebug>⟧.document }
    ensures of_nonzero_i128 { ⟦<NonZeroI128 as uDisplay>⟧.display ≡
        ⟦<NonZeroI128 as uDebug>⟧.document }
    ensures of_nonzero_isize { ⟦<NonZeroIsize as uDisplay>⟧.display ≡
        ⟦<NonZeroIsize as uDebug>⟧.document }
    ensures of_bool { ⟦<bool as uDisplay>⟧.display ≡ ⟦<bool as uDebug>⟧.document }
{}

/// A reference is displayed as the value that it refers to.
pub fn references_display_what_they_refer_to<T: uDisplay, A: Allocator>()
    ensures display { (x : Bor T) → ⟦<&'static T as uDisplay>⟧.display x ≡ T.display x.now }
    ensures display_mut { (x : MutBor T) → ⟦<&'static mut T as uDisplay>⟧.display x ≡ T.display
        x.now }
    ensures display_box { (x : Box T A) → ⟦<Box<T, A> as uDisplay>⟧.display x ≡ T.display x.value }
{}

/// A value that is shared, lent by a cell, or borrowed until it is written to is displayed as the value,
/// and so is a number whose operators wrap or saturate. Such a text is displayed as it is.
pub fn wrappers_display_what_they_hold<T: uDisplay, A: Allocator>()
    ensures of_rc { ⟦<Rc<T, A> as uDisplay>⟧.display ≡ (λ x. T.display x.value) }
    ensures of_arc { ⟦<Arc<T, A> as uDisplay>⟧.display ≡ (λ x. T.display (arc_value x)) }
    ensures of_cow { ⟦<Cow<'static, T> as uDisplay>⟧.display ≡ (λ x. T.display (cow_value x)) }
    ensures of_ref { ⟦<Ref<'static, T> as uDisplay>⟧.display ≡ (λ x. T.display (ref_value x)) }
    ensures of_ref_mut { ⟦<RefMut<'static, T> as uDisplay>⟧.display ≡
        (λ x. T.display (ref_mut_value x)) }
    ensures of_wrapping { ⟦<Wrapping<T> as uDisplay>⟧.display ≡ (λ x. T.display x.0) }
    ensures of_saturating { ⟦<Saturating<T> as uDisplay>⟧.display ≡ (λ x. T.display x.0) }
    ensures of_rc_str { ⟦<RcStr<A> as uDisplay>⟧.display ≡ (λ s. leaf (rc_str_bytes s)) }
    ensures of_arc_str { ⟦<ArcStr<A> as uDisplay>⟧.display ≡ (λ s. leaf (arc_str_bytes s)) }
    ensures of_cow_str { ⟦<CowStr<'static, A> as uDisplay>⟧.display ≡
        (λ s. leaf (cow_str_bytes s)) }
    ensures of_boxed_str { ⟦<BoxedStr<A> as uDisplay>⟧.display ≡ (λ s. leaf (boxed_str_bytes s)) }
{}

/// A nonzero number prints the hexadecimal text of the number in it.
pub fn nonzero_prints_one_hexadecimal_text()
    ensures of_u8 { (x : NonZeroU8) → ⟦<NonZeroU8 as uDisplayHex>⟧.hex_text x ≡
        ⟦<u8 as uDisplayHex>⟧.hex_text (non_zero_u8_get x) }
    ensures of_u16 { (x : NonZeroU16) → ⟦<NonZeroU16 as uDisplayHex>⟧.hex_text x ≡
        ⟦<u16 as uDisplayHex>⟧.hex_text (non_zero_u16_get x) }
    ensures of_u32 { (x : NonZeroU32) → ⟦<NonZeroU32 as uDisplayHex>⟧.hex_text x ≡
        ⟦<u32 as uDisplayHex>⟧.hex_text (non_zero_u32_get x) }
    ensures of_u64 { (x : NonZeroU64) → ⟦<NonZeroU64 as uDisplayHex>⟧.hex_text x ≡
        ⟦<u64 as uDisplayHex>⟧.hex_text (non_zero_u64_get x) }
    ensures of_u128 { (x : NonZeroU128) → ⟦<NonZeroU128 as uDisplayHex>⟧.hex_text x ≡
        ⟦<u128 as uDisplayHex>⟧.hex_text (non_zero_u128_get x) }
    ensures of_usize { (x : NonZeroUsize) → ⟦<NonZeroUsize as uDisplayHex>⟧.hex_text x ≡
        ⟦<usize as uDisplayHex>⟧.hex_text (non_zero_usize_get x) }
    ensures of_i8 { (x : NonZeroI8) → ⟦<NonZeroI8 as uDisplayHex>⟧.hex_text x ≡
        ⟦<i8 as uDisplayHex>⟧.hex_text (non_zero_i8_get x) }
    ensures of_i16 { (x : NonZeroI16) → ⟦<NonZeroI16 as uDisplayHex>⟧.hex_text x ≡
        ⟦<i16 as uDisplayHex>⟧.hex_text (non_zero_i16_get x) }
    ensures of_i32 { (x : NonZeroI32) → ⟦<NonZeroI32 as uDisplayHex>⟧.hex_text x ≡
        ⟦<i32 as uDisplayHex>⟧.hex_text (non_zero_i32_get x) }
    ensures of_i64 { (x : NonZeroI64) → ⟦<NonZeroI64 as uDisplayHex>⟧.hex_text x ≡
        ⟦<i64 as uDisplayHex>⟧.hex_text (non_zero_i64_get x) }
    ensures of_i128 { (x : NonZeroI128) → ⟦<NonZeroI128 as uDisplayHex>⟧.hex_text x ≡
        ⟦<i128 as uDisplayHex>⟧.hex_text (non_zero_i128_get x) }
    ensures of_isize { (x : NonZeroIsize) → ⟦<NonZeroIsize as uDisplayHex>⟧.hex_text x ≡
        ⟦<isize as uDisplayHex>⟧.hex_text (non_zero_isize_get x) }
{}

/// A reference prints the hexadecimal text of the value that it refers to, and so does a number whose
/// operators wrap or saturate.
pub fn references_print_one_hexadecimal_text<T: uDisplayHex>()
    ensures of_ref { (x : Bor T) → ⟦<&'static T as uDisplayHex>⟧.hex_text x ≡ T.hex_text x.now }
    ensures of_ref_mut { (x : MutBor T) → ⟦<&'static mut T as uDisplayHex>⟧.hex_text x ≡
        T.hex_text x.now }
    ensures of_wrapping { ⟦<Wrapping<T> as uDisplayHex>⟧.hex_text ≡ (λ x. T.hex_text x.0) }
    ensures of_saturating { ⟦<Saturating<T> as uDisplayHex>⟧.hex_text ≡ (λ x. T.hex_text x.0) }
{}

/// `()` is the line without a piece, and a pair of lines has the pieces of both, in order.
pub fn pieces_of_lines<A: Line, B: Line>()
    ensures of_unit { (u : Unit {0}) → ⟦<() as Line>⟧.pieces u ≡ [] }
    ensures of_pair { (c : A × B) → ⟦<(A, B) as Line>⟧.pieces c ≡ A.pieces c.0 ++ B.pieces c.1 }
{}

/// A character and a text are displayed as they are: each is the leaf of its bytes.
pub fn texts_display_as_they_are<A: Allocator>()
    ensures of_char { (c : ℕ) → ⟦<char as uDisplay>⟧.display c ≡ leaf (encode_utf8 c) }
    ensures of_str { (s : Bor (List ℕ)) → ⟦<&'static str as uDisplay>⟧.display s ≡ leaf s.now }
    ensures of_string { (s : String A) → ⟦<String<A> as uDisplay>⟧.display s ≡
        leaf (string_bytes s) }
{}

/// Writes `uwrite!(f, text t, display a, debug b, pretty c, hex n with options)`, a piece of each kind.
pub fn all_pieces<W: uWrite, A: uDisplay, B: uDebug, C: uDebug, N: uDisplayHex>(
    f: &mut Formatter<W>,
    t: &str,
    a: &A,
    b: &B,
    c: &C,
    n: &N,
    options: HexOptions,
) -> Result<(), W::Error>
    requires { options.pad_char < 128 }
    ensures { Prints W.seen f.old
        (pieces_text (setting_of f.old)
        (text t.now ∷ shown (A.display a.now) ∷ shown (B.document b.now) ∷ pretty (C.document c.now)
        ∷ hex (N.hex_text n.now options) ∷ []))
        (is_ok result) f.new }
{
    uwrite!(f, text t, display a, debug b, pretty c, hex n with options)
}

/// Writes `uwriteln!(f, text t, display a, debug b)`: the pieces, and after them a line feed.
pub fn line_feed_comes_last<W: uWrite, A: uDisplay, B: uDebug>(
    f: &mut Formatter<W>,
    t: &str,
    a: &A,
    b: &B,
) -> Result<(), W::Error>
    ensures { Prints W.seen f.old
        (pieces_text (setting_of f.old)
        (text t.now ∷ shown (A.display a.now) ∷ shown (B.document b.now) ∷ text (line_feed ∷ []) ∷ []))
        (is_ok result) f.new }
{
    uwriteln!(f, text t, display a, debug b)
}

/// Writes `pieces!(text t, display a, debug b, pretty c, hex n with options, each debug bs between t,
/// each hex ns with options between t)`, a piece of each kind.
pub fn line_of_all_pieces<W: uWrite, A: uDisplay, B: uDebug, C: uDebug, N: uDisplayHex>(
    f: &mut Formatter<W>,
    t: &str,
    a: &A,
    b: &B,
    c: &C,
    n: &N,
    bs: &[B],
    ns: &[N],
    options: HexOptions,
) -> Result<(), W::Error>
    requires { options.pad_char < 128 }
    ensures { Prints W.seen f.old
        (pieces_text (setting_of f.old)
        (text t.now ∷ shown (A.display a.now) ∷ shown (B.document b.now) ∷ pretty (C.document c.now)
        ∷ hex (N.hex_text n.now options)
        ∷ each t.now (map (λ x. shown (B.document x) ∷ []) bs.now)
        ∷ each t.now (map (λ x. hex (N.hex_text x options) ∷ []) ns.now) ∷ []))
        (is_ok result) f.new }
{
    pieces!(
        text t, display a, debug b, pretty c, hex n with options,
        each debug bs between t, each hex ns with options between t
    )
    .print(f)
}

// Promise (lines): A text in a column is padded to the width in characters, on the side that `align` names. A
// longer text isn't padded. Also: `laws::line_of_all_columns`, `laws::columns_are_filled`,
// `ufmt_core::Formatter::with_writer`.
/// Writes `uwrite!(f, display a in within, debug b in within, pretty c in within, hex n with options in
/// within)`, a piece of each kind in a column.
pub fn all_columns<W: uWrite, A: uDisplay, B: uDebug, C: uDebug, N: uDisplayHex>(
    f: &mut Formatter<W>,
    a: &A,
    b: &B,
    c: &C,
    n: &N,
    options: HexOptions,
    within: Column,
) -> Result<(), W::Error>
    requires { options.pad_char < 128 }
    ensures { Prints W.seen f.old
        (pieces_text (setting_of f.old)
        (column within (shown (A.display a.now) ∷ []) ∷ column within (shown (B.document b.now) ∷ [])
        ∷ column within (pretty (C.document c.now) ∷ [])
        ∷ column within (hex (N.hex_text n.now options) ∷ []) ∷ []))
        (is_ok result) f.new }
{
    uwrite!(
        f, display a in within, debug b in within, pretty c in within,
        hex n with options in within
    )
}

/// Writes `pieces!(display a in within, debug b in within, pretty c in within, hex n with options in
/// within, each debug bs in within between t, each hex ns with options in within between t)`.
pub fn line_of_all_columns<W: uWrite, A: uDisplay, B: uDebug, C: uDebug, N: uDisplayHex>(
    f: &mut Formatter<W>,
    t: &str,
    a: &A,
    b: &B,
    c: &C,
    n: &N,
    bs: &[B],
    ns: &[N],
    options: HexOptions,
    within: Column,
) -> Result<(), W::Error>
    requires { options.pad_char < 128 }
    ensures { Prints W.seen f.old
        (pieces_text (setting_of f.old)
        (column within (shown (A.display a.now) ∷ []) ∷ column within (shown (B.document b.now) ∷ [])
        ∷ column within (pretty (C.document c.now) ∷ [])
        ∷ column within (hex (N.hex_text n.now options) ∷ [])
        ∷ each t.now (map (λ x. column within (shown (B.document x) ∷ []) ∷ []) bs.now)
        ∷ each t.now (map (λ x. column within (hex (N.hex_text x options) ∷ []) ∷ []) ns.now) ∷ []))
        (is_ok result) f.new }
{
    pieces!(
        display a in within, debug b in within, pretty c in within, hex n with options in within,
        each debug bs in within between t, each hex ns with options in within between t
    )
    .print(f)
}

/// A text in a column has as many characters as the column is wide, or its own number if that is more.
#[tactic(auto, using(crate::proofs::Columns::columns_are_filled))]
pub fn columns_are_filled()
    ensures { ColumnsAreFilled }
{}
