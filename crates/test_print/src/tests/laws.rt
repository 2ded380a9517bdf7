//! Tests that each law can be called.
use std::alloc::Global;
use std::hash::{BuildHasherDefault, FoldHasher};
use ufmt::laws;

type Hashing = BuildHasherDefault<FoldHasher>;

#[test]
fn laws_of_numbers_and_types_can_be_called() {
    laws::decimal_is_one_text();
    laws::numbers_are_words();
    laws::digits_are_one_text();
    laws::unsigned_prints_hexadecimal();
    laws::signed_prints_as_unsigned();
    laws::padding_reaches_length();
    laws::both_traits_print_one_text();
    laws::references_print_what_they_refer_to::<u8, Global>();
    laws::references_display_what_they_refer_to::<u8, Global>();
    laws::nonzero_prints_one_hexadecimal_text();
    laws::references_print_one_hexadecimal_text::<u8>();
    laws::unsigned_prints_in_each_radix();
    laws::signed_prints_bits_in_each_radix();
    laws::nonzero_prints_one_radix_text();
    laws::references_print_one_radix_text::<u8>();
    laws::zeros_reach_width();
    laws::integers_print_zeros();
    laws::nonzero_prints_zeros();
    laws::references_print_zeros::<u8>();
    laws::decimals_denote_their_values();
    laws::floats_have_one_text();
    laws::float_texts_are_parsed();
    laws::float_texts_are_leaves();
    laws::floats_display_their_texts();
    laws::documents_of_floats();
    laws::pieces_of_lines::<(), ((), ())>();
    laws::texts_display_as_they_are::<Global>();
    laws::documents_of_leaves::<u8>();
    laws::documents_of_collections::<u8, u16, Global, 3>();
    laws::documents_of_sorted_collections::<u8, u16, Global>();
    laws::documents_of_texts::<Global>();
    laws::documents_of_shared_values::<u8, Global>();
    laws::documents_of_unsorted_collections::<u8, u16, i8, Hashing, Global>();
    laws::documents_of_ranges::<u8>();
    laws::documents_of_cell_values::<u8>();
    laws::documents_of_wrappers::<u8, u16>();
    laws::wrappers_display_what_they_hold::<u8, Global>();
    laws::documents_of_tuples::<u8, u16, u32, u64, u128, usize, i8, i16, i32, i64, i128, isize>();
    laws::blocks_are_their_parts();
}

#[test]
fn laws_of_documents_can_be_called() {
    laws::normal_forms();
    laws::shifted_at_depth();
    laws::plain_reads_one_way();
    laws::pretty_reads_one_way();
    laws::texts_determine_normal_forms();
    laws::texts_are_read_exactly();
    laws::quoted_one_way();
    laws::quoted_leaves_are_read_exactly();
    laws::unquoted_as_before();
}
