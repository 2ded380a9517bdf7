//! Blocks of any number of entries.
ghost use Rattle.std.specs.Prelude.{◌≤◌, ◌≡◌, ◌<◌, ◌-◌, ◌++◌, ℕ, List, codes, length, map, All, IfOk, suc};
ghost use Rattle.ufmt_core.specs.Document.{documents, list_of, map_of, pairs_of, set_of};
ghost use Rattle.ufmt_core.specs.Layout.{block_tail, frame, layout};
ghost use Rattle.ufmt_core.specs.declared.layout.Count.TheVariants.{Zero};
ghost use Rattle.ufmt_parser.specs.Blocks.{outcome_map, entry_documents, AreSome, EntriesBegin, EntriesFit, IsBracketed, IsEntry};
ghost use Rattle.ufmt_parser.specs.Taking.{Fits, Takes, open_blocks, rest, setting_in};

use crate::entries::{EntryParser, Pair, Value};
use crate::mode::ParseMode;
use crate::need::Need;
use crate::parser::{Fault, Parser};
use crate::parses_by::ParsesBy;
use std::alloc::Allocator;
use ufmt_core::layout::{Count, Kind};
use ufmt_core::uDebug;

/// Parses a list, each value by this parser.
pub fn parse_list<A: Allocator + Copy, M: ParseMode, T: uDebug + Drop, P: ParsesBy<A, M, T>>(
    alloc: A,
    parser: &mut Parser<'_, M>,
    by: &Value<P>,
) -> Result<Vec<T, A>, Fault>
    requires { open_blocks parser.old < 255 → P.ready by.now.0 (suc (open_blocks parser.old)) }
    ensures takes { Takes (λ values. All P.is_value values
        × Fits (open_blocks parser.old) (list_of (documents (map T.document values))))
        (λ values. layout (setting_in M.mode (open_blocks parser.old)) (list_of (documents (map T.document values))))
        (rest parser.old) (outcome_map (λ values. values.items) result) (rest parser.new) }
    ensures inside { (u : List ℕ) → rest parser.old ≡ codes "[" ++ u → length (rest parser.new) ≤ length u }
    ensures blocks { IfOk result (λ _. open_blocks parser.new ≡ open_blocks parser.old) }
    ensures shrinks { length (rest parser.new) ≤ length (rest parser.old) }
{
    parse_entries(alloc, parser, Kind::Brackets, by)
}

/// Parses the keys of a set, in any order, each by this parser.
pub fn parse_keys<A: Allocator + Copy, M: ParseMode, T: uDebug + Drop, P: ParsesBy<A, M, T>>(
    alloc: A,
    parser: &mut Parser<'_, M>,
    by: &Value<P>,
) -> Result<Vec<T, A>, Fault>
    requires { open_blocks parser.old < 255 → P.ready by.now.0 (suc (open_blocks parser.old)) }
    ensures takes { Takes (λ keys. All P.is_value keys
        × Fits (open_blocks parser.old) (set_of (documents (map T.document keys))))
        (λ keys. layout (setting_in M.mode (open_blocks parser.old)) (set_of (documents (map T.document keys))))
        (rest parser.old) (outcome_map (λ keys. keys.items) result) (rest parser.new) }
    ensures blocks { IfOk result (λ _. open_blocks parser.new ≡ open_blocks parser.old) }
    ensures shrinks { length (rest parser.new) ≤ length (rest parser.old) }
{
    parse_entries(alloc, parser, Kind::Braces, by)
}

/// Parses the entries of a map, in any order, each by this parser.
pub fn parse_pairs<
    A: Allocator + Copy,
    M: ParseMode,
    T: uDebug + Drop,
    U: uDebug + Drop,
    K: ParsesBy<A, M, T>,
    P: ParsesBy<A, M, U>,
>(alloc: A, parser: &mut Parser<'_, M>, by: &Pair<K, P>) -> Result<Vec<(T, U), A>, Fault>
    requires { open_blocks parser.old < 255 → K.ready by.now.0 (suc (open_blocks parser.old))
        × P.ready by.now.1 (suc (open_blocks parser.old)) }
    ensures takes { Takes (λ entries. All (IsEntry K.is_value P.is_value) entries
        × Fits (open_blocks parser.old) (map_of (pairs_of (map (entry_documents T.document U.document) entries))))
        (λ entries. layout (setting_in M.mode (open_blocks parser.old))
        (map_of (pairs_of (map (entry_documents T.document U.document) entries))))
        (rest parser.old) (outcome_map (λ entries. entries.items) result) (rest parser.new) }
    ensures blocks { IfOk result (λ _. open_blocks parser.new ≡ open_blocks parser.old) }
    ensures shrinks { length (rest parser.new) ≤ length (rest parser.old) }
{
    parse_entries(alloc, parser, Kind::Braces, by)
}

/// Parses a block in brackets or braces, each entry by this parser.
pub fn parse_entries<A: Allocator + Copy, M: ParseMode, E: Drop, P: EntryParser<A, M, E>>(
    alloc: A,
    parser: &mut Parser<'_, M>,
    kind: Kind,
    by: &P,
) -> Result<Vec<E, A>, Fault>
    requires bracketed { IsBracketed kind }
    requires begin { EntriesBegin P.fit (P.text by.now) }
    requires ready { open_blocks parser.old < 255 → P.ready by.now (suc (open_blocks parser.old)) }
    ensures takes { Takes (EntriesFit P.fit (open_blocks parser.old))
        (λ entries. (frame M.mode kind).opening
        ++ block_tail (frame M.mode kind) (setting_in M.mode (open_blocks parser.old)) Zero
        (map (P.text by.now (setting_in M.mode (suc (open_blocks parser.old)))) entries))
        (rest parser.old) (outcome_map (λ entries. entries.items) result) (rest parser.new) }
    ensures inside { (u : List ℕ) → rest parser.old ≡ (frame M.mode kind).opening ++ u
        → length (rest parser.new) ≤ length u }
    ensures blocks { IfOk result (λ _. open_blocks parser.new ≡ open_blocks parser.old) }
    ensures shrinks { length (rest parser.new) ≤ length (rest parser.old) }
{
    if !parser.eat(kind.opening()) {
        return Err(Fault::NotText);
    }
    // A block without entries counts no level.
    if parser.eat_empty_ending(kind) {
        return Ok(Vec::new(alloc));
    }
    if !parser.open_block() {
        return Err(parser.refuse(Need::Count));
    }
    let entries = tri!(parse_some(alloc, parser, kind, by));
    parser.close_block();
    Ok(entries)
}

// Parses one entry or more of the innermost block, and its end.
fn parse_some<A: Allocator + Copy, M: ParseMode, E: Drop, P: EntryParser<A, M, E>>(
    alloc: A,
    parser: &mut Parser<'_, M>,
    kind: Kind,
    by: &P,
) -> Result<Vec<E, A>, Fault>
    requires bracketed { IsBracketed kind }
    requires counted { 0 < open_blocks parser.old }
    requires ready { P.ready by.now (open_blocks parser.old) }
    ensures takes { Takes (AreSome (P.fit (open_blocks parser.old)))
        (λ entries. block_tail (frame M.mode kind) (setting_in M.mode (open_blocks parser.old - 1)) Zero
        (map (P.text by.now (setting_in M.mode (open_blocks parser.old))) entries))
        (rest parser.old) (outcome_map (λ entries. entries.items) result) (rest parser.new) }
    ensures blocks { IfOk result (λ _. open_blocks parser.new ≡ open_blocks parser.old) }
    ensures shrinks { length (rest parser.new) ≤ length (rest parser.old) }
{
    if !parser.eat_lead(kind, Count::Zero) {
        return Err(Fault::NotText);
    }
    let mut entries = Vec::new(alloc);
    'entries: loop {
        let entry = tri!(by.parse_entry(alloc, parser));
        match entries.push(entry) {
            Err(_) => return Err(Fault::OutOfMemory),
            Ok(()) => {}
        }
        if !parser.eat(M::mode().trail()) {
            return Err(Fault::NotText);
        }
        if !parser.eat_lead(kind, Count::One) {
            return if parser.eat_ending(kind, Count::One) {
                Ok(entries)
            } else {
                Err(Fault::NotText)
            };
        }
    }
}
