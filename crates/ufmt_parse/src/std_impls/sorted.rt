//! Sets and maps, whose keys ascend.
ghost use Rattle.std.specs.List.Sorted.{IsStrictlySortedBy};
ghost use Rattle.std.specs.Map.{keys_of};
ghost use Rattle.std.specs.Prelude.{◌≤◌, length, ◌≡◌, map, All, IfOk};
ghost use Rattle.ufmt.specs.Document.{documents, map_of, pairs_of, set_of};
ghost use Rattle.ufmt.specs.Layout.{layout};
ghost use Rattle.ufmt_parser.specs.Blocks.{entry_documents, IsEntry};
ghost use Rattle.ufmt_parser.specs.Taking.{Fits, Takes, open_blocks, rest, setting_in};

use crate::keys::ParseKey;
use crate::uparse::{ByType, uParse};
use std::alloc::Allocator;
use std::collections::{BTreeMap, BTreeSet};
use ufmt_parser::ascending::{ascending_map, ascending_set};
use ufmt_parser::blocks::{parse_keys, parse_pairs};
use ufmt_parser::entries::{Pair, Value};
use ufmt_parser::mode::ParseMode;
use ufmt_parser::need::Need;
use ufmt_parser::parser::{Fault, Parser};

impl<A: Allocator + Copy, T: ParseKey<A>> uParse<A> for BTreeSet<T, A> {
    ghost is_value = { λ set. All T.is_value set.keys × IsStrictlySortedBy T.cmp set.keys };

    fn prove_value(&self) {
        // The clause of `len` says that the keys ascend.
        let _ = self.len();
        for key in self.iter() {
            key.prove_value();
        }
    }

    fn parse_from<M: ParseMode>(
        alloc: A,
        parser: &mut Parser<'_, M>,
    ) -> Result<BTreeSet<T, A>, Fault> {
        parse_set(alloc, parser)
    }
}

// Takes a set, whose keys ascend.
fn parse_set<A: Allocator + Copy, T: ParseKey<A>, M: ParseMode>(
    alloc: A,
    parser: &mut Parser<'_, M>,
) -> Result<BTreeSet<T, A>, Fault>
    ensures takes { Takes (λ set. (All T.is_value set.keys × IsStrictlySortedBy T.cmp set.keys)
        × Fits (open_blocks parser.old) (set_of (documents (map T.document set.keys))))
        (λ set. layout (setting_in M.mode (open_blocks parser.old)) (set_of (documents (map T.document set.keys))))
        (rest parser.old) result (rest parser.new) }
    ensures blocks { IfOk result (λ _. open_blocks parser.new ≡ open_blocks parser.old) }
    ensures shrinks { length (rest parser.new) ≤ length (rest parser.old) }
{
    T::prove_key();
    let start = parser.rest();
    let keys = tri!(parse_keys(alloc, parser, &Value(ByType)));
    match ascending_set(alloc, keys) {
        Err(_) => Err(Fault::OutOfMemory),
        Ok(None) => {
            parser.skip_to(start);
            Err(parser.refuse(Need::Order))
        }
        Ok(Some(set)) => Ok(set),
    }
}

impl<A: Allocator + Copy, K: ParseKey<A>, V: uParse<A>> uParse<A> for BTreeMap<K, V, A> {
    ghost is_value = { λ map. All (IsEntry K.is_value V.is_value) map.entries
        × IsStrictlySortedBy K.cmp (keys_of map.entries) };

    fn prove_value(&self) {
        // The clause of `len` says that the keys ascend.
        let _ = self.len();
        for (key, value) in self.iter() {
            key.prove_value();
            value.prove_value();
        }
    }

    fn parse_from<M: ParseMode>(
        alloc: A,
        parser: &mut Parser<'_, M>,
    ) -> Result<BTreeMap<K, V, A>, Fault> {
        parse_map(alloc, parser)
    }
}

// Takes a map, whose keys ascend.
fn parse_map<A: Allocator + Copy, K: ParseKey<A>, V: uParse<A>, M: ParseMode>(
    alloc: A,
    parser: &mut Parser<'_, M>,
) -> Result<BTreeMap<K, V, A>, Fault>
    ensures takes { Takes (λ found. (All (IsEntry K.is_value V.is_value) found.entries
        × IsStrictlySortedBy K.cmp (keys_of found.entries))
        × Fits (open_blocks parser.old) (map_of (pairs_of (map (entry_documents K.document V.document) found.entries))))
        (λ found. layout (setting_in M.mode (open_blocks parser.old))
        (map_of (pairs_of (map (entry_documents K.document V.document) found.entries))))
        (rest parser.old) result (rest parser.new) }
    ensures blocks { IfOk result (λ _. open_blocks parser.new ≡ open_blocks parser.old) }
    ensures shrinks { length (rest parser.new) ≤ length (rest parser.old) }
{
    K::prove_key();
    let start = parser.rest();
    let entries = tri!(parse_pairs(alloc, parser, &Pair(ByType, ByType)));
    match ascending_map(alloc, entries) {
        Err(_) => Err(Fault::OutOfMemory),
        Ok(None) => {
            parser.skip_to(start);
            Err(parser.refuse(Need::Order))
        }
        Ok(Some(map)) => Ok(map),
    }
}
