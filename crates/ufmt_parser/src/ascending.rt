//! Sets and maps of keys that ascend.
ghost use Rattle.std.specs.List.Sorted.{IsStrictlySortedBy};
ghost use Rattle.std.specs.Map.{keys_of};
ghost use Rattle.std.specs.Prelude.{◌≡◌, ◌↔◌, IfOk, IsTrue, MatchOption};
ghost use Rattle.ufmt_parser.specs.Blocks.{ComesBefore};

use std::alloc::{AllocError, Allocator};
use std::collections::{BTreeMap, BTreeSet};

/// The set of these keys, if they ascend.
pub fn ascending_set<A: Allocator + Copy, T: Ord + Drop>(
    alloc: A,
    keys: Vec<T, A>,
) -> Result<Option<BTreeSet<T, A>>, AllocError>
    ensures { IfOk result (λ found. MatchOption found (IsStrictlySortedBy T.cmp keys.items → ⊥)
        (λ set. set.keys ≡ keys.items)) }
{
    let mut set = BTreeSet::new(alloc);
    let mut left = keys;
    // From the last key on: each is found to come before all others by one test in each node on the way.
    'keys: while let Some(key) = left.pop() {
        if !is_before_set(&set, &key) {
            return Ok(None);
        }
        set.insert(key)?;
    }
    Ok(Some(set))
}

// Whether the key comes before the first key of the set.
fn is_before_set<A: Allocator, T: Ord>(set: &BTreeSet<T, A>, key: &T) -> bool
    ensures { IsTrue result ↔ ComesBefore T.cmp key.now set.now.keys }
{
    match set.first() {
        Some(first) => key.cmp(first).is_lt(),
        None => true,
    }
}

/// The map of these entries, if their keys ascend.
pub fn ascending_map<A: Allocator + Copy, K: Ord + Drop, V: Drop>(
    alloc: A,
    entries: Vec<(K, V), A>,
) -> Result<Option<BTreeMap<K, V, A>>, AllocError>
    ensures { IfOk result (λ found. MatchOption found (IsStrictlySortedBy K.cmp (keys_of entries.items) → ⊥)
        (λ map. (map.entries ≡ entries.items) × IsStrictlySortedBy K.cmp (keys_of map.entries))) }
{
    let mut map = BTreeMap::new(alloc);
    let mut left = entries;
    // From the last key on, as in a set.
    'entries: while let Some((key, value)) = left.pop() {
        if !is_before_map(&map, &key) {
            return Ok(None);
        }
        map.insert(key, value)?;
    }
    Ok(Some(map))
}

// Whether the key comes before the first key of the map.
fn is_before_map<A: Allocator, K: Ord, V>(map: &BTreeMap<K, V, A>, key: &K) -> bool
    ensures { IsTrue result ↔ ComesBefore K.cmp key.now (keys_of map.now.entries) }
{
    match map.first_key_value() {
        Some((first, _)) => key.cmp(first).is_lt(),
        None => true,
    }
}
