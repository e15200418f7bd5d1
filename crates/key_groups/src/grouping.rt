//! Items by their keys.

ghost use Rattle.std.specs.Prelude.{◌≡◌, ◌++◌, [], ◌∷◌, None, IfOk, OnOk};
ghost use Rattle.indexmap.specs.IndexMap.{get, insert_index, ContainsKey};
ghost use Rattle.key_groups.specs.Groups.{by_key, with_item};

use hash_keys::HashKeys;
use indexmap::IndexMap;
use indexmap::map::Entry;
use std::alloc::{AllocError, Global};
use std::hash::Hash;
use text_lists::List;

/// The items by their keys, in the order in which the keys first stand; those of one key stand as they stood. Each key is
/// hashed once, with these keys of a hash.
pub fn by_key<K: Eq + Hash + Drop, T: Drop>(
    alloc: Global,
    keys: HashKeys,
    items: Vec<(K, T)>,
) -> Result<Vec<(K, List<T>)>, AllocError>
    ensures { IfOk result (λ groups. groups.items ≡ by_key K.eq items.items) }
{
    let mut groups = IndexMap::with_hasher(alloc, keys);
    for (key, item) in items {
        add(alloc, &mut groups, key, item)?;
    }
    listed(alloc, groups)
}

/// The groups of a map, in its order.
fn listed<K: Eq + Hash + Drop, T: Drop>(
    alloc: Global,
    groups: IndexMap<K, List<T>, HashKeys>,
) -> Result<Vec<(K, List<T>)>, AllocError>
    ensures { IfOk result (λ list. list.items ≡ groups.entries) }
{
    groups.into_iter().collect(alloc)
}

/// Adds an item to the group of its key, or begins one.
fn add<K: Eq + Hash + Drop, T: Drop>(
    alloc: Global,
    groups: &mut IndexMap<K, List<T>, HashKeys>,
    key: K,
    item: T,
) -> Result<(), AllocError>
    ensures { OnOk result (groups.new.entries ≡ with_item K.eq groups.old.entries key item) }
{
    let place = find_or_begin(groups, key, List::new(alloc))?;
    groups[place].push(item)
}

/// The place of a key, which comes in last with no items where it is new.
fn find_or_begin<K: Eq + Hash + Drop, T: Drop>(
    groups: &mut IndexMap<K, List<T>, HashKeys>,
    key: K,
    none: List<T>,
) -> Result<usize, AllocError>
    ensures index { IfOk result (λ place. place ≡ insert_index K.eq groups.old key) }
    ensures found { OnOk result (ContainsKey K.eq groups.old key → groups.new.entries ≡ groups.old.entries) }
    ensures begun { OnOk result (get K.eq groups.old key ≡ None → groups.new.entries ≡ groups.old.entries ++ (key, none) ∷ []) }
{
    match groups.entry(key) {
        Err(_) => Err(AllocError),
        Ok(Entry::Occupied(entry)) => Ok(entry.index()),
        Ok(Entry::Vacant(entry)) => {
            let place = entry.index();
            entry.insert(none);
            Ok(place)
        }
    }
}
