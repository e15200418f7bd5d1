//! The one look-up of a call that may add a key: the index of the key, which goes last, with the fresh
//! value, where it is new. The key is hashed once.
ghost use Rattle.std.specs.Prelude.{◌≡◌, ◌+◌, ◌++◌, [], ◌∷◌, None, IfOk, OnOk, OnErr};
ghost use Rattle.indexmap.specs.IndexMap.{get, insert_index, ContainsKey, IsUnique};

use hash_keys::HashKeys;
use indexmap::IndexMap;
use indexmap::map::Entry;
use probe_steps::Steps;
use std::alloc::AllocError;
use std::hash::Hash;
use std::sync::ledger::Ledger;

pub fn find_or_push<K: Eq + Hash + Drop, V: Drop, L: Ledger>(
    map: &mut IndexMap<K, V, HashKeys>,
    key: K,
    fresh: V,
    steps: &mut Steps<L>,
) -> Result<usize, AllocError>
    ensures index { IfOk result (λ place. place ≡ insert_index K.eq map.old key) }
    ensures found { OnOk result (ContainsKey K.eq map.old key → map.new.entries ≡ map.old.entries) }
    ensures pushed { OnOk result (get K.eq map.old key ≡ None → map.new.entries ≡ map.old.entries ++ (key, fresh) ∷ []) }

    // Only a new key can fail.
    ensures absent { OnErr result (get K.eq map.old key ≡ None) }
    ensures err { OnErr result (map.new.entries ≡ map.old.entries) }
    ensures unique { IsUnique K.eq map.new }
    ensures probes { steps.new ≡ steps.old + 1 }
{
    steps.tick();
    match map.entry(key) {
        Err(_) => Err(AllocError),
        Ok(Entry::Occupied(entry)) => Ok(entry.index()),
        Ok(Entry::Vacant(entry)) => {
            let place = entry.index();
            entry.insert(fresh);
            Ok(place)
        }
    }
}
