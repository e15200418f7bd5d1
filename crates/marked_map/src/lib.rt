//! A hashed map whose marked keys come first, so that they can be gone through without the others.
//!
//! Order: a new key goes last, unmarked. Marking a pair swaps it with the first unmarked one, unmarking it with the last
//! marked one, and a pair that is removed is filled by the last; all other pairs stay where they are.
//! Cost: a key is looked up in one counted probe, which hashes it once. All other calls go by place, in constant time and
//! without memory; no call goes over the pairs. A marked pair is lent to a walk in one counted probe.
//!
//! Contracts see a list of pairs with distinct keys, and how many of them are marked.
#![tactic(auto)]

ghost use Rattle.std.specs.Prelude.{◌≡◌, ◌+◌, ◌-◌, ◌<◌, ◌≤◌, [], length, slice_get, IfSome, IfNone, IfOk, OnErr};
ghost use Rattle.std.specs.Borrow.{sem};
ghost use Rattle.std.specs.Map.{keys_of, values_of};
ghost use Rattle.marked_map.specs.Lending.{lends_value};
ghost use Rattle.marked_map.specs.MarkedMap.{HaveDistinctKeys, Enters, HasKey, IsAbsent, KeepsOthers, with_mark, without_mark, without_pair};

mod entry;

pub use entry::find_or_push;
use hash_keys::HashKeys;
use indexmap::IndexMap;
use probe_steps::Steps;
use std::alloc::{AllocError, Global};
use std::hash::Hash;
use std::marker::Model;
use std::sync::ledger::Ledger;

/// Pairs with distinct keys, the first of which are marked.
///
/// Contracts see the pairs in a list, and the number of those that are marked.
#[derive(Drop)]
pub struct MarkedMap<K: Eq + Hash, V> {
    map: IndexMap<K, V, HashKeys>,
    marked: usize,
}

impl<K: Eq + Hash, V> Model for MarkedMap<K, V> {
    ghost use Rattle.std.specs.Prelude.{◌≤◌, length};
    ghost use Rattle.marked_map.specs.MarkedMap.{MarkedPairs};

    ghost Value = { MarkedPairs K V };

    ghost view = { λ m. record { pairs = m.map.entries; marked = m.marked } };

    ghost invariant = { λ m. m.marked ≤ length m.map.entries };
}

impl<K: Eq + Hash, V> MarkedMap<K, V> {
    /// An empty map, which takes no memory yet.
    pub fn new(alloc: Global) -> MarkedMap<K, V>
        ensures { result ≡ record { pairs = []; marked = 0 } }
    {
        MarkedMap::with_hasher(alloc, HashKeys::fixed())
    }

    /// An empty map whose keys are hashed with these keys of a hash.
    pub fn with_hasher(alloc: Global, keys: HashKeys) -> MarkedMap<K, V>
        ensures { result ≡ record { pairs = []; marked = 0 } }
    {
        MarkedMap {
            map: IndexMap::with_hasher(alloc, keys),
            marked: 0,
        }
    }

    /// How many pairs there are.
    pub fn len(&self) -> usize
        ensures len { result ≡ length self.now.pairs }
        ensures distinct { HaveDistinctKeys K.eq self.now }
    {
        self.map.len()
    }

    /// How many pairs are marked: the first ones.
    pub fn marked(&self) -> usize
        ensures marked { result ≡ self.now.marked }
        ensures within { self.now.marked ≤ length self.now.pairs }
    {
        self.marked
    }

    /// The place of a key, if it is there.
    pub fn find<L: Ledger>(&self, key: &K, steps: &mut Steps<L>) -> Option<usize>
        ensures found { IfSome result (HasKey K.eq self.now key.now) }
        ensures within { IfSome result (λ place. place < length self.now.pairs) }
        ensures absent { IfNone result (IsAbsent K.eq self.now key.now) }
        ensures probes { steps.new ≡ steps.old + 1 }
        ensures distinct { HaveDistinctKeys K.eq self.now }
    {
        steps.tick();
        self.map.get_index_of(key)
    }

    /// The place of a key, which comes in with the fresh value where it is new. A key that is there keeps
    /// its value, and the fresh one is dropped.
    pub fn enter<L: Ledger>(
        &mut self,
        key: K,
        fresh: V,
        steps: &mut Steps<L>,
    ) -> Result<usize, AllocError>
    where
        K: Drop,
        V: Drop,
        ensures entered { IfOk result (λ place. Enters K.eq self.old key fresh place self.new) }
        ensures within { IfOk result (λ place. place < length self.new.pairs) }

        // Only a new key can fail.
        ensures absent { OnErr result (IsAbsent K.eq self.old key) }
        ensures err { OnErr result (self.new ≡ self.old) }
        ensures probes { steps.new ≡ steps.old + 1 }
        ensures distinct { HaveDistinctKeys K.eq self.new }
    {
        find_or_push(&mut self.map, key, fresh, steps)
    }

    /// The key at a place.
    pub fn key_at(&self, place: usize) -> &K
        requires { place < length self.now.pairs }
        ensures { slice_get (keys_of self.now.pairs) place ≡ Some result.now }
    {
        let (key, _) = self.map.get_index(place).unwrap();
        key
    }

    /// The value at a place.
    pub fn value_at(&self, place: usize) -> &V
        requires { place < length self.now.pairs }
        ensures { slice_get (values_of self.now.pairs) place ≡ Some result.now }
    {
        &self.map[place]
    }

    /// The marked pair at a place, for who goes over the marked pairs: each one that is lent counts as a probe, so that a
    /// walk shows in the counter.
    pub fn marked_at<L: Ledger>(&self, place: usize, steps: &mut Steps<L>) -> (&K, &V)
        requires { place < self.now.marked }
        ensures pair { slice_get self.now.pairs place ≡ Some (result.0.now, result.1.now) }
        ensures probes { steps.new ≡ steps.old + 1 }
    {
        steps.tick();
        self.map.get_index(place).unwrap()
    }

    /// The value at a place, to write.
    pub fn value_at_mut(&mut self, place: usize) -> &mut V
        requires { place < length self.old.pairs }
        ensures* writes_back { sem 𝓛 (lends_value K.row V.row K.Hash self.entry place result) }
        ensures value { slice_get (values_of self.old.pairs) place ≡ Some result.now }
    {
        &mut self.map[place]
    }

    /// Marks the pair at a place, and gives its new place, among the marked ones.
    pub fn mark_at(&mut self, place: usize) -> usize
        requires { place < length self.old.pairs }

        // A marked pair stays where it is.
        ensures already { place < self.old.marked → (result ≡ place) × (self.new ≡ self.old) }
        ensures marks { self.old.marked ≤ place → (result ≡ self.old.marked) × (self.new ≡ with_mark self.old place) }
        ensures marked { result < self.new.marked }
        ensures same_pair { slice_get self.new.pairs result ≡ slice_get self.old.pairs place }
        ensures others { KeepsOthers self.old place self.new }
        ensures len { length self.new.pairs ≡ length self.old.pairs }
    {
        if place < self.marked {
            return place;
        }
        // The length is what says that one more fits.
        let _len = self.map.len();
        let first_unmarked = self.marked;
        self.map.swap_indices(place, first_unmarked);
        self.marked += 1;
        first_unmarked
    }

    /// Takes the mark off the pair at a place, and gives its new place, among those without one.
    pub fn unmark_at(&mut self, place: usize) -> usize
        requires { place < length self.old.pairs }

        // An unmarked pair stays where it is.
        ensures already { self.old.marked ≤ place → (result ≡ place) × (self.new ≡ self.old) }
        ensures unmarks { place < self.old.marked → (result + 1 ≡ self.old.marked) × (self.new ≡ without_mark self.old place) }
        ensures unmarked { self.new.marked ≤ result }
        ensures within { result < length self.new.pairs }
        ensures same_pair { slice_get self.new.pairs result ≡ slice_get self.old.pairs place }
        ensures others { KeepsOthers self.old place self.new }
        ensures len { length self.new.pairs ≡ length self.old.pairs }
    {
        if place >= self.marked {
            return place;
        }
        let last_marked = self.marked - 1;
        self.map.swap_indices(place, last_marked);
        self.marked = last_marked;
        last_marked
    }

    /// Takes the pair at a place away. The last pair takes the place of an unmarked one; a marked one
    /// loses its mark first, as `unmark_at` does it.
    pub fn remove_at(&mut self, place: usize) -> (K, V)
        requires { place < length self.old.pairs }
        ensures taken { slice_get self.old.pairs place ≡ Some result }
        ensures unmarked { self.old.marked ≤ place → self.new ≡ without_pair self.old place result }
        ensures marked { place < self.old.marked → self.new ≡ without_pair (without_mark self.old place) (self.old.marked - 1) result }
        ensures gone { IsAbsent K.eq self.new result.0 }
        ensures others { KeepsOthers self.old place self.new }
        ensures len { length self.new.pairs + 1 ≡ length self.old.pairs }
    {
        let place = self.unmark_at(place);
        self.map.swap_remove_index(place).unwrap()
    }
}
