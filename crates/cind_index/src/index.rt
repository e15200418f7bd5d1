//! The index of one inclusion: what it was made with, the rows under all keys, and the orphans.
ghost use Rattle.std.specs.Prelude.{◌≡◌, ◌+◌, ◌<◌, ◌≤◌, ◌++◌, ◌↔◌, ℕ, Some, false, nat_eq, length, slice_get, Contains, IsTrue, IfOk};
ghost use Rattle.std.specs.Option.{ForSome};
ghost use Rattle.row_store.specs.Tuple.{ids_of};
ghost use Rattle.row_store.specs.Watch.{IsWide};
ghost use Rattle.cfd_semantics.specs.Orphan.{SideEntry, left_entry_of};
ghost use Rattle.cfd_semantics.specs.EntrySets.{IsOrphan, IsUnanswered};
ghost use Rattle.cind_index.specs.KeysHeld.{lefts, rights, AreMarkedRight, HaveRoom};
ghost use Rattle.cind_index.specs.Totals.{AreTotals};
ghost use Rattle.cind_index.specs.Orphans.{AreOrphans, IsDirtyCount, IsOrphanCount};

use crate::ids::has_ids;
use crate::keys::Keys;
use crate::totals::Totals;
use cfd_semantics::{Inclusion, InclusionRow};
use hash_keys::HashKeys;
use marked_map::MarkedMap;
use probe_steps::Steps;
use row_store::{Key, RowId, Tuple, write_key};
use std::alloc::{AllocError, Global};
use std::sync::ledger::Ledger;
use value_pool::ValueId;

/// A row of the tableau: an id for each attribute of Xp, and for each of Yp.
pub type IdPairRow = InclusionRow<ValueId>;

/// The entries of both sides of an inclusion of a left table in a right one, which may be one table.
pub struct CindIndex {
    pub(crate) left: usize,
    pub(crate) right: usize,
    pub(crate) rule: Inclusion<ValueId>,
    pub(crate) keys: Keys,
    pub(crate) totals: Totals,
    // Room for one key and for pattern values, so that an entry is taken away without memory.
    pub(crate) key: Key,
    pub(crate) pattern: Key,
    ghost marks: { AreMarkedRight rule.rows keys },
    ghost counted: { AreTotals rule.rows keys totals },
    ghost room: { 0 < length keys.pairs → HaveRoom rule key pattern },
}

// By hand, so that whatever drops an index calls this, and isn't proved for each of its parts.
impl Drop for CindIndex {
    fn drop(self) {
        let CindIndex {
            left: _,
            right: _,
            rule: _,
            keys: _,
            totals: _,
            key: _,
            pattern: _,
        } = self;
    }
}

impl CindIndex {
    /// An index without entries. It takes memory for its totals alone, and does without them where that is refused. Its keys
    /// are looked up by a hash with `hash_keys`.
    pub fn new(
        alloc: Global,
        hash_keys: HashKeys,
        left: usize,
        right: usize,
        rule: Inclusion<ValueId>,
    ) -> CindIndex
        ensures left { result.left ≡ left }
        ensures right { result.right ≡ right }
        ensures rule { result.rule ≡ rule }
        ensures no_left { (entry : SideEntry ℕ) → lefts result.keys entry ≡ false }
        ensures no_right { (entry : SideEntry ℕ) → rights result.keys entry ≡ false }
    {
        let totals = Totals::new(alloc, rule.rows.as_slice().len());
        CindIndex {
            left,
            right,
            rule,
            totals,
            keys: MarkedMap::with_hasher(alloc, hash_keys),
            key: Key::new(alloc),
            pattern: Key::new(alloc),
        }
    }

    /// How many rows the tableau has.
    pub fn tableau_rows(&self) -> usize
        ensures { result ≡ length self.now.rule.rows }
    {
        self.rule.rows.as_slice().len()
    }

    /// How many keys have an orphan for some row of the tableau: those that are marked.
    pub fn dirty(&self) -> usize
        ensures dirty { IsDirtyCount self.now.rule (lefts self.now.keys) (rights self.now.keys) result }
        ensures marked { result ≡ self.now.keys.marked }
    {
        // The length is what says that no key stands twice.
        let _len = self.keys.len();
        self.keys.marked()
    }

    /// The orphans of a row of the tableau, by rising ids: the left rows with the constants of Xp whose key no right row with
    /// the constants of Yp has. Only dirty keys are gone over, and each counts as a probe.
    pub fn orphans<L: Ledger>(
        &self,
        k: usize,
        steps: &mut Steps<L>,
    ) -> Result<Vec<RowId>, AllocError>
        requires { k < length self.now.rule.rows }
        ensures orphans { IfOk result (λ found. ForSome (slice_get self.now.rule.rows k) (AreOrphans (lefts self.now.keys) (rights self.now.keys) found.items)) }
        ensures probes { steps.new ≤ steps.old + self.now.keys.marked }
    {
        let mut found = self.collect(k, steps)?;
        found.sort()?;
        found.dedup();
        Ok(found)
    }

    // The orphans of a row of the tableau, key by key.
    fn collect<L: Ledger>(&self, k: usize, steps: &mut Steps<L>) -> Result<Vec<RowId>, AllocError>
        requires { k < length self.now.rule.rows }
        ensures orphans { IfOk result (λ found. ForSome (slice_get self.now.rule.rows k) (λ t. (row : ℕ) → Contains found.items row ↔ IsOrphan nat_eq t (lefts self.now.keys) (rights self.now.keys) row)) }
        ensures probes { steps.new ≤ steps.old + self.now.keys.marked }
    {
        let tableau_row = &self.rule.rows.as_slice()[k];
        // The length is what says that no key stands twice.
        let _len = self.keys.len();
        let mut found = Vec::new(*self.key.allocator());
        for place in 0..self.keys.marked() {
            let (_, rows) = self.keys.marked_at(place, steps);
            rows.push_orphans(tableau_row, &mut found)?;
        }
        Ok(found)
    }

    /// How many orphans a row of the tableau has, without the list of them. A tableau of few rows has its numbers kept as
    /// running totals, and no key is looked at. Else each dirty key is gone over and counts as a probe, though its rows
    /// aren't, and a number beyond the last of its type is told as want of memory.
    pub fn orphan_count<L: Ledger>(
        &self,
        k: usize,
        steps: &mut Steps<L>,
    ) -> Result<usize, AllocError>
        requires { k < length self.now.rule.rows }
        ensures count { IfOk result (λ count. ForSome (slice_get self.now.rule.rows k) (IsOrphanCount (lefts self.now.keys) (rights self.now.keys) count)) }
        ensures probes { steps.new ≤ steps.old + self.now.keys.marked }
    {
        match self.totals.of_row(k) {
            Some(count) => Ok(count),
            None => self.walk_count(k, steps),
        }
    }

    // How many orphans a row of the tableau has, by all dirty keys.
    fn walk_count<L: Ledger>(&self, k: usize, steps: &mut Steps<L>) -> Result<usize, AllocError>
        requires { k < length self.now.rule.rows }
        ensures count { IfOk result (λ count. ForSome (slice_get self.now.rule.rows k) (IsOrphanCount (lefts self.now.keys) (rights self.now.keys) count)) }
        ensures probes { steps.new ≤ steps.old + self.now.keys.marked }
    {
        let tableau_row = &self.rule.rows.as_slice()[k];
        // The length is what says that no key stands twice.
        let _len = self.keys.len();
        let mut count: usize = 0;
        for place in 0..self.keys.marked() {
            let (_, rows) = self.keys.marked_at(place, steps);
            count = sum_of(count, rows.count_orphans(tableau_row))?;
        }
        Ok(count)
    }

    /// Whether a left row with this tuple is an orphan of a row of the tableau. Memory is for its key alone.
    pub fn is_orphan<L: Ledger>(
        &self,
        k: usize,
        tuple: &Tuple,
        steps: &mut Steps<L>,
    ) -> Result<bool, AllocError>
        requires k { k < length self.now.rule.rows }
        requires wide { IsWide (self.now.rule.x ++ self.now.rule.xp) (ids_of tuple.now) }
        ensures orphan { IfOk result (λ is. ForSome (slice_get self.now.rule.rows k) (λ t. (row : ℕ) → ForSome (left_entry_of self.now.rule (row, ids_of tuple.now))
            (λ left. IsTrue is ↔ IsUnanswered nat_eq t (rights self.now.keys) left))) }
        ensures probes { steps.new ≤ steps.old + 1 }
    {
        let tableau_row = &self.rule.rows.as_slice()[k];
        if !has_ids(tuple, self.rule.xp.as_slice(), tableau_row.xp.as_slice()) {
            return Ok(false);
        }
        let x = self.rule.x.as_slice();
        let mut key = Key::with_capacity(*self.key.allocator(), x.len())?;
        write_key(&mut key, tuple, x);
        match self.keys.find(&key, steps) {
            Some(place) => Ok(!self.keys.value_at(place).has_answer(tableau_row)),
            None => Ok(true),
        }
    }
}

// No memory has room for a list whose length can't be told.
fn sum_of(count: usize, more: usize) -> Result<usize, AllocError>
    ensures { IfOk result (λ sum. sum ≡ count + more) }
{
    count.checked_add(more).ok_or(AllocError)
}
