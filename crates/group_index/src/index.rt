//! The index: what it was made with, its groups, and what it answers.
ghost use Rattle.std.specs.Prelude.{◌≡◌, ◌+◌, ◌<◌, ◌≤◌, ◌==◌, ℕ, List, [], length, IfOk};
ghost use Rattle.row_store.specs.Tuple.{ids_of};
ghost use Rattle.row_store.specs.Watch.{IsWide};
ghost use Rattle.cfd_semantics.specs.Violation.{Entry};
ghost use Rattle.group_index.specs.GroupSet.{GroupSet, GroupsMade, holds_entry, gives_entry, attributes_of};
ghost use Rattle.group_index.specs.Laws.{gives_names_row, unneeded_gives_none};
ghost use Rattle.group_index.specs.Answers.{AreDirty, IsSettled, AreViolationsOf, AreThoseOfTheList, IsCountOfTheList, IsPartnerOfRow};

use crate::counting::count;
use crate::groups::{Groups, least_partner, put_entry, take_entry};
use crate::key::same_entry;
use crate::tableau::Tableau;
use crate::totals::Totals;
use crate::violations::collect;
use cfd_semantics::{Pattern, TableauRow, Violation};
use hash_keys::HashKeys;
use marked_map::MarkedMap;
use probe_steps::Steps;
use row_store::{Key, RowId, Tuple, Watch, make_room, write_key};
use std::alloc::{AllocError, Global};
use std::marker::Model;
use std::sync::ledger::Ledger;
use text_lists::List;
use value_pool::ValueId;

/// A cell of a tableau, over the ids of values.
pub type IdCell = Pattern<ValueId>;

/// A row of a tableau, over the ids of values.
pub type IdRow = TableauRow<ValueId>;

/// The entries that the rows of a table give for a dependency, in groups by their ids on X.
#[derive(Drop)]
pub struct GroupIndex {
    table: usize,
    x: List<usize>,
    a: usize,
    tableau: Tableau,
    groups: Groups,
    totals: Totals,
    // Room for the key of one group, so that a row is taken away without memory.
    key: Key,
}

impl Model for GroupIndex {
    ghost use Rattle.group_index.specs.GroupSet.{GroupSet};

    ghost Value = { GroupSet };

    ghost use Rattle.group_index.specs.Groups.{entries_in, IsGroupIndex};

    ghost view = { λ i. record { made = record { table = i.table; dependency = record { x = i.x; a = i.a; rows = i.tableau } }; entries = entries_in i.groups.pairs; dirty = i.groups.marked } };

    ghost invariant = { λ i. IsGroupIndex i.tableau i.x i.groups i.totals i.key };
}

impl GroupIndex {
    /// An index without entries, whose groups are looked up by a hash with these keys.
    pub fn new(
        alloc: Global,
        keys: HashKeys,
        table: usize,
        x: Vec<usize>,
        a: usize,
        rows: Vec<IdRow>,
    ) -> GroupIndex
        ensures { result ≡ record { made = record { table = table; dependency = record { x = x.items; a = a; rows = rows.items } }; entries = []; dirty = 0 } }
    {
        let totals = Totals::new(alloc, rows.as_slice());
        GroupIndex {
            table,
            x: List::from(x),
            a,
            tableau: Tableau::new(alloc, rows),
            totals,
            groups: MarkedMap::with_hasher(alloc, keys),
            key: Key::new(alloc),
        }
    }

    /// How many rows the tableau has.
    pub fn tableau_rows(&self) -> usize
        ensures { result ≡ length self.now.made.dependency.rows }
    {
        self.tableau.as_slice().len()
    }

    /// How many groups are dirty, while no row has two entries.
    pub fn dirty(&self) -> usize
        ensures count { result ≡ self.now.dirty }
        ensures groups { IsSettled self.now → AreDirty self.now result }
    {
        // The length is what says that the keys are distinct.
        let _len = self.groups.len();
        self.groups.marked()
    }

    /// The violations of a tableau row: a row by itself where its A id doesn't match, and with its least partner where
    /// it has one. Each dirty group that is looked at counts as a probe, and no other group is looked at.
    pub fn violating<L: Ledger>(
        &self,
        k: usize,
        steps: &mut Steps<L>,
    ) -> Result<List<Violation>, AllocError>
        requires row { k < length self.now.made.dependency.rows }
        requires settled { IsSettled self.now }
        ensures violations { IfOk result (AreViolationsOf self.now k) }
        ensures list { IfOk result (AreThoseOfTheList self.now k) }
        ensures probes { steps.new ≤ steps.old + self.now.dirty }
    {
        let rows = self.tableau.as_slice();
        let mut found = collect(*self.key.allocator(), &self.groups, rows, k, steps)?;
        found.sort_unstable_by_key(|violation| violation.row);
        Ok(List::from(found))
    }

    /// How many violations a tableau row has, without the list of them. That is kept as a running total, and answered at
    /// once, where the tableau has few rows and the right cell is no set. Else each dirty group is gone over, and counts as a
    /// probe. Its rows are looked at only where the right cell is a set; where it is a constant, those with another A id
    /// are, and where it is `_`, none is. A number beyond the last of its type is told as want of memory.
    pub fn violation_count<L: Ledger>(
        &self,
        k: usize,
        steps: &mut Steps<L>,
    ) -> Result<usize, AllocError>
        requires row { k < length self.now.made.dependency.rows }
        requires settled { IsSettled self.now }
        ensures count { IfOk result (IsCountOfTheList self.now k) }
        ensures probes { steps.new ≤ steps.old + self.now.dirty }
    {
        // The length is what says that the keys are distinct.
        let _len = self.groups.len();
        let rows = self.tableau.as_slice();
        match self.totals.of_row(&rows[k], k) {
            Some(count) => Ok(count),
            None => count(&self.groups, rows, k, steps),
        }
    }

    /// The least row with which a row makes a pair violation of a tableau row.
    pub fn partner<L: Ledger>(
        &self,
        k: usize,
        row: RowId,
        tuple: &Tuple,
        steps: &mut Steps<L>,
    ) -> Result<Option<RowId>, AllocError>
        requires row { k < length self.now.made.dependency.rows }
        requires wide { IsWide (attributes_of self.now.made self.now.made.table) (ids_of tuple.now) }
        ensures partner { IfOk result (IsPartnerOfRow self.now k row (ids_of tuple.now)) }
        ensures probes { steps.new ≤ steps.old + 1 }
    {
        let _ = row;
        let tableau_row = &self.tableau.as_slice()[k];
        let x = self.x.as_slice();
        let mut key = Key::with_capacity(*self.key.allocator(), x.len())?;
        write_key(&mut key, tuple, x);
        let a = tuple.as_slice()[self.a];
        Ok(least_partner(&self.groups, tableau_row, &key, a, steps))
    }
}

impl Watch for GroupIndex {
    ghost Entry = { Entry ℕ };

    ghost Made = { GroupsMade };

    ghost made = { λ index. index.made };

    ghost holds = { holds_entry };

    ghost gives = { gives_entry };

    ghost table_of = { λ how _. how.table };

    ghost row_of = { λ _ entry. entry.row };

    ghost needed = { λ how table. table == how.table };

    ghost attributes = { attributes_of };

    ghost cost = { λ _. 1 };

    fn needs(&self, table: usize) -> bool {
        table == self.table
    }

    fn add<L: Ledger>(
        &mut self,
        table: usize,
        row: RowId,
        old: Option<&Tuple>,
        new: &Tuple,
        steps: &mut Steps<L>,
    ) -> Result<(), AllocError> {
        if table != self.table {
            return Ok(());
        }
        let x = self.x.as_slice();
        let a = self.a;
        if same_entry(old, new, x, a) {
            return Ok(());
        }
        make_room(&mut self.key, x.len())?;
        let mut key = Key::with_capacity(*self.key.allocator(), x.len())?;
        write_key(&mut key, new, x);
        put_entry(
            &mut self.groups,
            &mut self.totals,
            &self.tableau,
            key,
            new.as_slice()[a],
            row,
            steps,
        )
    }

    fn remove<L: Ledger>(
        &mut self,
        table: usize,
        row: RowId,
        old: &Tuple,
        new: Option<&Tuple>,
        steps: &mut Steps<L>,
    ) {
        if table != self.table {
            return;
        }
        let x = self.x.as_slice();
        let a = self.a;
        if same_entry(new, old, x, a) {
            return;
        }
        write_key(&mut self.key, old, x);
        take_entry(
            &mut self.groups,
            &mut self.totals,
            &self.tableau,
            &self.key,
            old.as_slice()[a],
            row,
            steps,
        );
    }

    ghost names_row = { λ how table row ids entry given. gives_names_row how table row ids entry given };

    ghost unneeded = { unneeded_gives_none };
}
