//! What a bench holds: rules, limits, stored tables, and the log of their changes.

ghost use Rattle.std.specs.Prelude.{◌≡◌, ◌+◌, ◌<◌, ◌≤◌, List, ℕ, Ok, Option, Some, false, length, map, slice_get, IsSomeAnd, IfOk, OnErr, OnOk};
ghost use Rattle.schema_core.specs.Schemas.{table_place};
ghost use Rattle.line_grammar.specs.Faults.{GivesUnlessMemory};
ghost use Rattle.row_store.specs.Tuple.{ids_if};
ghost use Rattle.row_store.specs.Watches.{with_row};
ghost use Rattle.bench_core.specs.State.{rows_at};
ghost use Rattle.bench_core.specs.Edited.{edited, name_of_table, refusal_of};
ghost use Rattle.bench_core.specs.History.{accepted, history_edited};
ghost use Rattle.bench_core.specs.Stored.{state_of, stored};
ghost use Rattle.bench_core.specs.Changes.{CanMake, IsChange, made_again, told_of};
ghost use Rattle.bench_index.specs.declared.all_indexes.AllIndexes.{AllIndexes as Indexes};
ghost use Rattle.bench_index.specs.AllIndexes.{AllFollow, most_probes};
ghost use Rattle.bench_core.specs.Bench.{AtTable, IsBench, IsHeld, history, present_of, tables_of};
ghost use Rattle.bench_core.specs.Turns.{AreCountedThen, CanBeTurned, HasNoNext, HasRoomFor, HasStepped, next_state, tuple_after, turned_all};
ghost use Rattle.bench_core.specs.Indexed.{AreOfTheChange, CanFollow, IsInStepWith, IsIndexed, edit_probes, tuples_of};

use crate::changes::{
    Direction, follow_change, move_log, next_change, tuple_after, tuple_before, turn,
};
use crate::edit::{Applied, EditFault};
use crate::sizes::Counts;
use crate::target::Target;
use crate::tuples::{shared, texts_of};
use bench_index::AllIndexes;
use edit_log::{Change, Edit, Log};
use probe_steps::Steps;
use row_store::{RowId, RowStore, Tuple};
use rule_model::RuleBook;
use schema_core::{Limits, List, Text, Texts};
use std::alloc::AllocError;
use std::sync::ledger::Ledger;
use value_pool::Pool;

/// Rules and limits, the texts of all tables, the rows of each table by value ids, the changes that were made and undone,
/// and how much there is.
#[derive(Drop)]
pub struct Project {
    pub rules: RuleBook,
    pub limits: Limits,
    pub pool: Pool,
    pub stores: Vec<RowStore>,
    pub log: Log,
    pub counts: Counts,
}

fn name_of_table(edit: &Edit) -> &Text
    ensures { result.now ≡ name_of_table edit.now }
{
    match edit {
        Edit::Insert { table, .. }
        | Edit::Set { table, .. }
        | Edit::Delete { table, .. }
        | Edit::Fix { table, .. } => table,
    }
}

fn told_of(change: &Change) -> Applied
    ensures { result ≡ told_of change.now }
{
    match &change.old {
        None => Applied::Inserted(change.row),
        Some(_) => Applied::Changed,
    }
}

/// Makes room for the row of a change, if it has none before.
fn make_room(
    stores: &mut Vec<RowStore>,
    change: &Change,
    direction: Direction,
) -> Result<(), AllocError>
    requires { change.now.table < length stores.old.items }
    ensures room { OnOk result (IsSomeAnd (slice_get stores.new.items change.now.table) (HasRoomFor direction change.now)) }
    ensures same { map stored stores.new.items ≡ map stored stores.old.items }
{
    if tuple_before(change, direction).is_some() {
        return Ok(());
    }
    stores[change.table].ready_insert()
}

/// Makes room for a change that is made for the first time, in the store of its table and in the log, and lets the indexes
/// follow its row.
fn get_ready<L: Ledger>(
    stores: &mut Vec<RowStore>,
    log: &mut Log,
    index: &mut AllIndexes,
    rules: &RuleBook,
    change: &Change,
    steps: &mut Steps<L>,
) -> Result<(), AllocError>
    requires table { change.now.table < length stores.old.items }
    requires follow { CanFollow rules.now change.now.table change.now.row (ids_if change.now.old) (ids_if change.now.new) index.old }
    ensures room { OnOk result (IsSomeAnd (slice_get stores.new.items change.now.table) (HasRoomFor Direction.Forward change.now)) }
    ensures same { map stored stores.new.items ≡ map stored stores.old.items }
    ensures log { OnOk result (0 < log.new.spare) }
    ensures past { log.new.past ≡ log.old.past }
    ensures undone { log.new.undone ≡ log.old.undone }
    ensures followed { OnOk result (AllFollow rules.now change.now.table change.now.row (ids_if change.now.old) (ids_if change.now.new) index.old index.new) }
    // What the indexes were in step with, they are still in step with.
    ensures refused { OnErr result ((texts : List (List ℕ)) (tuples : ℕ → ℕ → Option (List ℕ)) → IsIndexed rules.now texts tuples index.old → IsIndexed rules.now texts tuples index.new) }
    ensures probes { steps.new ≤ steps.old + most_probes rules.now change.now.table }
{
    make_room(stores, change, Direction::Forward)?;
    log.ready()?;
    follow_change(index, rules, change, Direction::Forward, steps)?;
    Ok(())
}

/// Turns the table of a change into what it is then, and the numbers with it. `tuple` is what the row then has.
fn turn_counted(
    stores: &mut Vec<RowStore>,
    counts: &mut Counts,
    change: &Change,
    direction: Direction,
    tuple: Option<Tuple>,
)
    requires turn { CanBeTurned direction change.now (map stored stores.old.items) counts.old }
    requires room { IsSomeAnd (slice_get stores.old.items change.now.table) (HasRoomFor direction change.now) }
    requires same { ids_if tuple ≡ ids_if (tuple_after direction change.now) }
    ensures tables { map stored stores.new.items ≡ turned_all direction change.now (map stored stores.old.items) }
    ensures counts { AreCountedThen direction change.now (map stored stores.old.items) counts.old counts.new }
{
    let store = &mut stores[change.table];
    let before = store.len() as u64;
    turn(store, change, direction, tuple);
    let after = store.len() as u64;
    counts.recount(change.table, before, after);
}

impl Project {
    /// Makes the edit, or says why not. The indexes follow its row.
    pub(crate) fn edit<L: Ledger>(
        &mut self,
        index: &mut AllIndexes,
        edit: &Edit,
        steps: &mut Steps<L>,
    ) -> Result<Applied, EditFault>
        requires held { IsHeld self.old }
        requires indexed { IsInStepWith self.old index.old }
        ensures held { IsHeld self.new }
        ensures indexed { IsInStepWith self.new index.new }
        ensures edited { GivesUnlessMemory refusal_of (history_edited self.old.rules self.old.limits (history self.old) edit.now) (λ told. (history self.new, told)) result }
        ensures made_with { (self.new.rules ≡ self.old.rules) × (self.new.limits ≡ self.old.limits) }
        ensures unchanged { OnErr result (history self.new ≡ history self.old) }
        ensures probes { steps.new ≤ steps.old + edit_probes self.old.rules edit.now }
    {
        match self
            .rules
            .schema()
            .table_named(name_of_table(edit).as_str())
        {
            None => Err(EditFault::UnknownTable),
            Some(number) => self.edit_table(index, number, edit, steps),
        }
    }

    /// Makes the edit to the numbered table, which is the one that it names. All that may want memory comes first.
    fn edit_table<L: Ledger>(
        &mut self,
        index: &mut AllIndexes,
        number: usize,
        edit: &Edit,
        steps: &mut Steps<L>,
    ) -> Result<Applied, EditFault>
        requires held { IsHeld self.old }
        requires indexed { IsInStepWith self.old index.old }
        requires named { table_place self.old.rules.schema (name_of_table edit.now) ≡ Some number }
        ensures held { IsHeld self.new }
        ensures indexed { IsInStepWith self.new index.new }
        ensures edited { GivesUnlessMemory refusal_of (history_edited self.old.rules self.old.limits (history self.old) edit.now) (λ told. (history self.new, told)) result }
        ensures made_with { (self.new.rules ≡ self.old.rules) × (self.new.limits ≡ self.old.limits) }
        ensures unchanged { OnErr result (history self.new ≡ history self.old) }
        ensures probes { steps.new ≤ steps.old + most_probes self.old.rules number }
    {
        let change = self.planned(number, edit)?;
        let new = shared(&change.new)?;
        let (stores, log) = (&mut self.stores, &mut self.log);
        get_ready(stores, log, index, &self.rules, &change, steps)?;
        Ok(self.done(change, new))
    }

    /// The change that the edit makes to the numbered table, which is the one that it names. Only the pool is changed.
    fn planned(&mut self, number: usize, edit: &Edit) -> Result<Change, EditFault>
        requires held { IsHeld self.old }
        requires named { table_place self.old.rules.schema (name_of_table edit.now) ≡ Some number }
        ensures edited { GivesUnlessMemory refusal_of (edited self.old.rules self.old.limits (present_of self.old) edit.now) (λ change. (state_of self.new.pool (made_again change (tables_of self.new)), told_of change)) result }
        ensures held { IsHeld self.new }
        ensures history { history self.new ≡ history self.old }
        ensures made_with { (self.new.rules ≡ self.old.rules) × (self.new.limits ≡ self.old.limits) }
        ensures indexed { (index : Indexes) → IsInStepWith self.old index → IsInStepWith self.new index }
        ensures number { IfOk result (λ change. change.table ≡ number) }
        ensures can { IfOk result (λ change. AtTable self.new change (CanMake change)) }
        ensures is { IfOk result (IsChange self.new.pool) }
        ensures within { IfOk result (λ change. IsBench self.new.rules self.new.limits (state_of self.new.pool (made_again change (tables_of self.new)))) }
    {
        let target = Target {
            alloc: *self.stores.allocator(),
            limits: &self.limits,
            room: self.counts.has_room(&self.limits, number, 1),
            number,
            table: &self.rules.schema().tables.as_slice()[number],
            store: &self.stores[number],
        };
        target.change(&mut self.pool, edit)
    }

    /// Makes a change for which there is room, and forgets what was undone. `new` is its new tuple.
    fn done(&mut self, change: Change, new: Option<Tuple>) -> Applied
        requires held { IsHeld self.old }
        requires can { AtTable self.old change (CanMake change) }
        requires is { IsChange self.old.pool change }
        requires within { IsBench self.old.rules self.old.limits (state_of self.old.pool (made_again change (tables_of self.old))) }
        requires same { ids_if new ≡ ids_if change.new }
        requires room { IsSomeAnd (slice_get self.old.stores.items change.table) (HasRoomFor Direction.Forward change) }
        requires log { 0 < self.old.log.spare }
        ensures held { IsHeld self.new }
        ensures history { history self.new ≡ accepted (history self.old) (state_of self.old.pool (made_again change (tables_of self.old))) }
        ensures made_with { (self.new.rules ≡ self.old.rules) × (self.new.limits ≡ self.old.limits) }
        ensures told { result ≡ told_of change }
        ensures indexed { (index : Indexes) → IsIndexed self.old.rules self.old.pool (with_row (tuples_of (tables_of self.old)) change.table change.row (ids_if change.new)) index → IsInStepWith self.new index }
    {
        let told = told_of(&change);
        let (stores, counts) = (&mut self.stores, &mut self.counts);
        turn_counted(stores, counts, &change, Direction::Forward, new);
        self.log.push_ready(change);
        told
    }

    /// Takes the last past change back, or makes the next undone one again, if there is one. The indexes follow its row.
    pub(crate) fn step<L: Ledger>(
        &mut self,
        index: &mut AllIndexes,
        direction: Direction,
        steps: &mut Steps<L>,
    ) -> Result<bool, AllocError>
        requires held { IsHeld self.old }
        requires indexed { IsInStepWith self.old index.old }
        ensures held { IsHeld self.new }
        ensures indexed { IsInStepWith self.new index.new }
        ensures stepped { IfOk result (λ found. HasStepped found direction (history self.old) (history self.new)) }
        ensures nothing { HasNoNext direction (history self.old) → result ≡ Ok false }
        ensures made_with { (self.new.rules ≡ self.old.rules) × (self.new.limits ≡ self.old.limits) }
        ensures unchanged { OnErr result (history self.new ≡ history self.old) }
        ensures probes { AreOfTheChange self.old.rules (present_of self.old) (next_state direction (history self.old)) steps.old steps.new }
    {
        let Some(change) = next_change(&self.log, direction) else {
            return Ok(false);
        };
        let tuple = shared(tuple_after(change, direction))?;
        make_room(&mut self.stores, change, direction)?;
        follow_change(index, &self.rules, change, direction, steps)?;
        let (stores, counts) = (&mut self.stores, &mut self.counts);
        turn_counted(stores, counts, change, direction, tuple);
        move_log(&mut self.log, direction);
        Ok(true)
    }

    /// The rows of a table with their texts, by rising ids.
    pub(crate) fn rows(&self, table: usize) -> Result<List<(RowId, Texts)>, AllocError>
        requires held { IsHeld self.now }
        requires table { table < length self.now.stores.items }
        ensures { IfOk result (λ rows. rows ≡ rows_at (present_of self.now) table) }
    {
        let alloc = *self.stores.allocator();
        let mut rows = List::new(alloc);
        for (id, tuple) in self.stores[table].rows() {
            rows.push((id, texts_of(alloc, &self.pool, tuple)?))?;
        }
        Ok(rows)
    }
}
