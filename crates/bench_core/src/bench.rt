//! A bench: rules, limits, and the history of its tables.

ghost use Rattle.std.specs.Prelude.{◌≡◌, ◌≢◌, ◌↔◌, ◌+◌, ◌<◌, ◌≤◌, Err, Ok, Some, length, map, slice_get, OnErr, OnOk, IfErr, IfOk};
ghost use Rattle.row_store.specs.Tuple.{ids_of};
ghost use Rattle.schema_core.specs.Schemas.{table_place};
ghost use Rattle.text_lists.specs.Limits.{AreLimits};
ghost use Rattle.line_grammar.specs.Faults.{GivesUnlessMemory};
ghost use Rattle.bench_core.specs.State.{rows_at};
ghost use Rattle.bench_core.specs.Loading.{AreTables, full_table, loaded};
ghost use Rattle.bench_core.specs.Edited.{refusal_of, row_named};
ghost use Rattle.bench_core.specs.History.{HasNoPast, HasNothingUndone, IsRedone, IsUndone, first_undone, history_edited, last_past};
ghost use Rattle.bench_core.specs.Stored.{RowsHaveTexts, stored, table_state, text_of};
ghost use Rattle.bench_core.specs.Answers.{AreMastersOf, IsRowAt, row_texts};
ghost use Rattle.bench_core.specs.Bench.{IsHistory};
ghost use Rattle.bench_core.specs.Indexed.{AreOfTheChange, edit_probes, load_probes};
ghost use Rattle.bench_core.specs.declared.edit.EditFault.TheVariants as edit_fault;
ghost use Rattle.bench_core.specs.declared.edit.RedoFault.TheVariants as redo_fault;
ghost use Rattle.bench_core.specs.declared.edit.UndoFault.TheVariants as undo_fault;

use crate::changes::Direction;
use crate::edit::{Applied, EditFault, LoadFault, RedoFault, UndoFault};
use crate::project::Project;
use crate::queries::BenchQueries;
use crate::tuples::texts_of;
use bench_index::AllIndexes;
use edit_log::Edit;
use hash_keys::HashKeys;
use master_index::MasterIndex;
use probe_steps::Steps;
use row_store::{RowId, RowStore, Tuple};
use row_takers::PooledTables;
use rule_model::RuleBook;
use schema_core::{Limits, List, Text, Texts};
use std::alloc::{AllocError, Global};
use std::marker::Model;
use std::sync::ledger::Ledger;
use value_pool::Pool;

/// The tables of a project, with the rules that they are held against. Clauses see its rules, its limits, the texts that
/// its value ids name, and its history: the states before the edits that were made, the present state, and the states
/// that were undone. A state is, for each table of the schema, the rows by rising ids and the next id.
pub struct Bench {
    project: Project,
    index: AllIndexes,
}

// By hand, so that whatever drops a bench calls this, and isn't proved for each of its parts.
impl Drop for Bench {
    fn drop(self) {
        let Bench {
            project: _,
            index: _,
        } = self;
    }
}

/// A row that is there: its table's number, its id, and its tuple as it is stored.
#[derive(Clone, Copy)]
pub struct RowAt<'a> {
    pub table: usize,
    pub row: RowId,
    pub tuple: &'a Tuple,
}

impl Model for Bench {
    ghost use Rattle.bench_core.specs.Bench.{BenchModel, IsHeld, view_of};
    ghost use Rattle.bench_core.specs.Indexed.{IsInStepWith};

    ghost Value = { BenchModel };

    ghost view = { λ b. view_of b.project };

    ghost invariant = { λ b. IsHeld b.project × IsInStepWith b.project b.index };
}

impl Bench {
    /// Takes the rows of each table, in the order of the schema. They get the ids 1, 2, 3 in order. All texts and ids are
    /// looked up by a hash with these keys.
    pub fn load<L: Ledger>(
        alloc: Global,
        keys: HashKeys,
        rules: RuleBook,
        tables: List<List<Texts>>,
        limits: Limits,
        steps: &mut Steps<L>,
    ) -> Result<Bench, LoadFault>
        requires limits { AreLimits limits }
        requires tables { AreTables rules.schema limits.cell_bytes tables }
        ensures loaded { GivesUnlessMemory full_table (loaded rules limits tables) (λ bench. bench.history.present) result }
        ensures fresh { IfOk result (λ bench. HasNoPast bench.history × HasNothingUndone bench.history) }
        ensures made_with { IfOk result (λ bench. (bench.rules ≡ rules) × (bench.limits ≡ limits)) }
        ensures valid { IfOk result (λ bench. IsHistory bench.rules bench.limits bench.history) }
        ensures probes { IfOk result (λ bench. steps.new ≤ steps.old + load_probes rules bench.history.present) }
    {
        let tables = PooledTables::of_texts(alloc, keys, tables)?;
        Bench::of_tables(alloc, rules, tables, limits, steps)
    }

    /// Takes tables that were read, in the order of the schema. Their rows get the ids 1, 2, 3 in order, and the bench keeps
    /// their pool. Rows of a table that wasn't ended are left out.
    pub fn of_tables<L: Ledger>(
        alloc: Global,
        rules: RuleBook,
        tables: PooledTables,
        limits: Limits,
        steps: &mut Steps<L>,
    ) -> Result<Bench, LoadFault>
        requires limits { AreLimits limits }
        requires tables { AreTables rules.schema limits.cell_bytes tables.tables }
        ensures loaded { GivesUnlessMemory full_table (loaded rules limits tables.tables) (λ bench. bench.history.present) result }
        ensures fresh { IfOk result (λ bench. HasNoPast bench.history × HasNothingUndone bench.history) }
        ensures made_with { IfOk result (λ bench. (bench.rules ≡ rules) × (bench.limits ≡ limits)) }
        ensures valid { IfOk result (λ bench. IsHistory bench.rules bench.limits bench.history) }
        ensures probes { IfOk result (λ bench. steps.new ≤ steps.old + load_probes rules bench.history.present) }
    {
        let (project, index) = Project::load(alloc, rules, tables, limits, steps)?;
        Ok(Bench { project, index })
    }

    /// Makes the edit, or says why not. What was undone is forgotten.
    pub fn apply<L: Ledger>(
        &mut self,
        edit: &Edit,
        steps: &mut Steps<L>,
    ) -> Result<Applied, EditFault>
        // The edit is made, or refused for the first cause that holds.
        ensures edited { GivesUnlessMemory refusal_of (history_edited self.old.rules self.old.limits self.old.history edit.now) (λ told. (self.new.history, told)) result }
        ensures made_with { (self.new.rules ≡ self.old.rules) × (self.new.limits ≡ self.old.limits) }
        ensures unchanged { OnErr result (self.new.history ≡ self.old.history) }
        ensures valid { IsHistory self.new.rules self.new.limits self.new.history }
        ensures probes { steps.new ≤ steps.old + edit_probes self.old.rules edit.now }
    {
        self.project.edit(&mut self.index, edit, steps)
    }

    /// Goes back to the state before the last edit, its next ids included. It takes no more probes than an edit of the table
    /// that changes, and none where there is nothing to undo.
    pub fn undo<L: Ledger>(&mut self, steps: &mut Steps<L>) -> Result<(), UndoFault>
        ensures undone { OnOk result (IsUndone self.old.history self.new.history) }
        ensures nothing { result ≡ Err undo_fault.NothingToUndo ↔ HasNoPast self.old.history }
        ensures made_with { (self.new.rules ≡ self.old.rules) × (self.new.limits ≡ self.old.limits) }
        ensures unchanged { OnErr result (self.new.history ≡ self.old.history) }
        ensures valid { IsHistory self.new.rules self.new.limits self.new.history }
        ensures probes { AreOfTheChange self.old.rules self.old.history.present (last_past self.old.history) steps.old steps.new }
    {
        match self.project.step(&mut self.index, Direction::Back, steps)? {
            true => Ok(()),
            false => Err(UndoFault::NothingToUndo),
        }
    }

    /// Makes the edit again that was undone last, with as few probes.
    pub fn redo<L: Ledger>(&mut self, steps: &mut Steps<L>) -> Result<(), RedoFault>
        ensures redone { OnOk result (IsRedone self.old.history self.new.history) }
        ensures nothing { result ≡ Err redo_fault.NothingToRedo ↔ HasNothingUndone self.old.history }
        ensures made_with { (self.new.rules ≡ self.old.rules) × (self.new.limits ≡ self.old.limits) }
        ensures unchanged { OnErr result (self.new.history ≡ self.old.history) }
        ensures valid { IsHistory self.new.rules self.new.limits self.new.history }
        ensures probes { AreOfTheChange self.old.rules self.old.history.present (first_undone self.old.history) steps.old steps.new }
    {
        match self
            .project
            .step(&mut self.index, Direction::Forward, steps)?
        {
            true => Ok(()),
            false => Err(RedoFault::NothingToRedo),
        }
    }

    pub fn rules(&self) -> &RuleBook
        ensures value { result.now ≡ self.now.rules }
        ensures valid { IsHistory self.now.rules self.now.limits self.now.history }
    {
        &self.project.rules
    }

    /// How many tables there are.
    pub fn table_count(&self) -> usize
        ensures { result ≡ length self.now.history.present }
    {
        self.project.stores.len()
    }

    /// The texts that the value ids of all stored tuples name.
    pub fn pool(&self) -> &Pool
        ensures { result.now ≡ self.now.texts }
    {
        &self.project.pool
    }

    /// The rows of a table as they are stored.
    pub fn store(&self, table: usize) -> &RowStore
        requires { table < length self.now.history.present }
        ensures state { slice_get self.now.history.present table ≡ Some (table_state self.now.texts (stored result.now)) }
        ensures texts { RowsHaveTexts self.now.texts result.now.rows }
    {
        &self.project.stores[table]
    }

    /// The rows of a table with their texts, by rising ids.
    pub fn rows(&self, table: usize) -> Result<List<(RowId, Texts)>, AllocError>
        requires { table < length self.now.history.present }
        ensures rows { IfOk result (λ rows. rows ≡ rows_at self.now.history.present table) }
        ensures valid { IsHistory self.now.rules self.now.limits self.now.history }
    {
        self.project.rows(table)
    }

    /// The row by the name of its table and its id, or what isn't there.
    pub fn find_row<'a>(&'a self, table: &Text, row: RowId) -> Result<RowAt<'a>, EditFault>
        ensures named { IfOk result (λ at. row_named self.now.rules self.now.history.present table.now row ≡ Ok (at.table, map (text_of self.now.texts) (ids_of at.tuple.now))) }
        ensures there { IfOk result (λ at. (at.row ≡ row) × (table_place self.now.rules.schema table.now ≡ Some at.table) × IsRowAt self.now.rules self.now.texts self.now.history.present at) }
        ensures refused { IfErr result (λ fault. (row_named self.now.rules self.now.history.present table.now row ≡ Err fault) × (fault ≢ edit_fault.Memory)) }
    {
        let Some(number) = self.rules().schema().table_named(table.as_str()) else {
            return Err(EditFault::UnknownTable);
        };
        match self.store(number).get(row) {
            Some(tuple) => Ok(RowAt {
                table: number,
                row,
                tuple,
            }),
            None => Err(EditFault::UnknownRow),
        }
    }

    /// The texts of a row, where the table and the row are there.
    pub fn row_texts(
        &self,
        alloc: Global,
        table: usize,
        row: RowId,
    ) -> Result<Option<Texts>, AllocError>
        ensures { IfOk result (λ texts. texts ≡ row_texts self.now.history.present table row) }
    {
        if table >= self.table_count() {
            return Ok(None);
        }
        match self.store(table).get(row) {
            Some(tuple) => Ok(Some(texts_of(alloc, self.pool(), tuple)?)),
            None => Ok(None),
        }
    }

    /// What its rules find, for whoever lists and counts it.
    pub fn queries(&self) -> BenchQueries<'_>
        ensures { result ≡ self.now }
    {
        BenchQueries::new(&self.project, &self.index)
    }

    /// The rows of the master tables, by value ids.
    pub fn masters(&self) -> &MasterIndex
        ensures { AreMastersOf self.now.rules self.now.texts self.now.history.present result.now }
    {
        &self.index.masters
    }
}
