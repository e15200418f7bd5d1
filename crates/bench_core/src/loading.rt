//! Loading tables, one after another.

ghost use Rattle.std.specs.Prelude.{◌≡◌, ◌+◌, ◌-◌, ◌*◌, ◌^◌, ◌<◌, ◌≤◌, List, ℕ, [], length, map, All, IfOk, OnOk};
ghost use Rattle.text_lists.specs.Limits.{AreLimits};
ghost use Rattle.schema_core.specs.Lookups.{attrs_at};
ghost use Rattle.line_grammar.specs.Faults.{GivesUnlessMemory};
ghost use Rattle.row_store.specs.Tuple.{ids_of};
ghost use Rattle.row_takers.specs.Taken.{AreNamed};
ghost use Rattle.bench_core.specs.Loading.{AreTables, CanBeLoaded, CanLoad, HasLoaded, full_table, loaded, tables_in};
ghost use Rattle.bench_core.specs.Stored.{AreInOrder, HasOneMore, state_of, stored};
ghost use Rattle.bench_core.specs.Bench.{IsHeld, history, present_of};
ghost use Rattle.bench_core.specs.Indexed.{IsIndexed, IsInStepWith, load_probes, tuples_of};
ghost use Rattle.bench_index.specs.AllIndexes.{most_probes};
ghost use Rattle.bench_index.specs.Loading.{HaveNoRows};
ghost use Rattle.bench_core.specs.History.{HasNoPast, HasNothingUndone};

use crate::edit::LoadFault;
use crate::project::Project;
use crate::sizes::Counts;
use bench_index::AllIndexes;
use edit_log::Log;
use probe_steps::Steps;
use row_store::{RowStore, Tuple};
use row_takers::PooledTables;
use rule_model::RuleBook;
use schema_core::Limits;
use std::alloc::{AllocError, Global};
use std::sync::ledger::Ledger;
use value_pool::Pool;

impl Project {
    /// Takes tables that were read, in the order of the schema, unless they have too many rows or cells. The constants of
    /// the rules come into the pool after the texts of the tables.
    pub(crate) fn load<L: Ledger>(
        alloc: Global,
        rules: RuleBook,
        tables: PooledTables,
        limits: Limits,
        steps: &mut Steps<L>,
    ) -> Result<(Project, AllIndexes), LoadFault>
        requires limits { AreLimits limits }
        requires tables { AreTables rules.schema limits.cell_bytes tables.tables }
        ensures loaded { GivesUnlessMemory full_table (loaded rules limits tables.tables) (λ all. present_of all.0) result }
        ensures fresh { IfOk result (λ all. HasNoPast (history all.0) × HasNothingUndone (history all.0)) }
        ensures held { IfOk result (λ all. IsHeld all.0) }
        ensures indexed { IfOk result (λ all. IsInStepWith all.0 all.1) }
        ensures made_with { IfOk result (λ all. (all.0.rules ≡ rules) × (all.0.limits ≡ limits)) }
        ensures probes { IfOk result (λ all. steps.new ≤ steps.old + load_probes rules (present_of all.0)) }
    {
        let (mut pool, tables) = tables.into_parts();
        match load_all(alloc, &rules, &limits, &mut pool, tables, steps) {
            Ok(all) => {
                let project = Project {
                    rules,
                    limits,
                    pool,
                    stores: all.stores,
                    log: Log::new(alloc),
                    counts: all.counts,
                };
                Ok((project, all.index))
            }
            Err(fault) => Err(fault),
        }
    }
}

/// Tables that are loaded: their rows, how much there is, and the indexes of the rules.
#[derive(Drop)]
struct LoadedTables {
    stores: Vec<RowStore>,
    counts: Counts,
    index: AllIndexes,
}

/// Loads tables that lie in the pool, unless they have too many rows or cells.
fn load_all<L: Ledger>(
    alloc: Global,
    rules: &RuleBook,
    limits: &Limits,
    pool: &mut Pool,
    tables: Vec<Vec<Tuple>>,
    steps: &mut Steps<L>,
) -> Result<LoadedTables, LoadFault>
    requires limits { AreLimits limits.now }
    requires tables { AreTables rules.now.schema limits.now.cell_bytes (tables_in pool.old tables.items) }
    requires named { All (λ table. AreNamed pool.old table.items) tables.items }
    ensures loaded { GivesUnlessMemory full_table (loaded rules.now limits.now (tables_in pool.old tables.items)) (λ all. state_of pool.new (map stored all.stores.items)) result }
    ensures held { IfOk result (λ all. HasLoaded rules.now pool.new (map stored all.stores.items) all.counts all.index steps.old steps.new) }
{
    let mut index = AllIndexes::new(alloc, rules, pool)?;
    // Asking for the schema says that the rules are valid.
    let _schema = rules.schema();
    let mut counts = Counts::new(alloc, rules)?;
    let mut stores = Vec::new(alloc);
    add_tables(
        &mut index,
        rules,
        limits,
        tables,
        &mut stores,
        &mut counts,
        steps,
    )?;
    Ok(LoadedTables {
        stores,
        counts,
        index,
    })
}

/// Loads tables one after another, after none, unless they have too many rows or cells.
fn add_tables<L: Ledger>(
    index: &mut AllIndexes,
    rules: &RuleBook,
    limits: &Limits,
    tables: Vec<Vec<Tuple>>,
    stores: &mut Vec<RowStore>,
    counts: &mut Counts,
    steps: &mut Steps<L>,
) -> Result<(), LoadFault>
    requires limits { AreLimits limits.now }
    requires none { stores.old.items ≡ [] }
    requires can { CanBeLoaded rules.now limits.now tables.items counts.old index.old }
    ensures loaded { (texts : List (List ℕ)) → CanLoad rules.now limits.now texts tables.items counts.old index.old → GivesUnlessMemory full_table (loaded rules.now limits.now (tables_in texts tables.items)) (λ _. state_of texts (map stored stores.new.items)) result }
    ensures held { OnOk result ((texts : List (List ℕ)) → CanLoad rules.now limits.now texts tables.items counts.old index.old → HasLoaded rules.now texts (map stored stores.new.items) counts.new index.new steps.old steps.new) }
{
    let alloc = *stores.allocator();
    for tuples in tables {
        let table = stores.len();
        let rows = tuples.len() as u64;
        if !counts.has_room(limits, table, rows) {
            return Err(LoadFault::RowsFull { table });
        }
        add_table(alloc, index, rules, stores, tuples, steps)?;
        counts.recount(table, 0, rows);
    }
    Ok(())
}

/// Loads one more table. All of its rows are stored before the indexes take them, one index after the other.
fn add_table<L: Ledger>(
    alloc: Global,
    index: &mut AllIndexes,
    rules: &RuleBook,
    all: &mut Vec<RowStore>,
    tuples: Vec<Tuple>,
    steps: &mut Steps<L>,
) -> Result<(), AllocError>
    requires few { length tuples.items < 2 ^ 64 - 1 }
    requires full { All (λ ids. length ids ≡ length (attrs_at rules.now.schema (length all.old.items))) (map ids_of tuples.items) }
    requires none { HaveNoRows rules.now (length all.old.items) index.old }
    ensures stored { OnOk result (HasOneMore (map ids_of tuples.items) (map stored all.old.items) (map stored all.new.items)) }
    ensures length { OnOk result (length all.new.items ≡ length all.old.items + 1) }
    // Whatever the ids are the names of, the indexes stay in step.
    ensures indexed { OnOk result ((texts : List (List ℕ)) → IsIndexed rules.now texts (tuples_of (map stored all.old.items)) index.old → IsIndexed rules.now texts (tuples_of (map stored all.new.items)) index.new) }
    ensures probes { OnOk result (steps.new ≤ steps.old + length tuples.items * most_probes rules.now (length all.old.items)) }
{
    let store = store_table(alloc, tuples)?;
    index.load(rules, all.len(), &store, steps)?;
    all.push(store)?;
    Ok(())
}

/// Stores the tuples of a table as rows, which get the ids 1, 2, 3 in order.
fn store_table(alloc: Global, tuples: Vec<Tuple>) -> Result<RowStore, AllocError>
    requires few { length tuples.items < 2 ^ 64 - 1 }
    ensures { IfOk result (λ store. AreInOrder (map ids_of tuples.items) (stored store)) }
{
    let mut store = RowStore::new(alloc);
    for tuple in tuples {
        store.ready_insert()?;
        store.put(tuple);
    }
    Ok(store)
}
