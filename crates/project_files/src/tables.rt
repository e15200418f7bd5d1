//! The files of the tables, and the bench of what they hold.
ghost use Rattle.std.specs.Prelude.{◌≡◌, ◌+◌, ◌≤◌, length, map, All, IfOk};
ghost use Rattle.std.specs.List.{AllZip};
ghost use Rattle.text_lists.specs.Limits.{AreLimits};
ghost use Rattle.schema_core.specs.Rows.{IsRowOf};
ghost use Rattle.bench_core.specs.Indexed.{load_probes};
ghost use Rattle.bench_core.specs.Loading.{AreTables, loaded};
ghost use Rattle.cli_output.specs.Fetching.{Fetches, Reads};
ghost use Rattle.project_files.specs.Project.{bench_of, fetch_tables, tables_of};

use bench_core::{Bench, LoadFault};
use cli_output::{Cause, Stop, fetch_rows, fetch_table, refused};
use hash_keys::HashKeys;
use probe_steps::Steps;
use row_takers::PooledTables;
use rule_model::RuleBook;
use schema_core::{Limits, List, Schema, Table, Texts};
use shelf_io::Shelf;
use std::alloc::{AllocError, Global};
use std::sync::ledger::Ledger;

/// The rows of each table, in the order of the schema.
pub fn fetch_tables<S: Shelf>(
    alloc: Global,
    shelf: &mut S,
    tables: &[Table],
    limits: &Limits,
    left: &mut u64,
) -> Result<List<List<Texts>>, Stop>
    requires { AreLimits limits.now }
    ensures tables { Fetches (fetch_tables limits.now tables.now) (λ all. all) (length tables.now) result (S.told shelf.old) (S.told shelf.new) left.old left.new }
    ensures valid { IfOk result (λ all. AllZip (λ table rows. All (IsRowOf table.attrs limits.now.cell_bytes) rows) tables.now all) }
{
    let mut all = List::new(alloc);
    for table in tables {
        let rows = fetch_table(alloc, shelf, table, limits, left)?;
        all.push(rows)?;
    }
    Ok(all)
}

/// The same for a bench: the texts of all tables go to one pool as they are read.
pub fn fetch_pooled<S: Shelf>(
    alloc: Global,
    keys: HashKeys,
    shelf: &mut S,
    tables: &[Table],
    limits: &Limits,
    left: &mut u64,
) -> Result<PooledTables, Stop>
    requires { AreLimits limits.now }
    ensures tables { Fetches (fetch_tables limits.now tables.now) (λ all. all.tables) (length tables.now) result (S.told shelf.old) (S.told shelf.new) left.old left.new }
    ensures valid { IfOk result (λ all. AllZip (λ table rows. All (IsRowOf table.attrs limits.now.cell_bytes) rows) tables.now all.tables) }
{
    let mut all = PooledTables::new(alloc, keys);
    for table in tables {
        fetch_rows(alloc, shelf, table, limits, left, &mut all)?;
        all.end_table()?;
    }
    Ok(all)
}

/// The bench of tables that were read.
pub fn load<L: Ledger>(
    alloc: Global,
    rules: RuleBook,
    tables: PooledTables,
    limits: &Limits,
    steps: &mut Steps<L>,
) -> Result<Bench, Stop>
    requires limits { AreLimits limits.now }
    requires tables { AreTables rules.schema limits.now.cell_bytes tables.tables }
    ensures reads { Reads (bench_of rules limits.now (loaded rules limits.now tables.tables)) tables_of result }
    ensures probes { IfOk result (λ bench. steps.new ≤ steps.old + load_probes bench.rules bench.history.present) }
{
    let names = file_names(alloc, rules.schema())?;
    match Bench::of_tables(alloc, rules, tables, *limits, steps) {
        Ok(bench) => Ok(bench),
        Err(LoadFault::RowsFull { table }) => {
            let name = &names.as_slice()[table];
            refused(name, Cause::RowsFull)
        }
        Err(LoadFault::Memory) => Err(Stop::Memory),
    }
}

fn file_names(alloc: Global, schema: &Schema) -> Result<Texts, AllocError>
    ensures { IfOk result (λ names. names ≡ map (λ table. table.file) schema.now.tables) }
{
    let mut names = List::new(alloc);
    for table in schema.tables.as_slice() {
        names.push(table.file.clone()?)?;
    }
    Ok(names)
}
