//! The rows of a table, as its file is fetched and read.
ghost use Rattle.std.specs.Prelude.{◌≡◌, [], All, IfOk, OnOk};
ghost use Rattle.text_lists.specs.Limits.{AreLimits};
ghost use Rattle.schema_core.specs.Rows.{IsRowOf};
ghost use Rattle.csv_tables.specs.TableFiles.{table_of};
ghost use Rattle.cli_output.specs.Fetching.{Fetches, Reads, about};
ghost use Rattle.cli_output.specs.TableFiles.{fetch_table, tabled};

use crate::fetching::{Stop, fetch_file, refused};
use crate::refusal::Cause;
use csv_tables::{TableFault, read_rows};
use row_takers::RowTaker;
use schema_core::{Limits, List, Table, Texts};
use shelf_io::Shelf;
use std::alloc::Global;

/// The rows of a table. `left` is how many bytes the files that are still to come may have together.
pub fn fetch_table<S: Shelf>(
    alloc: Global,
    shelf: &mut S,
    table: &Table,
    limits: &Limits,
    left: &mut u64,
) -> Result<List<Texts>, Stop>
    requires { AreLimits limits.now }
    ensures table { Fetches (fetch_table limits.now table.now) (λ rows. rows) 1 result (S.told shelf.old) (S.told shelf.new) left.old left.new }
    ensures valid { IfOk result (All (IsRowOf table.now.attrs limits.now.cell_bytes)) }
{
    let mut rows = List::new(alloc);
    fetch_rows(alloc, shelf, table, limits, left, &mut rows)?;
    Ok(rows)
}

/// The rows of a table are handed over as its file is read. `left` is how many bytes the files that are still to come may
/// have together. Where the table isn't read to its end, nothing is promised of what the taker holds.
#[tactic(auto, unfolding(crate::specs::TableFiles::fetch_table))]
pub fn fetch_rows<S: Shelf, T: RowTaker>(
    alloc: Global,
    shelf: &mut S,
    table: &Table,
    limits: &Limits,
    left: &mut u64,
    taker: &mut T,
) -> Result<(), Stop>
    requires limits { AreLimits limits.now }
    requires none { T.rows taker.old ≡ [] }
    ensures table { Fetches (fetch_table limits.now table.now) (λ _. T.rows taker.new) 1 result (S.told shelf.old) (S.told shelf.new) left.old left.new }
    ensures beside { OnOk result (T.beside taker.new ≡ T.beside taker.old) }
    ensures valid { OnOk result (All (IsRowOf table.now.attrs limits.now.cell_bytes) (T.rows taker.new)) }
{
    let bytes = fetch_file(shelf, &table.file, limits, left)?;
    hand_over(alloc, table, &bytes, limits, taker)
}

fn hand_over<T: RowTaker>(
    alloc: Global,
    table: &Table,
    bytes: &[u8],
    limits: &Limits,
    taker: &mut T,
) -> Result<(), Stop>
    requires limits { AreLimits limits.now }
    requires none { T.rows taker.old ≡ [] }
    ensures rows { Reads (about table.now.file (tabled (table_of table.now limits.now bytes.now))) (λ _. T.rows taker.new) result }
    ensures beside { OnOk result (T.beside taker.new ≡ T.beside taker.old) }
    ensures valid { OnOk result (All (IsRowOf table.now.attrs limits.now.cell_bytes) (T.rows taker.new)) }
{
    taker.expect(bytes.len());
    match read_rows(alloc, table, bytes, limits, taker) {
        Ok(()) => Ok(()),
        Err(TableFault::Memory) => Err(Stop::Memory),
        Err(fault) => refused(&table.file, Cause::Table(fault)),
    }
}
