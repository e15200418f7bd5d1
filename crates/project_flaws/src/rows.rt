//! The rows of each table of a bench.
ghost use Rattle.std.specs.Prelude.{◌≡◌, ◌<◌, IfOk, length};
ghost use Rattle.bench_core.specs.State.{rows_at};
ghost use Rattle.project_flaws.specs.Rows.{all_rows, parted};

use bench_core::Bench;
use row_store::RowId;
use schema_core::{List, Texts};
use std::alloc::{AllocError, Global};

/// The rows of a table: their ids, and their texts in the same order.
#[derive(Drop)]
pub struct TableRows {
    pub ids: List<RowId>,
    pub texts: List<Texts>,
}

/// The rows of each table, in the order of the schema.
pub fn all_rows(alloc: Global, bench: &Bench) -> Result<List<TableRows>, AllocError>
    ensures { IfOk result (λ all. all ≡ all_rows bench.now.history.present) }
{
    let mut all = List::new(alloc);
    for table in 0..bench.table_count() {
        let rows = rows_of(alloc, bench, table)?;
        all.push(rows)?;
    }
    Ok(all)
}

fn rows_of(alloc: Global, bench: &Bench, table: usize) -> Result<TableRows, AllocError>
    requires { table < length bench.now.history.present }
    ensures { IfOk result (λ rows. rows ≡ parted (rows_at bench.now.history.present table)) }
{
    let rows = bench.rows(table)?;
    let mut ids = List::new(alloc);
    let mut all = List::new(alloc);
    for row in rows.into_vec() {
        let (id, texts) = row;
        ids.push(id)?;
        all.push(texts)?;
    }
    Ok(TableRows { ids, texts: all })
}
