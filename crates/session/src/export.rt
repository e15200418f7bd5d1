//! The rows of a table as a table file.

ghost use Rattle.std.specs.Prelude.{◌≡◌, ◌++◌, ◌<◌, IfOk, OnOk, length};
ghost use Rattle.cfd_semantics.specs.Tuple.{tuples_of};
ghost use Rattle.session.specs.Replies.{export_text, rows_text};

use bench_core::Bench;
use csv_tables::write_table;
use edit_replies::push_refused;
use row_store::RowId;
use schema_core::{List, Text, Texts};
use std::alloc::{AllocError, Global};
use violation_report::push_counted;

/// Tells the rows of the named table.
pub fn push_exported(
    alloc: Global,
    out: &mut Vec<u8>,
    bench: &Bench,
    table: &Text,
) -> Result<(), AllocError>
    ensures { OnOk result (out.new.items ≡ out.old.items ++ export_text bench.now.rules bench.now.history.present table.now) }
{
    match bench.rules().schema().table_named(table.as_str()) {
        Some(number) => push_rows(alloc, out, bench, number),
        None => push_refused(out, b"UnknownTable"),
    }
}

fn push_rows(
    alloc: Global,
    out: &mut Vec<u8>,
    bench: &Bench,
    number: usize,
) -> Result<(), AllocError>
    requires { number < length bench.now.rules.schema.tables }
    ensures { OnOk result (out.new.items ≡ out.old.items ++ rows_text bench.now.rules bench.now.history.present number) }
{
    let table = &bench.rules().schema().tables.as_slice()[number];
    let stored = bench.rows(number)?;
    let rows = tuples_of(alloc, stored)?;
    let count = rows.as_slice().len();
    let file = write_table(alloc, table, &rows)?;
    out.extend_from_slice(&file)?;
    push_counted(out, b"exported", count)
}

/// The texts of rows, without their ids.
fn tuples_of(alloc: Global, rows: List<(RowId, Texts)>) -> Result<List<Texts>, AllocError>
    ensures { IfOk result (λ tuples. tuples ≡ tuples_of rows) }
{
    let mut tuples = List::new(alloc);
    for row in rows.into_vec() {
        let (_, texts) = row;
        tuples.push(texts)?;
    }
    Ok(tuples)
}
