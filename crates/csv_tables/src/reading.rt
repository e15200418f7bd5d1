//! Reading a table file.

ghost use Rattle.std.specs.Prelude.{◌≡◌, ◌≤◌, Err, IfOk, OnOk, All, length, map};
ghost use Rattle.csv.specs.Reading.{AreRecords, default_config, strip_bom};
ghost use Rattle.csv.specs.Records.{fields_of};
ghost use Rattle.csv.specs.declared.parser.State.TheVariants as st;
ghost use Rattle.line_grammar.specs.Faults.{IsUnlessMemory, UnlessMemory};
ghost use Rattle.text_lists.specs.Limits.{AreLimits};
ghost use Rattle.csv_tables.specs.Faults.{IsFirstFault, table_tells};
ghost use Rattle.csv_tables.specs.Records.{file_records};
ghost use Rattle.schema_core.specs.Rows.{IsRowOf};
ghost use Rattle.csv_tables.specs.Taken.{HasTaken, TakesRows};
ghost use Rattle.csv_tables.specs.TableFiles.{records_fault, row_of, table_of};

use crate::columns::Columns;
use crate::fault::TableFault;
use crate::records::FileRecords;
use csv::ByteRecord;
use row_takers::RowTaker;
use schema_core::{Limits, List, Table, Texts};
use std::alloc::Global;

/// The rows of a table file, the fields of each in the order of the schema. The file is read as the crate
/// `csv` reads it in its default dialect, after one byte order mark; its first record is the header.
pub fn read_table(
    alloc: Global,
    table: &Table,
    bytes: &[u8],
    limits: &Limits,
) -> Result<List<Texts>, TableFault>
    requires { AreLimits limits.now }
    ensures exact { IsUnlessMemory table_tells (table_of table.now limits.now bytes.now) result }

    // What `table_of` reads are all records of the file: each is the next one, and after the last there is none.
    ensures records { AreRecords default_config st.StartRecord (strip_bom bytes.now) (file_records bytes.now) }

    // What callers use of the rows most often follows from `rows`.
    ensures valid { IfOk result (λ rows. All (IsRowOf table.now.attrs limits.now.cell_bytes) rows) }
    ensures few { IfOk result (λ rows. length rows ≤ limits.now.rows) }
{
    let mut rows = List::new(alloc);
    read_rows(alloc, table, bytes, limits, &mut rows)?;
    Ok(rows)
}

/// Reads a table file as `read_table` does, and hands its rows over one by one, in the order of the file. No field gets
/// memory of its own before it is handed over. Where the file is refused, nothing is promised of what the taker holds: it
/// may have the rows before the fault.
pub fn read_rows<T: RowTaker>(
    alloc: Global,
    table: &Table,
    bytes: &[u8],
    limits: &Limits,
    taker: &mut T,
) -> Result<(), TableFault>
    requires { AreLimits limits.now }
    ensures read { UnlessMemory table_tells (λ _. TakesRows ⟦<T as RowTaker>⟧ table.now limits.now bytes.now taker.old taker.new) (λ f. table_of table.now limits.now bytes.now ≡ Err f) result }
{
    let mut records = FileRecords::new(alloc, bytes);
    let mut header = ByteRecord::new(alloc);
    if !records.next(&mut header)? {
        return Err(TableFault::NoHeader);
    }
    let columns = Columns::of_header(alloc, table, header)?;
    hand_over(alloc, &columns, limits, records, taker)
}

// Hands over the rows of the records under the header.
fn hand_over<T: RowTaker>(
    alloc: Global,
    columns: &Columns,
    limits: &Limits,
    mut records: FileRecords,
    taker: &mut T,
) -> Result<(), TableFault>
    requires { AreLimits limits.now }
    ensures fault { IsFirstFault (records_fault columns.now.table.now limits.now (fields_of columns.now.header) 1 records.entry) result }
    ensures taken { OnOk result (HasTaken ⟦<T as RowTaker>⟧ (map (row_of columns.now.table.now.attrs (fields_of columns.now.header)) records.entry) taker.old taker.new) }
{
    let mut fields = ByteRecord::new(alloc);
    let mut at = 1;
    'records: while records.next(&mut fields)? {
        let row = columns.row(alloc, limits, at, &fields)?;
        taker.put(alloc, row.as_slice())?;
        at += 1;
    }
    Ok(())
}
