//! The form `schema FILE..` of `cfdview`: a schema as a draft, with a table for each file.
#![tactic(auto)]

ghost use Rattle.std.specs.Prelude.{length};
ghost use Rattle.text_lists.specs.Limits.{AreLimits};
ghost use Rattle.schema_draft.specs.Drafts.{draft_of, tables_from};
ghost use Rattle.schema_draft.specs.Sheets.{sheet_of};
ghost use Rattle.cli_output.specs.Fetching.{Fetches, Reads, about};
ghost use Rattle.cli_output.specs.Output.{Ends, Output, UsesDevices, Writes};
ghost use Rattle.view_schema.specs.SchemaForm.{fetch_sheet, fetch_sheets, schema_outputs, schema_task, spread};

use cli_output::{Cause, Status, Stop, end_by, end_with, fetch_file, refused};
use csv_tables::TableFault;
use hash_keys::HashKeys;
use schema_core::{Limits, List, Table, Text};
use schema_draft::{Sheet, draft_of, read_sheet, tables_of};
use shelf_io::{Shelf, Sink};
use std::alloc::{AllocError, Global};

/// Writes a schema as a draft, with a table for each of the named files, and comments on what their columns show. The
/// first file that is not there, or that no table can be read from, is refused.
pub fn draft_schema<S: Shelf, O: Sink>(
    alloc: Global,
    keys: HashKeys,
    files: &[Text],
    shelf: &mut S,
    out: &mut O,
    limits: &Limits,
) -> Status
    requires { AreLimits limits.now }
    ensures written { Writes (Output limits.now (schema_task limits.now files.now) (S.told shelf.old).holding) result (O.told out.old).written (O.told out.new).written }
    ensures devices { UsesDevices limits.now (schema_task limits.now files.now) result (S.told shelf.old) (S.told shelf.new) (O.told out.old) (O.told out.new) }
{
    let mut left = limits.all_bytes;
    match fetch_named(alloc, shelf, files, limits, &mut left) {
        Ok(sheets) => answer(alloc, keys, sheets.as_slice(), out),
        Err(stop) => end_by(alloc, &stop, out),
    }
}

/// The sheets of the named files.
fn fetch_named<S: Shelf>(
    alloc: Global,
    shelf: &mut S,
    files: &[Text],
    limits: &Limits,
    left: &mut u64,
) -> Result<List<Sheet>, Stop>
    requires { AreLimits limits.now }
    ensures { Fetches (fetch_sheets limits.now (tables_from 1 files.now)) (λ sheets. sheets) (length files.now) result (S.told shelf.old) (S.told shelf.new) left.old left.new }
{
    let tables = tables_of(alloc, files)?;
    fetch_sheets(alloc, shelf, tables.as_slice(), limits, left)
}

fn fetch_sheets<S: Shelf>(
    alloc: Global,
    shelf: &mut S,
    tables: &[Table],
    limits: &Limits,
    left: &mut u64,
) -> Result<List<Sheet>, Stop>
    requires { AreLimits limits.now }
    ensures { Fetches (fetch_sheets limits.now tables.now) (λ sheets. sheets) (length tables.now) result (S.told shelf.old) (S.told shelf.new) left.old left.new }
{
    let mut sheets = List::new(alloc);
    for table in tables {
        let sheet = fetch_sheet(alloc, shelf, table, limits, left)?;
        sheets.push(sheet)?;
    }
    Ok(sheets)
}

/// The sheet of the file of a table.
#[tactic(auto, unfolding(crate::specs::SchemaForm::fetch_sheet))]
fn fetch_sheet<S: Shelf>(
    alloc: Global,
    shelf: &mut S,
    table: &Table,
    limits: &Limits,
    left: &mut u64,
) -> Result<Sheet, Stop>
    requires { AreLimits limits.now }
    ensures { Fetches (fetch_sheet limits.now table.now) (λ sheet. sheet) 1 result (S.told shelf.old) (S.told shelf.new) left.old left.new }
{
    let bytes = fetch_file(shelf, &table.file, limits, left)?;
    sheet_in(alloc, table, &bytes, limits)
}

fn sheet_in(alloc: Global, table: &Table, bytes: &[u8], limits: &Limits) -> Result<Sheet, Stop>
    requires { AreLimits limits.now }
    ensures { Reads (about table.now.file (spread (sheet_of table.now limits.now bytes.now))) (λ sheet. sheet) result }
{
    match read_sheet(alloc, table, bytes, limits) {
        Ok(sheet) => Ok(sheet),
        Err(TableFault::Memory) => Err(Stop::Memory),
        Err(fault) => refused(&table.file, Cause::Table(fault)),
    }
}

fn answer<O: Sink>(alloc: Global, keys: HashKeys, sheets: &[Sheet], out: &mut O) -> Status
    ensures { Ends (schema_outputs sheets.now) result (O.told out.old) (O.told out.new) }
{
    match draft_of(alloc, keys, sheets) {
        Ok(text) => end_with(out, &text, Status::Clean),
        Err(AllocError) => end_by(alloc, &Stop::Memory, out),
    }
}
