//! The form `find PROJECT TABLE WIDTH SUPPORT`: the dependencies that hold in a table of a project, as a rule file. Only the
//! schema and the file of that table are read.
#![tactic(auto)]

ghost use Rattle.std.specs.Prelude.{◌≡◌, ◌≤◌, length, All, IfOk};
ghost use Rattle.text_lists.specs.Limits.{AreLimits};
ghost use Rattle.line_grammar.specs.Faults.{UnlessMemory};
ghost use Rattle.cli_output.specs.Fetching.{Fetches, IsReadFault, Reads, about, refusal_in};
ghost use Rattle.cli_output.specs.Output.{Ends, Output, UsesDevices, Writes};
ghost use Rattle.find_form.specs.FindForm.{IsFoundText, IsTooMany, fetch_asked, fetch_known, find_outputs, find_task, known, table_in, too_many};

use cli_output::{Cause, Status, Stop, end_by, end_with, fetch_schema, fetch_table, refused};
use dep_finder::{FindFault, find_deps, found_text};
use hash_keys::HashKeys;
use schema_core::{Limits, List, Schema, Table, Text, Texts};
use shelf_io::{Shelf, Sink};
use std::alloc::Global;

/// How many dependencies are written at most.
const MOST: usize = 100_000;

/// A table of a project, its number there, and its rows.
#[derive(Drop)]
pub struct Asked {
    pub number: usize,
    pub table: Table,
    pub rows: List<Texts>,
}

/// Writes the dependencies that hold in a table of a project: of at most so many attributes on the left, plain ones, and
/// constant ones that at least so many rows match.
pub fn find_project<S: Shelf, O: Sink>(
    alloc: Global,
    keys: HashKeys,
    project: &Text,
    table: &Text,
    width: usize,
    support: usize,
    shelf: &mut S,
    out: &mut O,
    limits: &Limits,
) -> Status
    requires limits { AreLimits limits.now }
    requires some { 1 ≤ width }
    requires narrow { width ≤ 3 }
    requires support { 1 ≤ support }
    ensures written { Writes (Output limits.now (find_task limits.now project.now table.now width support) (S.told shelf.old).holding) result (O.told out.old).written (O.told out.new).written }
    ensures devices { UsesDevices limits.now (find_task limits.now project.now table.now width support) result (S.told shelf.old) (S.told shelf.new) (O.told out.old) (O.told out.new) }
{
    let mut left = limits.all_bytes;
    match fetch_asked(alloc, shelf, project, table, limits, &mut left) {
        Ok(asked) => answer(alloc, keys, &asked, table, width, support, out),
        Err(stop) => end_by(alloc, &stop, out),
    }
}

/// The table and its rows.
#[tactic(auto, unfolding(crate::specs::FindForm::fetch_asked))]
fn fetch_asked<S: Shelf>(
    alloc: Global,
    shelf: &mut S,
    project: &Text,
    name: &Text,
    limits: &Limits,
    left: &mut u64,
) -> Result<Asked, Stop>
    requires { AreLimits limits.now }
    ensures asked { Fetches (fetch_asked limits.now project.now name.now) (λ asked. asked) 2 result (S.told shelf.old) (S.told shelf.new) left.old left.new }
    ensures rows { IfOk result (λ asked. All (λ row. length row ≡ length asked.table.attrs) asked.rows) }
{
    let known = fetch_known(alloc, shelf, project, name, limits, left)?;
    let rows = fetch_table(alloc, shelf, &known.1, limits, left)?;
    let (number, table) = known;
    Ok(Asked {
        number,
        table,
        rows,
    })
}

/// The table of that name, behind its number.
#[tactic(auto, unfolding(crate::specs::FindForm::fetch_known))]
fn fetch_known<S: Shelf>(
    alloc: Global,
    shelf: &mut S,
    project: &Text,
    name: &Text,
    limits: &Limits,
    left: &mut u64,
) -> Result<(usize, Table), Stop>
    requires { AreLimits limits.now }
    ensures { Fetches (fetch_known limits.now project.now name.now) (λ known. known) 1 result (S.told shelf.old) (S.told shelf.new) left.old left.new }
{
    let schema = fetch_schema(alloc, shelf, project, limits, left)?;
    known(schema, name)
}

fn known(schema: Schema, name: &Text) -> Result<(usize, Table), Stop>
    ensures { Reads (about name.now (known (table_in schema name.now))) (λ known. known) result }
{
    match schema.table_named(name.as_str()) {
        Some(number) => {
            let mut tables = schema.tables.into_vec();
            Ok((number, tables.swap_remove(number)))
        }
        None => refused(name, Cause::UnknownTable),
    }
}

/// Writes what is found, or the refusal of the word where that is too much.
fn answer<O: Sink>(
    alloc: Global,
    keys: HashKeys,
    asked: &Asked,
    name: &Text,
    width: usize,
    support: usize,
    out: &mut O,
) -> Status
    requires rows { All (λ row. length row ≡ length asked.now.table.attrs) asked.now.rows }
    requires some { 1 ≤ width }
    requires narrow { width ≤ 3 }
    requires support { 1 ≤ support }
    ensures { Ends (find_outputs name.now width support asked.now) result (O.told out.old) (O.told out.new) }
{
    match found_in(alloc, keys, asked, name, width, support) {
        Ok(text) => end_with(out, &text, Status::Clean),
        Err(stop) => end_by(alloc, &stop, out),
    }
}

fn found_in(
    alloc: Global,
    keys: HashKeys,
    asked: &Asked,
    name: &Text,
    width: usize,
    support: usize,
) -> Result<Vec<u8>, Stop>
    requires rows { All (λ row. length row ≡ length asked.now.table.attrs) asked.now.rows }
    requires some { 1 ≤ width }
    requires narrow { width ≤ 3 }
    requires support { 1 ≤ support }
    ensures text { UnlessMemory refusal_in (λ text. IsFoundText asked.now width support text.items) (λ refusal. IsTooMany asked.now width support × (refusal ≡ too_many name.now)) result }
    ensures no_fault { IsReadFault result → ⊥ }
{
    match find_deps(
        alloc,
        keys,
        &asked.table,
        asked.number,
        &asked.rows,
        width,
        support,
        MOST,
    ) {
        Ok(found) => Ok(found_text(alloc, &asked.table, &found)?),
        Err(FindFault::TooMany) => refused(name, Cause::TooManyFound),
        Err(FindFault::Memory) => Err(Stop::Memory),
    }
}
