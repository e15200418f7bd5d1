//! What is off in a project that was read, as text.
ghost use Rattle.std.specs.Prelude.{◌≡◌, ◌++◌, ◌&&◌, IfOk, OnOk};
ghost use Rattle.std.specs.List.{flat_map};
ghost use Rattle.cli_output.specs.Output.{IsWhole};
ghost use Rattle.project_flaws.specs.Rows.{all_rows};
ghost use Rattle.project_flaws.specs.Told.{IsTold, counted, flaw_line, has_no_flaw, id_at, is_clean, long_line, repeated_line, row_words, spaced_line, status_of, table_text, tables_clean, tables_text, whole_text};

use crate::edits::push_edits;
use crate::names::push_name;
use crate::rows::{TableRows, all_rows};
use crate::verdicts::{Verdict, are_good, push_verdicts, verdicts};
use bench_core::Bench;
use cli_output::Status;
use hash_keys::HashKeys;
use row_store::RowId;
use rule_model::RuleBook;
use schema_core::{Table, push_number};
use std::alloc::{AllocError, Global};
use table_flaws::{Flaw, flaws_of};
use view_refusal::push_count;

/// Whether the number of rows of each table is told, too, or only what is off.
#[derive(Clone, Copy)]
pub enum Counts {
    Told,
    LeftOut,
}

/// What is told of a project, and how the call ends.
#[derive(Drop)]
pub struct Told {
    pub text: Vec<u8>,
    pub status: Status,
}

fn status_of(clean: bool) -> Status
    ensures status { result ≡ status_of clean }
    ensures whole { IsWhole result }
{
    if clean {
        Status::Clean
    } else {
        Status::Findings
    }
}

/// What is off in a project that was read, by the rows that its bench has, each told by its id: a line for each thing, and no
/// other text but the numbers of rows.
pub fn told_on(alloc: Global, bench: &Bench, counts: Counts) -> Result<Told, AllocError>
    ensures told { IfOk result (λ told. IsTold counts bench.now.rules (all_rows bench.now.history.present) told.text.items told.status) }
    ensures whole { IfOk result (λ told. IsWhole told.status) }
{
    let all = all_rows(alloc, bench)?;
    told_of(
        alloc,
        bench.pool().hash_keys(),
        bench.rules(),
        all.as_slice(),
        counts,
    )
}

/// The same of rules and of the rows of their tables, in the order of the schema.
fn told_of(
    alloc: Global,
    keys: HashKeys,
    rules: &RuleBook,
    tables: &[TableRows],
    counts: Counts,
) -> Result<Told, AllocError>
    ensures told { IfOk result (λ told. IsTold counts rules.now tables.now told.text.items told.status) }
    ensures whole { IfOk result (λ told. IsWhole told.status) }
{
    let verdicts = verdicts(alloc, rules)?;
    let mut text = Vec::new(alloc);
    let clean = push_whole(
        alloc,
        keys,
        &mut text,
        rules,
        tables,
        verdicts.as_slice(),
        counts,
    )?;
    let status = status_of(clean);
    Ok(Told { text, status })
}

fn push_whole(
    alloc: Global,
    keys: HashKeys,
    out: &mut Vec<u8>,
    rules: &RuleBook,
    all: &[TableRows],
    verdicts: &[Verdict],
    counts: Counts,
) -> Result<bool, AllocError>
    ensures text { OnOk result (out.new.items ≡ out.old.items ++ whole_text counts rules.now all.now verdicts.now) }
    ensures clean { IfOk result (λ clean. clean ≡ is_clean rules.now all.now verdicts.now) }
{
    let tables = rules.schema().tables.as_slice();
    let even = push_tables(alloc, keys, out, tables, all, counts)?;
    push_verdicts(out, tables, verdicts)?;
    let apply = push_edits(out, rules.schema(), all, rules.edits().as_slice())?;
    Ok(even && are_good(verdicts) && apply)
}

fn push_tables(
    alloc: Global,
    keys: HashKeys,
    out: &mut Vec<u8>,
    tables: &[Table],
    all: &[TableRows],
    counts: Counts,
) -> Result<bool, AllocError>
    ensures text { OnOk result (out.new.items ≡ out.old.items ++ tables_text counts tables.now all.now) }
    ensures clean { IfOk result (λ clean. clean ≡ tables_clean tables.now all.now) }
{
    let mut clean = true;
    for (table, rows) in tables.iter().zip(all) {
        let none = push_table(alloc, keys, out, table, rows, counts)?;
        clean = clean && none;
    }
    Ok(clean)
}

fn push_table(
    alloc: Global,
    keys: HashKeys,
    out: &mut Vec<u8>,
    table: &Table,
    rows: &TableRows,
    counts: Counts,
) -> Result<bool, AllocError>
    ensures text { OnOk result (out.new.items ≡ out.old.items ++ table_text counts table.now rows.now) }
    ensures clean { IfOk result (λ none. none ≡ has_no_flaw table.now rows.now) }
{
    let flaws = flaws_of(
        alloc,
        keys,
        table.attrs.as_slice().len(),
        rows.texts.as_slice(),
    )?;
    push_counted(out, table, rows, counts)?;
    push_flaws(out, table, rows.ids.as_slice(), flaws.as_slice())?;
    Ok(flaws.as_slice().is_empty())
}

fn push_counted(
    out: &mut Vec<u8>,
    table: &Table,
    rows: &TableRows,
    counts: Counts,
) -> Result<(), AllocError>
    ensures { OnOk result (out.new.items ≡ out.old.items ++ counted counts table.now rows.now) }
{
    match counts {
        Counts::Told => push_count(out, table, rows.texts.as_slice().len()),
        Counts::LeftOut => Ok(()),
    }
}

fn push_flaws(
    out: &mut Vec<u8>,
    table: &Table,
    ids: &[RowId],
    flaws: &[Flaw],
) -> Result<(), AllocError>
    ensures { OnOk result (out.new.items ≡ out.old.items ++ flat_map (flaw_line table.now ids.now) flaws.now) }
{
    for flaw in flaws {
        push_flaw(out, table, ids, *flaw)?;
    }
    Ok(())
}

fn push_flaw(out: &mut Vec<u8>, table: &Table, ids: &[RowId], flaw: Flaw) -> Result<(), AllocError>
    ensures { OnOk result (out.new.items ≡ out.old.items ++ flaw_line table.now ids.now flaw) }
{
    match flaw {
        Flaw::Long { attr, row } => push_long(out, table, id_at(ids, row), attr),
        Flaw::Spaced { attr, row } => push_spaced(out, table, id_at(ids, row), attr),
        Flaw::Repeated { row } => push_repeated(out, table, id_at(ids, row)),
    }
}

/// The id of a row by its place, counted from 1. A place beyond the ids stands for itself.
fn id_at(ids: &[RowId], place: usize) -> RowId
    ensures { result ≡ id_at ids.now place }
{
    match ids.get(place.saturating_sub(1)) {
        Some(id) => *id,
        None => place as RowId,
    }
}

fn push_long(out: &mut Vec<u8>, table: &Table, row: RowId, attr: usize) -> Result<(), AllocError>
    ensures { OnOk result (out.new.items ≡ out.old.items ++ long_line table.now row attr) }
{
    push_row(out, table, row)?;
    push_name(out, table, attr)?;
    out.extend_from_slice(b" runs over more than ten lines\n")
}

fn push_spaced(out: &mut Vec<u8>, table: &Table, row: RowId, attr: usize) -> Result<(), AllocError>
    ensures { OnOk result (out.new.items ≡ out.old.items ++ spaced_line table.now row attr) }
{
    push_row(out, table, row)?;
    push_name(out, table, attr)?;
    out.extend_from_slice(b" has blanks at an end, and stands without them in another row\n")
}

fn push_repeated(out: &mut Vec<u8>, table: &Table, row: RowId) -> Result<(), AllocError>
    ensures { OnOk result (out.new.items ≡ out.old.items ++ repeated_line table.now row) }
{
    push_row(out, table, row)?;
    out.extend_from_slice(b"stands above, too\n")
}

fn push_row(out: &mut Vec<u8>, table: &Table, row: RowId) -> Result<(), AllocError>
    ensures { OnOk result (out.new.items ≡ out.old.items ++ row_words table.now row) }
{
    out.extend_from_slice(table.name.as_str().as_bytes())?;
    out.extend_from_slice(b" row ")?;
    push_number(out, row)?;
    out.extend_from_slice(b": ")
}
