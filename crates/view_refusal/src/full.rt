//! Tables that together have too many rows, or would need too many cells of indexes: how many rows each has.
ghost use Rattle.std.specs.Prelude.{◌≡◌, ◌++◌, OnOk};
ghost use Rattle.view_refusal.specs.Full.{anew_full, counts_text, full_text, most_words, row_total, tables_full, total_line};

use crate::anew::Anew;
use crate::row_counts::push_count;
use cli_output::Cause;
use schema_core::{Limits, List, Schema, Table, Texts, push_number};
use std::alloc::AllocError;

/// Tells how many rows each table has, where together they have too many.
pub fn push_full(
    out: &mut Vec<u8>,
    limits: &Limits,
    cause: &Cause,
    anew: &Anew,
) -> Result<(), AllocError>
    ensures { OnOk result (out.new.items ≡ out.old.items ++ full_text limits.now cause.now anew.now) }
{
    match cause {
        Cause::RowsFull => push_anew(out, limits, &anew.schema, &anew.tables),
        _ => Ok(()),
    }
}

fn push_anew(
    out: &mut Vec<u8>,
    limits: &Limits,
    schema: &Option<Schema>,
    all: &Option<List<List<Texts>>>,
) -> Result<(), AllocError>
    ensures { OnOk result (out.new.items ≡ out.old.items ++ anew_full limits.now schema.now all.now) }
{
    match (schema, all) {
        (Some(schema), Some(all)) => {
            push_tables(out, limits, schema.tables.as_slice(), all.as_slice())
        }
        _ => Ok(()),
    }
}

fn push_tables(
    out: &mut Vec<u8>,
    limits: &Limits,
    tables: &[Table],
    all: &[List<Texts>],
) -> Result<(), AllocError>
    ensures { OnOk result (out.new.items ≡ out.old.items ++ tables_full limits.now tables.now all.now) }
{
    push_counts(out, tables, all)?;
    push_total(out, limits, row_total(all))
}

fn push_counts(out: &mut Vec<u8>, tables: &[Table], all: &[List<Texts>]) -> Result<(), AllocError>
    ensures { OnOk result (out.new.items ≡ out.old.items ++ counts_text tables.now all.now) }
{
    for (table, rows) in tables.iter().zip(all) {
        push_count(out, table, rows.as_slice().len())?;
    }
    Ok(())
}

fn row_total(all: &[List<Texts>]) -> u64
    ensures { result ≡ row_total all.now }
{
    let mut total: u64 = 0;
    for rows in all {
        total = total.saturating_add(rows.as_slice().len() as u64);
    }
    total
}

fn push_total(out: &mut Vec<u8>, limits: &Limits, total: u64) -> Result<(), AllocError>
    ensures { OnOk result (out.new.items ≡ out.old.items ++ total_line limits.now total) }
{
    push_number(out, total)?;
    out.extend_from_slice(b" rows in all tables")?;
    push_most(out, limits)
}

#[tactic(auto, unfolding(crate::specs::Full::most_words))]
fn push_most(out: &mut Vec<u8>, limits: &Limits) -> Result<(), AllocError>
    ensures { OnOk result (out.new.items ≡ out.old.items ++ most_words limits.now) }
{
    out.extend_from_slice(b"; at most ")?;
    push_number(out, limits.rows)?;
    out.extend_from_slice(b" rows, and ")?;
    push_number(out, limits.index_cells)?;
    out.extend_from_slice(b" cells of indexes\n")
}
