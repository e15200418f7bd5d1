//! The tables, and the rules by how many violations they have.
ghost use Rattle.std.specs.Prelude.{◌≡◌, ◌++◌, OnOk};
ghost use Rattle.std.specs.Option.{option_copied};
ghost use Rattle.page_text.specs.Markup.{markup};
ghost use Rattle.page_text.specs.Overview.{bar, row_end, rule_head, rule_link, rule_name, rule_row_at, rule_row_of, rule_rows, table_at, table_of, table_row, tables_rows};

use crate::kinds::Rule;
use crate::markup::{Piece, markup, push};
use crate::rows::{RowCounts, rows_at};
use html_text::{count_at, item, push_cell, push_escaped, push_number_between, push_number_cell};
use schema_core::Table;
use std::alloc::AllocError;
use text_lists::Text;

// ---- tables

pub fn push_tables(out: &mut Vec<u8>, tables: &[Table], rows: &RowCounts) -> Result<(), AllocError>
    ensures { OnOk result (out.new.items ≡ out.old.items ++ tables_rows tables.now rows.now) }
{
    for place in 0..tables.len() {
        push_table_at(out, tables, rows, place)?;
    }
    Ok(())
}

fn push_table_at(
    out: &mut Vec<u8>,
    tables: &[Table],
    rows: &RowCounts,
    place: usize,
) -> Result<(), AllocError>
    ensures { OnOk result (out.new.items ≡ out.old.items ++ table_at tables.now rows.now place) }
{
    let read = rows_at(rows.read.as_slice(), place);
    let now = rows_at(rows.present.as_slice(), place);
    push_table_of(out, item(tables, place), read, now)
}

fn push_table_of(
    out: &mut Vec<u8>,
    table: Option<&Table>,
    read: u64,
    now: u64,
) -> Result<(), AllocError>
    ensures { OnOk result (out.new.items ≡ out.old.items ++ table_of (option_copied table.entry) read now) }
{
    match table {
        Some(table) => push_table(out, table, read, now),
        None => Ok(()),
    }
}

fn push_table(out: &mut Vec<u8>, table: &Table, read: u64, now: u64) -> Result<(), AllocError>
    ensures { OnOk result (out.new.items ≡ out.old.items ++ table_row table.now read now) }
{
    push(out, Piece::Row)?;
    push_cell(out, &table.name)?;
    push_cell(out, &table.file)?;
    push_number_cell(out, read as usize)?;
    push_number_cell(out, now as usize)?;
    push(out, Piece::RowEnd)?;
    Ok(())
}

// ---- rules

/// Appends a row for each rule, with a bar as long as it has violations.
pub fn push_rules<R: Rule>(
    out: &mut Vec<u8>,
    tables: &[Table],
    rules: &[R],
    counts: &[usize],
    largest: usize,
) -> Result<(), AllocError>
    ensures { OnOk result (out.new.items ≡ out.old.items ++ rule_rows R.kind tables.now rules.now counts.now largest) }
{
    for place in 0..rules.len() {
        push_rule_at(out, tables, rules, counts, largest, place)?;
    }
    Ok(())
}

fn push_rule_at<R: Rule>(
    out: &mut Vec<u8>,
    tables: &[Table],
    rules: &[R],
    counts: &[usize],
    largest: usize,
    place: usize,
) -> Result<(), AllocError>
    ensures { OnOk result (out.new.items ≡ out.old.items ++ rule_row_at R.kind tables.now rules.now counts.now largest place) }
{
    let count = count_at(counts, place);
    push_rule_of(out, tables, item(rules, place), place, count, largest)
}

fn push_rule_of<R: Rule>(
    out: &mut Vec<u8>,
    tables: &[Table],
    rule: Option<&R>,
    place: usize,
    count: usize,
    largest: usize,
) -> Result<(), AllocError>
    ensures { OnOk result (out.new.items ≡ out.old.items ++ rule_row_of R.kind tables.now (option_copied rule.entry) place count largest) }
{
    let Some(rule) = rule else {
        return Ok(());
    };
    push_rule_head(out, R::link(), rule.name(), place, count)?;
    rule.push_words(out, tables)?;
    push_row_end(out, count, largest)?;
    Ok(())
}

fn push_rule_head(
    out: &mut Vec<u8>,
    link: Piece,
    name: &Text,
    place: usize,
    count: usize,
) -> Result<(), AllocError>
    ensures { OnOk result (out.new.items ≡ out.old.items ++ rule_head link name.now place count) }
{
    push(out, Piece::FirstCell)?;
    push_rule_name(out, link, name, place, count)?;
    push(out, Piece::Break)?;
    Ok(())
}

fn push_rule_name(
    out: &mut Vec<u8>,
    link: Piece,
    name: &Text,
    place: usize,
    count: usize,
) -> Result<(), AllocError>
    ensures { OnOk result (out.new.items ≡ out.old.items ++ rule_name link name.now place count) }
{
    if count == 0 {
        push_escaped(out, name)
    } else {
        push_rule_link(out, link, name, place)
    }
}

fn push_rule_link(
    out: &mut Vec<u8>,
    link: Piece,
    name: &Text,
    place: usize,
) -> Result<(), AllocError>
    ensures { OnOk result (out.new.items ≡ out.old.items ++ rule_link link name.now place) }
{
    push_number_between(out, markup(link), place, markup(Piece::LinkText))?;
    push_escaped(out, name)?;
    push(out, Piece::LinkEnd)?;
    Ok(())
}

fn push_row_end(out: &mut Vec<u8>, count: usize, largest: usize) -> Result<(), AllocError>
    ensures { OnOk result (out.new.items ≡ out.old.items ++ row_end count largest) }
{
    push(out, Piece::CellEnd)?;
    push_number_cell(out, count)?;
    push_bar(out, count, largest)?;
    Ok(())
}

fn push_bar(out: &mut Vec<u8>, count: usize, largest: usize) -> Result<(), AllocError>
    ensures { OnOk result (out.new.items ≡ out.old.items ++ bar count largest) }
{
    if count == 0 {
        return push(out, Piece::NoBar);
    }
    push_number_between(out, markup(Piece::Bar), count, markup(Piece::Slash))?;
    push_number_between(out, b"", largest, markup(Piece::BarEnd))?;
    Ok(())
}
