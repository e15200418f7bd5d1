//! One row.

ghost use Rattle.std.specs.Prelude.{◌≡◌, ◌++◌, None, IfOk, OnOk, codes, decimal, zip};
ghost use Rattle.std.specs.List.{flat_map};
ghost use Rattle.view_list.specs.Groups.{group_text, missing_text};
ghost use Rattle.view_list.specs.Listed.{only_if};
ghost use Rattle.view_list.specs.Rows.{cell_line, cells_text, cind_of_row, dep_of_row, has_id, no_row, no_table, row_body, row_text, standing_text, stands_in};

use crate::attrs::{attrs_at, table_name};
use crate::groups::push_group;
use crate::listed::{push_refused, read_of};
use crate::missing::push_missing;
use crate::pieces::push_id;
use row_store::RowId;
use rule_model::{Cind, Dep, RuleBook};
use schema_core::{Attr, List, Schema, Text, Texts, push_number, push_quoted};
use std::alloc::{AllocError, Global};
use violation_groups::{Findings, Group, Missing};

// ---- values

fn push_cell(out: &mut Vec<u8>, attr: &Attr, value: &Text) -> Result<(), AllocError>
    ensures { OnOk result (out.new.items ≡ out.old.items ++ cell_line (attr.now, value.now)) }
{
    out.extend_from_slice(b"  ")?;
    out.extend_from_slice(attr.name.as_str().as_bytes())?;
    out.extend_from_slice(b" ")?;
    push_quoted(out, value.as_str())?;
    out.extend_from_slice(b"\n")
}

fn push_row_values(out: &mut Vec<u8>, attrs: &[Attr], texts: &[Text]) -> Result<(), AllocError>
    ensures { OnOk result (out.new.items ≡ out.old.items ++ flat_map cell_line (zip attrs.now texts.now)) }
{
    for i in 0..attrs.len().min(texts.len()) {
        push_cell(out, &attrs[i], &texts[i])?;
    }
    Ok(())
}

fn push_cells(
    out: &mut Vec<u8>,
    schema: &Schema,
    counts: &[u64],
    table: usize,
    row: RowId,
    texts: &[Text],
) -> Result<(), AllocError>
    ensures { OnOk result (out.new.items ≡ out.old.items ++ cells_text schema.now counts.now table row texts.now) }
{
    out.extend_from_slice(b"row ")?;
    push_id(out, read_of(counts, table), row)?;
    out.extend_from_slice(b" of ")?;
    out.extend_from_slice(table_name(schema, table).as_bytes())?;
    out.extend_from_slice(b"\n")?;
    push_row_values(out, attrs_at(schema, table), texts)
}

// ---- groups in which the row stands

fn has_id(row: RowId, rows: &[RowId]) -> bool
    ensures { result ≡ has_id row rows.now }
{
    rows.iter().any(|id| *id == row)
}

fn stands_in(row: RowId, group: &Group) -> bool
    ensures { result ≡ stands_in row group.now }
{
    group
        .values
        .as_slice()
        .iter()
        .any(|value| has_id(row, value.rows.as_slice()))
}

fn push_if_in(
    out: &mut Vec<u8>,
    read: u64,
    attrs: &[Attr],
    row: RowId,
    dep: &Dep,
    group: &Group,
) -> Result<(), AllocError>
    ensures { OnOk result (out.new.items ≡ out.old.items ++ only_if (stands_in row group.now) (group_text None read attrs.now dep.now group.now)) }
{
    if stands_in(row, group) {
        push_group(out, None, read, attrs, dep, group)
    } else {
        Ok(())
    }
}

fn push_dep_groups(
    out: &mut Vec<u8>,
    read: u64,
    attrs: &[Attr],
    row: RowId,
    dep: &Dep,
    groups: &[Group],
) -> Result<(), AllocError>
    ensures { OnOk result (out.new.items ≡ out.old.items ++ flat_map (λ (group : Group). only_if (stands_in row group) (group_text None read attrs.now dep.now group)) groups.now) }
{
    for group in groups {
        push_if_in(out, read, attrs, row, dep, group)?;
    }
    Ok(())
}

fn push_of_dep(
    out: &mut Vec<u8>,
    schema: &Schema,
    counts: &[u64],
    table: usize,
    row: RowId,
    dep: &Dep,
    groups: &List<Group>,
) -> Result<(), AllocError>
    ensures { OnOk result (out.new.items ≡ out.old.items ++ dep_of_row schema.now counts.now table row (dep.now, groups.now)) }
{
    if dep.table != table {
        return Ok(());
    }
    let read = read_of(counts, dep.table);
    let attrs = attrs_at(schema, dep.table);
    push_dep_groups(out, read, attrs, row, dep, groups.as_slice())
}

fn push_of_deps(
    out: &mut Vec<u8>,
    schema: &Schema,
    counts: &[u64],
    table: usize,
    row: RowId,
    deps: &[Dep],
    found: &[List<Group>],
) -> Result<(), AllocError>
    ensures { OnOk result (out.new.items ≡ out.old.items ++ flat_map (dep_of_row schema.now counts.now table row) (zip deps.now found.now)) }
{
    for i in 0..deps.len().min(found.len()) {
        push_of_dep(out, schema, counts, table, row, &deps[i], &found[i])?;
    }
    Ok(())
}

fn push_if_missing(
    out: &mut Vec<u8>,
    read: u64,
    schema: &Schema,
    row: RowId,
    cind: &Cind,
    missing: &Missing,
) -> Result<(), AllocError>
    ensures { OnOk result (out.new.items ≡ out.old.items ++ only_if (has_id row missing.now.rows) (missing_text None read schema.now cind.now missing.now)) }
{
    if has_id(row, missing.rows.as_slice()) {
        push_missing(out, None, read, schema, cind, missing)
    } else {
        Ok(())
    }
}

fn push_cind_groups(
    out: &mut Vec<u8>,
    read: u64,
    schema: &Schema,
    row: RowId,
    cind: &Cind,
    missing: &[Missing],
) -> Result<(), AllocError>
    ensures { OnOk result (out.new.items ≡ out.old.items ++ flat_map (λ (missing : Missing). only_if (has_id row missing.rows) (missing_text None read schema.now cind.now missing)) missing.now) }
{
    for key in missing {
        push_if_missing(out, read, schema, row, cind, key)?;
    }
    Ok(())
}

fn push_of_cind(
    out: &mut Vec<u8>,
    schema: &Schema,
    counts: &[u64],
    table: usize,
    row: RowId,
    cind: &Cind,
    missing: &List<Missing>,
) -> Result<(), AllocError>
    ensures { OnOk result (out.new.items ≡ out.old.items ++ cind_of_row schema.now counts.now table row (cind.now, missing.now)) }
{
    if cind.left != table {
        return Ok(());
    }
    let read = read_of(counts, cind.left);
    push_cind_groups(out, read, schema, row, cind, missing.as_slice())
}

fn push_of_cinds(
    out: &mut Vec<u8>,
    schema: &Schema,
    counts: &[u64],
    table: usize,
    row: RowId,
    cinds: &[Cind],
    found: &[List<Missing>],
) -> Result<(), AllocError>
    ensures { OnOk result (out.new.items ≡ out.old.items ++ flat_map (cind_of_row schema.now counts.now table row) (zip cinds.now found.now)) }
{
    for i in 0..cinds.len().min(found.len()) {
        push_of_cind(out, schema, counts, table, row, &cinds[i], &found[i])?;
    }
    Ok(())
}

/// The groups and the missing keys in which a row of a table stands.
pub fn row_body(
    alloc: Global,
    rules: &RuleBook,
    counts: &[u64],
    table: usize,
    row: RowId,
    findings: &Findings,
) -> Result<Vec<u8>, AllocError>
    ensures { IfOk result (λ body. body.items ≡ row_body rules.now counts.now table row findings.now) }
{
    let mut out = Vec::new(alloc);
    let schema = rules.schema();
    let (deps, cinds) = (rules.deps().as_slice(), rules.cinds().as_slice());
    push_of_deps(
        &mut out,
        schema,
        counts,
        table,
        row,
        deps,
        findings.deps.as_slice(),
    )?;
    push_of_cinds(
        &mut out,
        schema,
        counts,
        table,
        row,
        cinds,
        findings.cinds.as_slice(),
    )?;
    Ok(out)
}

fn push_standing(out: &mut Vec<u8>, body: &[u8]) -> Result<(), AllocError>
    ensures { OnOk result (out.new.items ≡ out.old.items ++ standing_text body.now) }
{
    if body.is_empty() {
        return out.extend_from_slice(b"no violations\n");
    }
    out.extend_from_slice(b"breaks\n")?;
    out.extend_from_slice(body)
}

/// The whole text of a row with these values, by what is told of the rules.
pub fn row_text(
    alloc: Global,
    schema: &Schema,
    counts: &[u64],
    table: usize,
    row: RowId,
    texts: &Texts,
    body: &[u8],
) -> Result<Vec<u8>, AllocError>
    ensures { IfOk result (λ text. text.items ≡ row_text schema.now counts.now table row texts.now body.now) }
{
    let mut out = Vec::new(alloc);
    push_cells(&mut out, schema, counts, table, row, texts.as_slice())?;
    push_standing(&mut out, body)?;
    Ok(out)
}

// ---- a row that is not there

/// The line that refuses a table that isn't there.
pub fn no_table(alloc: Global, table: &Text) -> Result<Vec<u8>, AllocError>
    ensures { IfOk result (λ line. line.items ≡ no_table table.now) }
{
    let mut out = Vec::new(alloc);
    push_refused(&mut out, table, b"UnknownTable")?;
    Ok(out)
}

fn unknown_row(alloc: Global, row: RowId) -> Result<Vec<u8>, AllocError>
    ensures { IfOk result (λ cause. cause.items ≡ codes "UnknownRow " ++ decimal row) }
{
    let mut out = Vec::new(alloc);
    out.extend_from_slice(b"UnknownRow ")?;
    push_number(&mut out, row)?;
    Ok(out)
}

/// The line that refuses a row that isn't there.
pub fn no_row(alloc: Global, table: &Text, row: RowId) -> Result<Vec<u8>, AllocError>
    ensures { IfOk result (λ line. line.items ≡ no_row table.now row) }
{
    let cause = unknown_row(alloc, row)?;
    let mut out = Vec::new(alloc);
    push_refused(&mut out, table, &cause)?;
    Ok(out)
}
