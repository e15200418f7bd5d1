//! The rules that a declaration stands for, with numbers in place of names.

ghost use Rattle.std.specs.Prelude.{◌≡◌, ◌<◌, length, map, take, slice_index_or, [], ◌∷◌, ◌++◌, IfOk, OnOk, OnErr};
ghost use Rattle.rule_model.specs.Rules.{row_at, dep_at, cind_of, numbered_pattern, edit_of, deps_of, with_rules_of};

use crate::cind::{Cind, CindRow};
use crate::decl::{Cell, CfdDecl, CfdRow, CindDecl, Decl, EditDecl};
use crate::dep::{Dep, DepRow};
use crate::edit_rule::{EditCell, EditRule};
use crate::lookup::{attr_number, attr_numbers, attrs_of, table_number};
use crate::rules::Rules;
use cfd_semantics::{Dependency, Inclusion, InclusionRow, Pattern, TableauRow, copied_cells};
use schema_core::{Attr, List, Schema, Text};
use std::alloc::{AllocError, Global};

fn copy_cell_at(cells: &[Cell], place: usize) -> Result<Cell, AllocError>
    ensures { IfOk result (λ copy. copy ≡ slice_index_or cells.now place Pattern.Any) }
{
    match cells.get(place) {
        Some(cell) => cell.copied(),
        None => Ok(Pattern::Any),
    }
}

fn dep_row(alloc: Global, row: &CfdRow, place: usize) -> Result<DepRow, AllocError>
    ensures { IfOk result (λ made. made ≡ row_at place row.now) }
{
    Ok(TableauRow {
        x: copied_cells(alloc, row.x.as_slice())?,
        a: copy_cell_at(row.y.as_slice(), place)?,
    })
}

fn dep_rows(alloc: Global, rows: &[CfdRow], place: usize) -> Result<List<DepRow>, AllocError>
    ensures { IfOk result (λ made. made ≡ map (row_at place) rows.now) }
{
    let mut made = List::new(alloc);
    for row in rows {
        made.push(dep_row(alloc, row, place)?)?;
    }
    Ok(made)
}

/// The dependency for the attribute at one place of the right list.
pub fn dep(alloc: Global, schema: &Schema, cfd: &CfdDecl, place: usize) -> Result<Dep, AllocError>
    requires { place < length cfd.now.y }
    ensures { IfOk result (λ dep. dep ≡ dep_at schema.now cfd.now place) }
{
    let attrs = attrs_of(schema, &cfd.table);
    Ok(Dep {
        name: cfd.name.clone()?,
        table: table_number(schema, &cfd.table),
        rule: Dependency {
            x: attr_numbers(alloc, attrs, cfd.x.as_slice())?,
            a: attr_number(attrs, &cfd.y.as_slice()[place]),
            rows: dep_rows(alloc, cfd.rows.as_slice(), place)?,
        },
    })
}

/// Appends one dependency for each attribute of the right list. After a refusal some of them may stand at the end.
#[tactic(auto, unfolding(crate::specs::Rules::deps_of))]
fn append_deps(
    alloc: Global,
    schema: &Schema,
    cfd: &CfdDecl,
    deps: &mut List<Dep>,
) -> Result<(), AllocError>
    ensures ok { OnOk result (deps.new ≡ deps.old ++ deps_of schema.now (Decl.Cfd cfd.now)) }
    ensures front { take (length deps.old) deps.new ≡ deps.old }
{
    for place in 0..cfd.y.as_slice().len() {
        deps.push(dep(alloc, schema, cfd, place)?)?;
    }
    Ok(())
}

fn copy_row(row: &CindRow) -> Result<CindRow, AllocError>
    ensures { IfOk result (λ copy. copy ≡ row.now) }
{
    Ok(InclusionRow {
        xp: row.xp.copied()?,
        yp: row.yp.copied()?,
    })
}

fn copy_rows(alloc: Global, rows: &[CindRow]) -> Result<List<CindRow>, AllocError>
    ensures { IfOk result (λ copy. copy ≡ rows.now) }
{
    let mut copy = List::new(alloc);
    for row in rows {
        copy.push(copy_row(row)?)?;
    }
    Ok(copy)
}

fn cind(alloc: Global, schema: &Schema, decl: &CindDecl) -> Result<Cind, AllocError>
    ensures { IfOk result (λ cind. cind ≡ cind_of schema.now decl.now) }
{
    let lefts = attrs_of(schema, &decl.left);
    let rights = attrs_of(schema, &decl.right);
    Ok(Cind {
        name: decl.name.clone()?,
        left: table_number(schema, &decl.left),
        right: table_number(schema, &decl.right),
        rule: Inclusion {
            x: attr_numbers(alloc, lefts, decl.x.as_slice())?,
            xp: attr_numbers(alloc, lefts, decl.xp.as_slice())?,
            y: attr_numbers(alloc, rights, decl.y.as_slice())?,
            yp: attr_numbers(alloc, rights, decl.yp.as_slice())?,
            rows: copy_rows(alloc, decl.rows.as_slice())?,
        },
    })
}

fn copy_edit_cell(cell: &EditCell) -> Result<EditCell, AllocError>
    ensures { IfOk result (λ copy. copy ≡ cell.now) }
{
    match cell {
        EditCell::Any => Ok(EditCell::Any),
        EditCell::Is(value) => Ok(EditCell::Is(value.clone()?)),
        EditCell::Not(value) => Ok(EditCell::Not(value.clone()?)),
    }
}

fn pattern(
    alloc: Global,
    attrs: &[Attr],
    when: &[(Text, EditCell)],
) -> Result<List<(usize, EditCell)>, AllocError>
    ensures { IfOk result (λ made. made ≡ numbered_pattern attrs.now when.now) }
{
    let mut made = List::new(alloc);
    for (name, cell) in when {
        made.push((attr_number(attrs, name), copy_edit_cell(cell)?))?;
    }
    Ok(made)
}

fn edit_rule(alloc: Global, schema: &Schema, decl: &EditDecl) -> Result<EditRule, AllocError>
    ensures { IfOk result (λ edit. edit ≡ edit_of schema.now decl.now) }
{
    let attrs = attrs_of(schema, &decl.table);
    let masters = attrs_of(schema, &decl.master);
    Ok(EditRule {
        name: decl.name.clone()?,
        table: table_number(schema, &decl.table),
        master: table_number(schema, &decl.master),
        x: attr_numbers(alloc, attrs, decl.x.as_slice())?,
        xm: attr_numbers(alloc, masters, decl.xm.as_slice())?,
        target: attr_number(attrs, &decl.target),
        source: attr_number(masters, &decl.source),
        when: pattern(alloc, attrs, decl.when.as_slice())?,
    })
}

/// Appends the inclusion dependency.
fn append_cind(
    alloc: Global,
    schema: &Schema,
    decl: &CindDecl,
    cinds: &mut List<Cind>,
) -> Result<(), AllocError>
    ensures ok { OnOk result (cinds.new ≡ cinds.old ++ cind_of schema.now decl.now ∷ []) }
    ensures err { OnErr result (cinds.new ≡ cinds.old) }
{
    cinds.push(cind(alloc, schema, decl)?)
}

/// Appends the editing rule.
fn append_edit(
    alloc: Global,
    schema: &Schema,
    decl: &EditDecl,
    edits: &mut List<EditRule>,
) -> Result<(), AllocError>
    ensures ok { OnOk result (edits.new ≡ edits.old ++ edit_of schema.now decl.now ∷ []) }
    ensures err { OnErr result (edits.new ≡ edits.old) }
{
    edits.push(edit_rule(alloc, schema, decl)?)
}

/// Appends the rules that a declaration stands for. After a refusal some of them may stand at the end.
#[tactic(auto, unfolding(crate::specs::Rules::deps_of, crate::specs::Rules::cinds_of, crate::specs::Rules::edits_of))]
pub fn append_rules(
    alloc: Global,
    schema: &Schema,
    decl: &Decl,
    rules: &mut Rules,
) -> Result<(), AllocError>
    ensures ok { OnOk result (rules.new ≡ with_rules_of schema.now decl.now rules.old) }
    ensures deps { take (length rules.old.deps) rules.new.deps ≡ rules.old.deps }
    ensures cinds { take (length rules.old.cinds) rules.new.cinds ≡ rules.old.cinds }
    ensures edits { take (length rules.old.edits) rules.new.edits ≡ rules.old.edits }
{
    match decl {
        Decl::Cfd(cfd) => append_deps(alloc, schema, cfd, &mut rules.deps),
        Decl::Cind(decl) => append_cind(alloc, schema, decl, &mut rules.cinds),
        Decl::Edit(decl) => append_edit(alloc, schema, decl, &mut rules.edits),
    }
}
