//! The tableau rows that a tree of cases rests on.
ghost use Rattle.std.specs.Prelude.{◌≡◌, ◌++◌, ◌+◌, ◌<◌, ◌^◌, [], ◌∷◌, if◌then◌else◌, IfOk, OnOk, filter, map};
ghost use Rattle.std.specs.List.{enumerate_from, flat_map};
ghost use Rattle.std.specs.Option.{option_copied};
ghost use Rattle.rule_model.specs.declared.decl.Decl.TheVariants.{Cfd};
ghost use Rattle.project_flaws.specs.Cited.{asking_row, asking_rows, cited_rows, clause_row, clause_rows, is_cited, is_row, row_name, written_in, written_rows};

use crate::items::item;
use case_tree::{Node, Reason};
use cfd_semantics::Pattern;
use rule_model::{CfdDecl, CfdRow, Decl, Dep, DepRow, RuleBook};
use schema_core::{List, Text};
use std::alloc::{AllocError, Global};

/// A tableau row of a rule, counted from 1.
#[derive(Drop)]
pub struct RowName {
    pub rule: Text,
    pub row: usize,
}

/// The tableau rows of a table, by its name and its number, that a tree cites.
pub fn cited_rows(
    alloc: Global,
    rules: &RuleBook,
    name: &Text,
    table: usize,
    nodes: &[Node],
) -> Result<List<RowName>, AllocError>
    ensures { IfOk result (λ rows. rows ≡ cited_rows rules.now name.now table nodes.now) }
{
    let clauses = clause_rows(alloc, table, rules.deps().as_slice())?;
    let written = written_rows(alloc, name, rules.decls().as_slice())?;
    cited_of(alloc, clauses.as_slice(), nodes, written.as_slice())
}

// ---- the tableau rows that the clauses of a question stand for

fn clause_rows(alloc: Global, table: usize, deps: &[Dep]) -> Result<List<RowName>, AllocError>
    ensures { IfOk result (λ rows. rows ≡ clause_rows table deps.now) }
{
    let mut rows = List::new(alloc);
    for dep in deps {
        push_asking(&mut rows, table, dep)?;
    }
    Ok(rows)
}

fn push_asking(rows: &mut List<RowName>, table: usize, dep: &Dep) -> Result<(), AllocError>
    ensures { OnOk result (rows.new ≡ rows.old ++ asking_rows table dep.now) }
{
    if dep.table != table {
        return Ok(());
    }
    push_asking_rows(rows, &dep.name, dep.rule.rows.as_slice())
}

fn push_asking_rows(
    rows: &mut List<RowName>,
    rule: &Text,
    tableau: &[DepRow],
) -> Result<(), AllocError>
    ensures { OnOk result (rows.new ≡ rows.old ++ flat_map (asking_row rule.now) (enumerate_from 0 tableau.now)) }
{
    for (place, row) in tableau.iter().enumerate() {
        push_asking_row(rows, rule, place, row)?;
    }
    Ok(())
}

fn push_asking_row(
    rows: &mut List<RowName>,
    rule: &Text,
    place: usize,
    row: &DepRow,
) -> Result<(), AllocError>
    requires { place + 1 < 2 ^ 64 }
    ensures { OnOk result (rows.new ≡ rows.old ++ asking_row rule.now (place, row.now)) }
{
    match row.a {
        Pattern::Any => Ok(()),
        _ => rows.push(row_name(rule, place)?),
    }
}

fn row_name(rule: &Text, place: usize) -> Result<RowName, AllocError>
    requires { place + 1 < 2 ^ 64 }
    ensures { IfOk result (λ row. row ≡ record { rule = rule.now; row = place + 1 }) }
{
    Ok(RowName {
        rule: rule.clone()?,
        row: place + 1,
    })
}

// ---- the tableau rows as they are written

fn written_rows(alloc: Global, table: &Text, decls: &[Decl]) -> Result<List<RowName>, AllocError>
    ensures { IfOk result (λ rows. rows ≡ written_rows table.now decls.now) }
{
    let mut rows = List::new(alloc);
    for decl in decls {
        push_written(&mut rows, table, decl)?;
    }
    Ok(rows)
}

fn push_written(rows: &mut List<RowName>, table: &Text, decl: &Decl) -> Result<(), AllocError>
    ensures { OnOk result (rows.new ≡ rows.old ++ written_in table.now decl.now) }
{
    match decl {
        Decl::Cfd(cfd) => push_written_of(rows, table, cfd),
        Decl::Cind(_) | Decl::Edit(_) => Ok(()),
    }
}

fn push_written_of(rows: &mut List<RowName>, table: &Text, cfd: &CfdDecl) -> Result<(), AllocError>
    ensures { OnOk result (rows.new ≡ rows.old ++ written_in table.now (Cfd cfd.now)) }
{
    if cfd.table != *table {
        return Ok(());
    }
    push_rows(rows, &cfd.name, cfd.rows.as_slice())
}

fn push_rows(rows: &mut List<RowName>, rule: &Text, written: &[CfdRow]) -> Result<(), AllocError>
    ensures { OnOk result (rows.new ≡ rows.old ++ map (row_name rule.now) (enumerate_from 0 written.now)) }
{
    for (place, _) in written.iter().enumerate() {
        rows.push(row_name(rule, place)?)?;
    }
    Ok(())
}

// ---- those that a tree cites

fn cited_of(
    alloc: Global,
    clauses: &[RowName],
    nodes: &[Node],
    written: &[RowName],
) -> Result<List<RowName>, AllocError>
    ensures { IfOk result (λ rows. rows ≡ filter (is_cited clauses.now nodes.now) written.now) }
{
    let mut rows = List::new(alloc);
    for row in written {
        push_cited(&mut rows, clauses, nodes, row)?;
    }
    Ok(rows)
}

fn push_cited(
    rows: &mut List<RowName>,
    clauses: &[RowName],
    nodes: &[Node],
    row: &RowName,
) -> Result<(), AllocError>
    ensures { OnOk result (rows.new ≡ rows.old ++ (if is_cited clauses.now nodes.now row.now then row.now ∷ [] else [])) }
{
    if is_cited(clauses, nodes, row) {
        rows.push(copied(row)?)
    } else {
        Ok(())
    }
}

fn copied(row: &RowName) -> Result<RowName, AllocError>
    ensures { IfOk result (λ copy. copy ≡ row.now) }
{
    Ok(RowName {
        rule: row.rule.clone()?,
        row: row.row,
    })
}

fn is_cited(clauses: &[RowName], nodes: &[Node], row: &RowName) -> bool
    ensures { result ≡ is_cited clauses.now nodes.now row.now }
{
    for node in nodes {
        if is_row(row, clause_row(clauses, *node)) {
            return true;
        }
    }
    false
}

fn clause_row(clauses: &[RowName], node: Node) -> Option<&RowName>
    ensures { option_copied result ≡ clause_row clauses.now node }
{
    match node {
        Node::Leaf(Reason::Clause(at)) => item(clauses, at),
        _ => None,
    }
}

fn is_row(row: &RowName, other: Option<&RowName>) -> bool
    ensures { result ≡ is_row row.now (option_copied other.entry) }
{
    match other {
        Some(other) => other.row == row.row && other.rule == row.rule,
        None => false,
    }
}
