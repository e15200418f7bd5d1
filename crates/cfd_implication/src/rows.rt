//! The clauses of the rows of dependencies.

ghost use Rattle.std.specs.Prelude.{◌≡◌, ◌<◌, ◌≤◌, ◌++◌, ◌∷◌, [], map, length, OnOk, IfOk};
ghost use Rattle.std.specs.List.{flat_map, zip};
ghost use Rattle.cell_values.specs.Values.{AreFew, values_for};
ghost use Rattle.cfd_implication.specs.Question.{constant_clauses, agreeing_at, row_clauses, rule_clauses, agree_on, asked_cell, asked_clauses};

use crate::literals::{breaks, together};
use case_tree::Literal;
use cell_values::{
    CellValues, ClauseList, Rule, TableRules, Which, alone, equal_var, no, push_meets_at,
    value_var, yes,
};
use cfd_semantics::Pattern;
use rule_model::{Cell, DepRow};
use std::alloc::{AllocError, Global};

/// Appends the clauses of a tableau row.
pub fn push_row(
    alloc: Global,
    out: &mut ClauseList,
    cells: &[CellValues],
    rule: &Rule,
    row: &DepRow,
) -> Result<(), AllocError>
    requires { AreFew cells.now }
    ensures { OnOk result (out.new ≡ out.old ++ row_clauses cells.now rule.now row.now) }
{
    match &row.a {
        Pattern::Any => out.push(together(alloc, cells, rule, row)?),
        Pattern::Is(_) => {
            out.push(alone(alloc, cells, Which::First, rule, row)?)?;
            out.push(alone(alloc, cells, Which::Second, rule, row)?)
        }
        Pattern::In(_) | Pattern::NotIn(_) => {
            out.push(alone(alloc, cells, Which::First, rule, row)?)?;
            out.push(alone(alloc, cells, Which::Second, rule, row)?)?;
            out.push(together(alloc, cells, rule, row)?)
        }
    }
}

/// Appends the clauses of a dependency.
pub fn push_rule(
    alloc: Global,
    out: &mut ClauseList,
    cells: &[CellValues],
    rule: &Rule,
) -> Result<(), AllocError>
    requires { AreFew cells.now }
    ensures { OnOk result (out.new ≡ out.old ++ rule_clauses cells.now rule.now) }
{
    for row in rule.rows.as_slice() {
        push_row(alloc, out, cells, rule, row)?;
    }
    Ok(())
}

/// Appends the clauses of dependencies.
pub fn push_rules(
    alloc: Global,
    out: &mut ClauseList,
    cells: &[CellValues],
    rules: &TableRules<'_>,
) -> Result<(), AllocError>
    requires { AreFew cells.now }
    ensures { OnOk result (out.new ≡ out.old ++ flat_map (rule_clauses cells.now) rules.now) }
{
    for place in 0..rules.len() {
        push_rule(alloc, out, cells, rules.get(place))?;
    }
    Ok(())
}

fn three(
    alloc: Global,
    one: Literal,
    two: Literal,
    other: Literal,
) -> Result<Vec<Literal>, AllocError>
    ensures { IfOk result (λ clause. clause.items ≡ one ∷ two ∷ other ∷ []) }
{
    let mut clause = Vec::new(alloc);
    clause.push(one)?;
    clause.push(two)?;
    clause.push(other)?;
    Ok(clause)
}

/// Appends the clauses of a constant: that of the place among the values of an attribute.
fn push_constant(
    alloc: Global,
    out: &mut ClauseList,
    cells: &[CellValues],
    attr: usize,
    place: usize,
) -> Result<(), AllocError>
    requires few { AreFew cells.now }
    requires there { place < length (values_for cells.now attr) }
    ensures { OnOk result (out.new ≡ out.old ++ constant_clauses cells.now attr place) }
{
    let equal = equal_var(cells, attr);
    let one = value_var(cells, Which::First, attr) + place;
    let other = value_var(cells, Which::Second, attr) + place;
    out.push(three(alloc, no(equal), no(one), yes(other))?)?;
    out.push(three(alloc, no(equal), no(other), yes(one))?)?;
    out.push(three(alloc, no(one), no(other), yes(equal))?)
}

/// Appends those of all constants of an attribute.
pub fn push_agreeing(
    alloc: Global,
    out: &mut ClauseList,
    cells: &[CellValues],
    cell: &CellValues,
) -> Result<(), AllocError>
    requires few { AreFew cells.now }
    requires there { cell.now.constants ≤ length (values_for cells.now cell.now.attr) }
    ensures { OnOk result (out.new ≡ out.old ++ agreeing_at cells.now cell.now) }
{
    for place in 0..cell.constants {
        push_constant(alloc, out, cells, cell.attr, place)?;
    }
    Ok(())
}

/// Appends that the tuples agree on each of the attributes.
fn push_agree_on(
    alloc: Global,
    out: &mut ClauseList,
    cells: &[CellValues],
    attrs: &[usize],
) -> Result<(), AllocError>
    requires { AreFew cells.now }
    ensures { OnOk result (out.new ≡ out.old ++ map (agree_on cells.now) attrs.now) }
{
    for attr in attrs {
        let mut clause = Vec::new(alloc);
        clause.push(yes(equal_var(cells, *attr)))?;
        out.push(clause)?;
    }
    Ok(())
}

/// Appends that the first tuple matches a cell, unless it is `_`.
fn push_asked_cell(
    alloc: Global,
    out: &mut ClauseList,
    cells: &[CellValues],
    attr: usize,
    cell: &Cell,
) -> Result<(), AllocError>
    requires { AreFew cells.now }
    ensures { OnOk result (out.new ≡ out.old ++ asked_cell cells.now (attr, cell.now)) }
{
    match cell {
        Pattern::Any => Ok(()),
        Pattern::Is(_) | Pattern::In(_) | Pattern::NotIn(_) => {
            let mut clause = Vec::new(alloc);
            push_meets_at(&mut clause, cells, Which::First, attr, cell)?;
            out.push(clause)
        }
    }
}

/// Appends that the first tuple matches the row on the left.
fn push_asked_cells(
    alloc: Global,
    out: &mut ClauseList,
    cells: &[CellValues],
    asked: &Rule,
    row: &DepRow,
) -> Result<(), AllocError>
    requires { AreFew cells.now }
    ensures { OnOk result (out.new ≡ out.old ++ flat_map (asked_cell cells.now) (zip asked.now.x row.now.x)) }
{
    for (attr, cell) in asked.x.as_slice().iter().zip(row.x.as_slice()) {
        push_asked_cell(alloc, out, cells, *attr, cell)?;
    }
    Ok(())
}

/// Appends the clauses of a row of the asked dependency.
pub fn push_asked(
    alloc: Global,
    out: &mut ClauseList,
    cells: &[CellValues],
    asked: &Rule,
    row: &DepRow,
) -> Result<(), AllocError>
    requires { AreFew cells.now }
    ensures { OnOk result (out.new ≡ out.old ++ asked_clauses cells.now asked.now row.now) }
{
    push_agree_on(alloc, out, cells, asked.x.as_slice())?;
    push_asked_cells(alloc, out, cells, asked, row)?;
    out.push(breaks(alloc, cells, asked.a, &row.a)?)
}
