//! The literals of a clause that speak of one tuple's values.

ghost use Rattle.std.specs.Prelude.{◌≡◌, ◌++◌, OnOk, IfOk};
ghost use Rattle.cell_values.specs.RowClauses.{alone, meets_at, misses_at, misses_left, no, yes};
ghost use Rattle.cell_values.specs.Values.{AreFew};

use crate::layout::value_var;
use crate::literals::{push_meets, push_misses};
use crate::table_rules::Rule;
use crate::values::{CellValues, cell_of};
use crate::which::Which;
use case_tree::Literal;
use rule_model::{Cell, DepRow};
use std::alloc::{AllocError, Global};

pub fn yes(var: usize) -> Literal
    ensures { result ≡ yes var }
{
    Literal {
        var,
        positive: true,
    }
}

pub fn no(var: usize) -> Literal
    ensures { result ≡ no var }
{
    Literal {
        var,
        positive: false,
    }
}

/// Appends that a tuple's value at an attribute matches a cell.
pub fn push_meets_at(
    clause: &mut Vec<Literal>,
    cells: &[CellValues],
    which: Which,
    attr: usize,
    cell: &Cell,
) -> Result<(), AllocError>
    requires { AreFew cells.now }
    ensures { OnOk result (clause.new.items ≡ clause.old.items ++ meets_at cells.now which (attr, cell.now)) }
{
    match cell_of(cells, attr) {
        Some(found) => push_meets(clause, value_var(cells, which, attr), &found.values, cell),
        None => Ok(()),
    }
}

/// Appends that a tuple's value at an attribute doesn't match a cell.
pub fn push_misses_at(
    clause: &mut Vec<Literal>,
    cells: &[CellValues],
    which: Which,
    attr: usize,
    cell: &Cell,
) -> Result<(), AllocError>
    requires { AreFew cells.now }
    ensures { OnOk result (clause.new.items ≡ clause.old.items ++ misses_at cells.now which (attr, cell.now)) }
{
    match cell_of(cells, attr) {
        Some(found) => push_misses(clause, value_var(cells, which, attr), &found.values, cell),
        None => Ok(()),
    }
}

/// Appends that a tuple doesn't match a row on the left.
pub fn push_misses_left(
    clause: &mut Vec<Literal>,
    cells: &[CellValues],
    which: Which,
    rule: &Rule,
    row: &DepRow,
) -> Result<(), AllocError>
    requires { AreFew cells.now }
    ensures { OnOk result (clause.new.items ≡ clause.old.items ++ misses_left cells.now which rule.now row.now) }
{
    for (attr, cell) in rule.x.as_slice().iter().zip(row.x.as_slice()) {
        push_misses_at(clause, cells, which, *attr, cell)?;
    }
    Ok(())
}

/// A tuple that matches a row on the left matches it on the right.
pub fn alone(
    alloc: Global,
    cells: &[CellValues],
    which: Which,
    rule: &Rule,
    row: &DepRow,
) -> Result<Vec<Literal>, AllocError>
    requires { AreFew cells.now }
    ensures { IfOk result (λ clause. clause.items ≡ alone cells.now which rule.now row.now) }
{
    let mut clause = Vec::new(alloc);
    push_misses_left(&mut clause, cells, which, rule, row)?;
    push_meets_at(&mut clause, cells, which, rule.a, &row.a)?;
    Ok(clause)
}
