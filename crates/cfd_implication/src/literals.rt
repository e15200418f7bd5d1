//! The literals of a clause that speaks of both tuples.

ghost use Rattle.std.specs.Prelude.{◌≡◌, ◌++◌, OnOk, IfOk};
ghost use Rattle.cell_values.specs.Values.{AreFew};
ghost use Rattle.cfd_implication.specs.Question.{differ_on, together, breaks};

use case_tree::Literal;
use cell_values::{CellValues, Rule, Which, equal_var, no, push_misses_at, push_misses_left, yes};
use cfd_semantics::Pattern;
use rule_model::{Cell, DepRow};
use std::alloc::{AllocError, Global};

/// Appends that the tuples differ on one of these attributes.
fn push_differ_on(
    clause: &mut Vec<Literal>,
    cells: &[CellValues],
    attrs: &[usize],
) -> Result<(), AllocError>
    requires { AreFew cells.now }
    ensures { OnOk result (clause.new.items ≡ clause.old.items ++ differ_on cells.now attrs.now) }
{
    for attr in attrs {
        clause.push(no(equal_var(cells, *attr)))?;
    }
    Ok(())
}

/// Tuples that agree on the left, and match the row there, agree on the right.
pub fn together(
    alloc: Global,
    cells: &[CellValues],
    rule: &Rule,
    row: &DepRow,
) -> Result<Vec<Literal>, AllocError>
    requires { AreFew cells.now }
    ensures { IfOk result (λ clause. clause.items ≡ together cells.now rule.now row.now) }
{
    let mut clause = Vec::new(alloc);
    push_differ_on(&mut clause, cells, rule.x.as_slice())?;
    push_misses_left(&mut clause, cells, Which::First, rule, row)?;
    clause.push(yes(equal_var(cells, rule.a)))?;
    Ok(clause)
}

/// On the right the tuples don't agree, or the first doesn't match the cell there.
pub fn breaks(
    alloc: Global,
    cells: &[CellValues],
    attr: usize,
    cell: &Cell,
) -> Result<Vec<Literal>, AllocError>
    requires { AreFew cells.now }
    ensures { IfOk result (λ clause. clause.items ≡ breaks cells.now attr cell.now) }
{
    let mut clause = Vec::new(alloc);
    match cell {
        Pattern::Any => clause.push(no(equal_var(cells, attr)))?,
        Pattern::Is(_) => push_misses_at(&mut clause, cells, Which::First, attr, cell)?,
        Pattern::In(_) | Pattern::NotIn(_) => {
            clause.push(no(equal_var(cells, attr)))?;
            push_misses_at(&mut clause, cells, Which::First, attr, cell)?;
        }
    }
    Ok(clause)
}
