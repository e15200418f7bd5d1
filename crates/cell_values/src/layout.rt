//! The variables of each attribute, and the cells that they are.

ghost use Rattle.std.specs.Prelude.{◌≡◌, ◌≤◌, ◌<◌, ◌^◌, ◌+◌, ◌*◌, ◌++◌, length, OnOk, IfOk};
ghost use Rattle.cell_values.specs.Layout.{attr_cells, equal_var, value_cell, value_var, var_cells, var_width};
ghost use Rattle.cell_values.specs.Values.{AreFew, values_for};

use crate::values::{CellValues, attrs_before, cell_of, values_before};
use crate::which::{TupleCount, Which};
use case_tree::VarCell;
use std::alloc::{AllocError, Global};

fn value_count(cells: &[CellValues], attr: usize) -> usize
    ensures { result ≡ length (values_for cells.now attr) }
{
    match cell_of(cells, attr) {
        Some(cell) => cell.values.len(),
        None => 0,
    }
}

/// The variable that says that two tuples agree on an attribute.
#[tactic(auto, using(crate::proofs::Room::room_for))]
pub fn equal_var(cells: &[CellValues], attr: usize) -> usize
    requires { AreFew cells.now }
    ensures var { result ≡ equal_var cells.now attr }
    ensures room { result + 1 + 2 * length (values_for cells.now attr) < 2 ^ 64 }
{
    attrs_before(cells, attr) + 2 * values_before(cells, attr)
}

/// The variable of the first value that a tuple may have at an attribute.
#[tactic(auto, using(crate::proofs::Room::room_alone))]
pub fn value_var(cells: &[CellValues], which: Which, attr: usize) -> usize
    requires { AreFew cells.now }
    ensures var { result ≡ value_var which cells.now attr }
    ensures room { result + length (values_for cells.now attr) < 2 ^ 64 }
{
    match which {
        Which::Only => values_before(cells, attr),
        Which::First => equal_var(cells, attr) + 1,
        Which::Second => equal_var(cells, attr) + 1 + value_count(cells, attr),
    }
}

/// How many variables an attribute has.
fn var_width(tuples: TupleCount, cell: &CellValues) -> usize
    requires { 1 + 2 * length cell.now.values < 2 ^ 64 }
    ensures width { result ≡ var_width tuples cell.now }
    ensures few { result ≤ 1 + 2 * length cell.now.values }
{
    match tuples {
        TupleCount::One => cell.values.len(),
        TupleCount::Two => 1 + 2 * cell.values.len(),
    }
}

/// Appends the variables of the values of one tuple.
fn push_value_cell(
    out: &mut Vec<VarCell>,
    first: usize,
    cell: &CellValues,
) -> Result<(), AllocError>
    ensures { OnOk result (out.new.items ≡ out.old.items ++ value_cell first cell.now) }
{
    let count = cell.values.len();
    if count == 0 {
        return Ok(());
    }
    out.push(VarCell {
        first,
        count,
        demanded: cell.demanded,
    })?;
    Ok(())
}

/// Appends the variables of an attribute, of which the first is `first`.
fn push_attr_cells(
    out: &mut Vec<VarCell>,
    tuples: TupleCount,
    first: usize,
    cell: &CellValues,
) -> Result<(), AllocError>
    requires { first + 1 + 2 * length cell.now.values < 2 ^ 64 }
    ensures { OnOk result (out.new.items ≡ out.old.items ++ attr_cells tuples first cell.now) }
{
    match tuples {
        TupleCount::One => push_value_cell(out, first, cell),
        TupleCount::Two => push_pair_cells(out, first, cell),
    }
}

fn push_pair_cells(
    out: &mut Vec<VarCell>,
    first: usize,
    cell: &CellValues,
) -> Result<(), AllocError>
    requires { first + 1 + 2 * length cell.now.values < 2 ^ 64 }
    ensures { OnOk result (out.new.items ≡ out.old.items ++ attr_cells TupleCount.Two first cell.now) }
{
    out.push(VarCell {
        first,
        count: 1,
        demanded: false,
    })?;
    push_value_cell(out, first + 1, cell)?;
    push_value_cell(out, first + 1 + cell.values.len(), cell)
}

/// The cells of all variables.
pub fn var_cells(
    alloc: Global,
    tuples: TupleCount,
    cells: &[CellValues],
) -> Result<Vec<VarCell>, AllocError>
    requires { AreFew cells.now }
    ensures { IfOk result (λ all. all.items ≡ var_cells tuples 0 cells.now) }
{
    let mut out = Vec::new(alloc);
    let mut first = 0usize;
    for cell in cells {
        push_attr_cells(&mut out, tuples, first, cell)?;
        first += var_width(tuples, cell);
    }
    Ok(out)
}
