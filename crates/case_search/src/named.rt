//! The variables that a reason names.
ghost use Rattle.std.specs.Prelude.{◌+◌, ◌^◌, ◌<◌};

use case_tree::{Clauses, Literal, Reason, VarCell};
use std::alloc::{AllocError, Global};

/// The variables of a clause, of a pair or of a cell. A clause that isn't there has none.
pub fn vars_named(
    alloc: Global,
    clauses: &Clauses,
    reason: Reason,
) -> Result<Vec<usize>, AllocError> {
    match reason {
        Reason::Clause(at) => {
            if at < clauses.clause_count() {
                vars_in(alloc, clauses.clause(at))
            } else {
                Ok(Vec::new(alloc))
            }
        }
        Reason::Two(one, other) => Ok(Vec::from_array(alloc, [one, other])?),
        Reason::NoneOf(at) => {
            let cells = clauses.cells();
            if at < cells.len() {
                vars_of_cell(alloc, &cells[at])
            } else {
                Ok(Vec::new(alloc))
            }
        }
    }
}

pub fn vars_in(alloc: Global, literals: &[Literal]) -> Result<Vec<usize>, AllocError> {
    let mut vars = Vec::with_capacity(alloc, literals.len())?;
    for literal in literals {
        vars.push(literal.var)?;
    }
    Ok(vars)
}

fn vars_of_cell(alloc: Global, cell: &VarCell) -> Result<Vec<usize>, AllocError>
    requires { cell.now.first + cell.now.count < 2 ^ 64 }
{
    let mut vars = Vec::with_capacity(alloc, cell.count)?;
    for var in cell.first..cell.first + cell.count {
        vars.push(var)?;
    }
    Ok(vars)
}
