//! Whether a reason holds under a path. A test looks at what the reason names and at nothing else.
ghost use Rattle.std.specs.Prelude.{◌≡◌, ◌↔◌, ◌+◌, ◌^◌, ◌<◌, ℕ, Some, false, IsTrue};
ghost use Rattle.std.specs.List.{All, Any};
ghost use Rattle.case_tree.specs.CaseTree.{FollowFrom, Holds, IsFalseOn, IsIn, value_on};

use crate::clauses::{Clauses, Literal, VarCell};
use crate::trail::Trail;
use crate::tree::Reason;

/// Whether a reason holds under a path.
pub fn holds(clauses: &Clauses, trail: &Trail, reason: Reason) -> bool
    ensures { IsTrue result ↔ Holds clauses.now trail.now.path reason }
{
    match reason {
        Reason::Clause(at) => is_false(clauses, trail, at),
        Reason::Two(one, other) => are_two(clauses, trail, one, other),
        Reason::NoneOf(at) => has_none(clauses, trail, at),
    }
}

fn is_false(clauses: &Clauses, trail: &Trail, at: usize) -> bool
    ensures { IsTrue result ↔ Holds clauses.now trail.now.path (Reason.Clause at) }
{
    if at < clauses.clause_count() {
        are_all_false(clauses.clause(at), trail)
    } else {
        false
    }
}

fn are_all_false(literals: &[Literal], trail: &Trail) -> bool
    ensures { IsTrue result ↔ All (IsFalseOn trail.now.path) literals.now }
{
    for literal in literals {
        if !trail.gives(literal.var, !literal.positive) {
            return false;
        }
    }
    true
}

fn are_two(clauses: &Clauses, trail: &Trail, one: usize, other: usize) -> bool
    ensures { IsTrue result ↔ Holds clauses.now trail.now.path (Reason.Two one other) }
{
    if one == other || !trail.gives(one, true) || !trail.gives(other, true) {
        return false;
    }
    share_cell(clauses.cells(), one, other)
}

// Whether one cell has both variables. The cell of the first is found by halving, since cells rise.
fn share_cell(cells: &[VarCell], one: usize, other: usize) -> bool
    requires { FollowFrom 0 cells.now }
    ensures { IsTrue result ↔ Any (λ cell. IsIn cell one × IsIn cell other) cells.now }
{
    let after = cells.partition_point(|cell| cell.first <= one);
    if after == 0 {
        return false;
    }
    contains_both(&cells[after - 1], one, other)
}

fn contains_both(cell: &VarCell, one: usize, other: usize) -> bool
    ensures { IsTrue result ↔ (IsIn cell.now one × IsIn cell.now other) }
{
    contains(cell, one) && contains(cell, other)
}

fn contains(cell: &VarCell, var: usize) -> bool
    ensures { IsTrue result ↔ IsIn cell.now var }
{
    cell.first <= var && var - cell.first < cell.count
}

fn has_none(clauses: &Clauses, trail: &Trail, at: usize) -> bool
    ensures { IsTrue result ↔ Holds clauses.now trail.now.path (Reason.NoneOf at) }
{
    let cells = clauses.cells();
    if at < cells.len() && cells[at].demanded {
        is_all_false(&cells[at], trail)
    } else {
        false
    }
}

fn is_all_false(cell: &VarCell, trail: &Trail) -> bool
    requires { cell.now.first + cell.now.count < 2 ^ 64 }
    ensures { IsTrue result
        ↔ ((v : ℕ) → IsIn cell.now v → value_on trail.now.path v ≡ Some false) }
{
    for var in cell.first..cell.first + cell.count {
        if !trail.gives(var, false) {
            return false;
        }
    }
    true
}
