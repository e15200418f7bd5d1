//! The assignment of a path, and the test whether an assignment is allowed: a look at all clauses and all cells.
ghost use Rattle.std.specs.Prelude.{◌≡◌, ◌+◌, ◌^◌, ◌<◌, ◌≤◌, ℕ, true, false, length, slice_index_or, IsTrue, IfSome, IfNone, IfOk};
ghost use Rattle.std.specs.List.{All, Any};
ghost use Rattle.case_tree.specs.CaseTree.{IsAllowed, IsIn, IsTrueUnder, var_count};
ghost use Rattle.case_search.specs.Model.{values_of};

use case_tree::{Clauses, Literal, Trail, VarCell};
use std::alloc::{AllocError, Global};

/// The assignment in which exactly the variables are true that the path makes true.
pub fn values(alloc: Global, trail: &Trail, vars: usize) -> Result<Vec<bool>, AllocError>
    ensures { IfOk result (λ values. values.items ≡ values_of trail.now.path vars) }
{
    let mut values = Vec::with_capacity(alloc, vars)?;
    for var in 0..vars {
        values.push(trail.gives(var, true))?;
    }
    Ok(values)
}

/// Where it is true, there is a value for each variable, and they are allowed.
pub fn is_allowed(clauses: &Clauses, values: &[bool]) -> bool
    ensures count { IsTrue result → length values.now ≡ var_count clauses.now.cells }
    ensures allowed { IsTrue result → IsAllowed clauses.now (λ v. slice_index_or values.now v false) }
{
    if values.len() != clauses.vars() {
        return false;
    }
    if !are_cells_right(clauses, values) {
        return false;
    }
    are_clauses_true(clauses, values)
}

fn are_clauses_true(clauses: &Clauses, values: &[bool]) -> bool
    ensures { IsTrue result
        → All (Any (IsTrueUnder (λ v. slice_index_or values.now v false))) clauses.now.clauses }
{
    for at in 0..clauses.clause_count() {
        if !is_clause_true(clauses.clause(at), values) {
            return false;
        }
    }
    true
}

fn is_clause_true(clause: &[Literal], values: &[bool]) -> bool
    ensures { IsTrue result → Any (IsTrueUnder (λ v. slice_index_or values.now v false)) clause.now }
{
    for literal in clause {
        if value_of(values, literal.var) == literal.positive {
            return true;
        }
    }
    false
}

fn value_of(values: &[bool], var: usize) -> bool
    ensures { result ≡ slice_index_or values.now var false }
{
    if var < values.len() {
        values[var]
    } else {
        false
    }
}

// Whether no cell has two true variables, and each demanded cell has one.
fn are_cells_right(clauses: &Clauses, values: &[bool]) -> bool
    ensures most { IsTrue result → All (λ cell. (v w : ℕ) → IsIn cell v → IsIn cell w
        → slice_index_or values.now v false ≡ true → slice_index_or values.now w false ≡ true
        → v ≡ w) clauses.now.cells }
    ensures least { IsTrue result → All (λ cell. cell.demanded ≡ true
        → (v : ℕ) × IsIn cell v × (slice_index_or values.now v false ≡ true)) clauses.now.cells }
{
    let cells = clauses.cells();
    for at in 0..cells.len() {
        if !is_cell_right(&cells[at], values) {
            return false;
        }
    }
    true
}

fn is_cell_right(cell: &VarCell, values: &[bool]) -> bool
    requires { cell.now.first + cell.now.count < 2 ^ 64 }
    ensures most { IsTrue result → (v w : ℕ) → IsIn cell.now v → IsIn cell.now w
        → slice_index_or values.now v false ≡ true → slice_index_or values.now w false ≡ true → v ≡ w }
    ensures least { IsTrue result → cell.now.demanded ≡ true
        → (v : ℕ) × IsIn cell.now v × (slice_index_or values.now v false ≡ true) }
{
    let end = cell.first + cell.count;
    match first_true(values, cell.first, end) {
        Some(var) => first_true(values, var + 1, end).is_none(),
        None => !cell.demanded,
    }
}

fn first_true(values: &[bool], from: usize, to: usize) -> Option<usize>
    ensures found { IfSome result (λ v. (from ≤ v) × (v < to) × (slice_index_or values.now v false ≡ true)) }
    ensures before { IfSome result (λ v. (w : ℕ) → from ≤ w → w < v
        → slice_index_or values.now w false ≡ true → ⊥) }
    ensures none { IfNone result ((w : ℕ) → from ≤ w → w < to
        → slice_index_or values.now w false ≡ true → ⊥) }
{
    for var in from..to {
        if value_of(values, var) {
            return Some(var);
        }
    }
    None
}
