//! Clauses over variables, which lie in cells: of the variables of one cell at most one is true.
ghost use Rattle.std.specs.Prelude.{◌≡◌, ◌↔◌, ◌+◌, ◌^◌, ◌<◌, Some, length, slice_get, IsTrue, IfSome, IfNone, IsSomeAnd};
ghost use Rattle.std.specs.List.{All};
ghost use Rattle.case_tree.specs.CaseTree.{FollowFrom, IsIn, IsWellFormed, clause_set, literals_of, var_count};

use std::marker::Model;

/// A variable, or its negation.
#[derive(Clone, Copy, PartialEq, Eq)]
pub struct Literal {
    pub var: usize,
    pub positive: bool,
}

/// The variables `first..first + count`, of which at most one is true, and exactly one where `demanded`.
#[derive(Clone, Copy, PartialEq, Eq)]
pub struct VarCell {
    pub first: usize,
    pub count: usize,
    pub demanded: bool,
}

/// A list of clauses, each a list of literals of which one is to be true.
#[derive(Drop)]
pub struct Clauses {
    cells: Vec<VarCell>,
    clauses: Vec<Vec<Literal>>,
    vars: usize,
}

// Clauses see the cells and the clauses, each clause as a list of literals.
impl Model for Clauses {
    ghost use Rattle.std.specs.Prelude.{◌≡◌};
    ghost use Rattle.case_tree.specs.CaseTree.{ClauseSet, IsWellFormed, clause_set, var_count};

    ghost Value = { ClauseSet };

    ghost view = { λ c. clause_set c.cells.items c.clauses.items };

    ghost invariant = { λ c.
        IsWellFormed (clause_set c.cells.items c.clauses.items) × (c.vars ≡ var_count c.cells.items) };
}

impl Clauses {
    pub fn new(cells: Vec<VarCell>, clauses: Vec<Vec<Literal>>) -> Clauses
        requires { IsWellFormed (clause_set cells.items clauses.items) }
        ensures { result ≡ clause_set cells.items clauses.items }
    {
        let vars = end_of(&cells);
        Clauses {
            cells,
            clauses,
            vars,
        }
    }

    /// Whether `new` may be called.
    pub fn are_well_formed(cells: &[VarCell], clauses: &[Vec<Literal>]) -> bool
        ensures { IsTrue result ↔ IsWellFormed (clause_set cells.now clauses.now) }
    {
        match count_vars(cells) {
            Some(vars) => are_below(clauses, vars),
            None => false,
        }
    }

    /// The number of variables, which are `0..vars`.
    pub fn vars(&self) -> usize
        ensures count { result ≡ var_count self.now.cells }
        ensures well_formed { IsWellFormed self.now }
    {
        self.vars
    }

    pub fn cells(&self) -> &[VarCell]
        ensures cells { result.now ≡ self.now.cells }
        ensures well_formed { IsWellFormed self.now }
    {
        &self.cells
    }

    /// The place of the cell in which a variable lies, found by halving.
    pub fn cell_of(&self, var: usize) -> usize
        requires { var < var_count self.now.cells }
        ensures lies { IsSomeAnd (slice_get self.now.cells result) (λ cell. IsIn cell var) }
        ensures well_formed { IsWellFormed self.now }
    {
        last_from(&self.cells, var)
    }

    pub fn clause_count(&self) -> usize
        ensures count { result ≡ length self.now.clauses }
        ensures well_formed { IsWellFormed self.now }
    {
        self.clauses.len()
    }

    pub fn clause(&self, at: usize) -> &[Literal]
        requires { at < length self.now.clauses }
        ensures { slice_get self.now.clauses at ≡ Some result.now }
    {
        &self.clauses[at]
    }
}

// The end of the last cell, which is the number of the variables.
fn end_of(cells: &[VarCell]) -> usize
    requires cells_follow { FollowFrom 0 cells.now }
    requires vars_fit { var_count cells.now < 2 ^ 64 }
    ensures { result ≡ var_count cells.now }
{
    match cells.last() {
        Some(cell) => cell.first + cell.count,
        None => 0,
    }
}

// The last cell that doesn't begin after the variable, which is the one in which it lies.
fn last_from(cells: &[VarCell], var: usize) -> usize
    requires cells_follow { FollowFrom 0 cells.now }
    requires known { var < var_count cells.now }
    ensures { IsSomeAnd (slice_get cells.now result) (λ cell. IsIn cell var) }
{
    cells.partition_point(|cell| cell.first <= var) - 1
}

// The number of variables, where the cells follow one another and the number can be written.
fn count_vars(cells: &[VarCell]) -> Option<usize>
    ensures follow { IfSome result (λ vars. FollowFrom 0 cells.now × (var_count cells.now ≡ vars)) }
    ensures none { IfNone result (FollowFrom 0 cells.now → var_count cells.now < 2 ^ 64 → ⊥) }
{
    let mut vars = 0usize;
    for cell in cells {
        if cell.first != vars || cell.count == 0 {
            return None;
        }
        vars = vars.checked_add(cell.count)?;
    }
    Some(vars)
}

fn are_below(clauses: &[Vec<Literal>], vars: usize) -> bool
    ensures { IsTrue result ↔ All (All (λ literal. literal.var < vars)) (literals_of clauses.now) }
{
    for clause in clauses {
        if !is_below(clause, vars) {
            return false;
        }
    }
    true
}

fn is_below(clause: &[Literal], vars: usize) -> bool
    ensures { IsTrue result ↔ All (λ literal. literal.var < vars) clause.now }
{
    clause.iter().all(|literal| literal.var < vars)
}
