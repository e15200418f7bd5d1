//! Guards: one literal that isn't false guards each clause that isn't empty. Where a literal becomes false, only the
//! clauses that it guards are looked at, and each of them that isn't false is passed on to another literal. Nothing has
//! to be done on the way back up: what isn't false under a path isn't false under a shorter one.
//!
//! This is the watching of literals of Moskewicz, Madigan, Zhao, Zhang and Malik, "Chaff: Engineering an Efficient SAT
//! Solver" (DAC 2001), with one literal of a clause in place of two.
ghost use Rattle.std.specs.Prelude.{◌≡◌, ◌<◌, ℕ, List, [], true, false, Some, length, slice_get, IfOk, OnOk, IfSome, IfNone, IsSomeAnd};
ghost use Rattle.std.specs.List.{All, Contains};
ghost use Rattle.case_tree.specs.declared.clauses.Literal.{Literal};
ghost use Rattle.case_tree.specs.declared.tree.Reason.{Reason};
ghost use Rattle.case_tree.specs.CaseTree.{Holds, IsFalseOn, var_count};
ghost use Rattle.case_search.specs.Guards.{IsGuarded, IsGuardedBut};
ghost use Rattle.case_search.specs.Places.{list_of, vars_of};
ghost use Rattle.case_search.specs.Step.{NoReason};

use crate::places::Places;
use case_tree::{Clauses, Literal, Trail};
use std::alloc::{AllocError, Global};

/// At the root the first literal of each clause guards it.
pub fn guard_all(alloc: Global, clauses: &Clauses) -> Result<Places, AllocError>
    ensures vars { IfOk result (λ guards. vars_of guards ≡ var_count clauses.now.cells) }
    ensures guarded { IfOk result (λ guards. IsGuarded clauses.now (list_of guards) []) }
{
    let mut guards = Places::new(alloc, clauses.vars())?;
    for at in 0..clauses.clause_count() {
        guard_by_first(&mut guards, clauses.clause(at), at)?;
    }
    Ok(guards)
}

fn guard_by_first(guards: &mut Places, clause: &[Literal], at: usize) -> Result<(), AllocError>
    requires { All (λ literal. literal.var < vars_of guards.old) clause.now }
    ensures vars { vars_of guards.new ≡ vars_of guards.old }
    ensures kept { OnOk result ((literal : Literal) (k : ℕ)
        → Contains (list_of guards.old literal) k → Contains (list_of guards.new literal) k) }
    ensures guarded { OnOk result (0 < length clause.now
        → (literal : Literal) × Contains clause.now literal × Contains (list_of guards.new literal) at) }
{
    if clause.is_empty() {
        return Ok(());
    }
    guards.add(clause[0], at)
}

/// Passes the clauses that a literal guards on to others, where the last split has made it false.
pub fn pass_on(
    guards: &mut Places,
    clauses: &Clauses,
    trail: &Trail,
    gone: Literal,
) -> Result<(), AllocError>
    requires vars { vars_of guards.old ≡ var_count clauses.now.cells }
    requires quiet { NoReason clauses.now trail.now.path }
    requires is_false { IsFalseOn trail.now.path gone }
    requires guarded { IsGuardedBut clauses.now (list_of guards.old) trail.now.path gone }
    ensures vars { vars_of guards.new ≡ vars_of guards.old }
    ensures guarded { OnOk result (IsGuarded clauses.now (list_of guards.new) trail.now.path) }
{
    while pass_one(guards, clauses, trail, gone)? {}
    Ok(())
}

// Passes one clause on, where the literal guards one.
fn pass_one(
    guards: &mut Places,
    clauses: &Clauses,
    trail: &Trail,
    gone: Literal,
) -> Result<bool, AllocError>
    requires vars { vars_of guards.old ≡ var_count clauses.now.cells }
    requires quiet { NoReason clauses.now trail.now.path }
    requires is_false { IsFalseOn trail.now.path gone }
    requires guarded { IsGuardedBut clauses.now (list_of guards.old) trail.now.path gone }
    ensures vars { vars_of guards.new ≡ vars_of guards.old }
    ensures guarded { OnOk result (IsGuardedBut clauses.now (list_of guards.new) trail.now.path gone) }
    ensures fewer { IfOk result (λ more. more ≡ true
        → length (list_of guards.new gone) < length (list_of guards.old gone)) }
    ensures none { IfOk result (λ more. more ≡ false → list_of guards.new gone ≡ []) }
{
    let Some(at) = guards.take(gone) else {
        return Ok(false);
    };
    if let Some(literal) = next_guard(clauses, trail, at) {
        guards.add(literal, at)?;
    }
    Ok(true)
}

// A literal of the clause that isn't false.
fn next_guard(clauses: &Clauses, trail: &Trail, at: usize) -> Option<Literal>
    ensures known { IfSome result (λ literal. literal.var < var_count clauses.now.cells) }
    ensures found { IfSome result (λ literal.
        IsSomeAnd (slice_get clauses.now.clauses at) (λ clause. Contains clause literal)) }
    ensures not_false { IfSome result (λ literal. ¬ IsFalseOn trail.now.path literal) }
    ensures none { IfNone result ((clause : List Literal)
        → slice_get clauses.now.clauses at ≡ Some clause
        → Holds clauses.now trail.now.path (Reason.Clause at)) }
{
    if at >= clauses.clause_count() {
        return None;
    }
    first_not_false(clauses.clause(at), trail)
}

fn first_not_false(clause: &[Literal], trail: &Trail) -> Option<Literal>
    ensures found { IfSome result (λ literal. Contains clause.now literal) }
    ensures not_false { IfSome result (λ literal. ¬ IsFalseOn trail.now.path literal) }
    ensures none { IfNone result (All (IsFalseOn trail.now.path) clause.now) }
{
    for literal in clause {
        if !trail.gives(literal.var, !literal.positive) {
            return Some(*literal);
        }
    }
    None
}
