//! What the search does at a node: a leaf costs a look at the clauses that the last split's literal guarded, and any other
//! node that and a look at what it forces. Only where no hint is left all variables are looked at.
ghost use Rattle.std.specs.Prelude.{◌≡◌, ◌+◌, ◌^◌, ◌<◌, ◌≢◌, ◌⊎◌, ℕ, Some, None, true, false, IfSome, IfNone, IfOk, OnOk, MatchOption, IsTrue, IsSomeAnd, slice_get, [], ◌∷◌};
ghost use Rattle.std.specs.Bool.{MatchBool};
ghost use Rattle.std.specs.List.{All};
ghost use Rattle.case_tree.specs.declared.clauses.Literal.{Literal};
ghost use Rattle.case_tree.specs.declared.tree.Reason.{Reason};
ghost use Rattle.case_tree.specs.CaseTree.{Holds, IsIn, value_on, var_count};
ghost use Rattle.case_search.specs.Guards.{IsGuarded, IsGuardedBut, IsReady, parent};
ghost use Rattle.case_search.specs.Places.{list_of, opposite_of, vars_of};
ghost use Rattle.case_search.specs.Step.{HasTrue, IsAllChosen, IsForced, IsOpen, IsStep, IsWanted, NoReason, NothingForced, QuietAbove, QuietBut};

use crate::guards::pass_on;
use crate::hints::{Hint, Hints};
use crate::places::{Places, opposite};
use case_tree::{Clauses, Literal, Reason, Trail, VarCell, holds};
use std::alloc::AllocError;

/// A leaf, since a reason holds; a split; or the end, since all clauses can be made true.
#[derive(Clone, Copy)]
pub enum Step {
    Leaf(Reason),
    Split(usize),
    Model,
}

pub fn next_step(
    clauses: &Clauses,
    guards: &mut Places,
    hints: &mut Hints,
    trail: &mut Trail,
) -> Result<Step, AllocError>
    requires vars { trail.old.vars ≡ var_count clauses.now.cells }
    requires counted { vars_of guards.old ≡ var_count clauses.now.cells }
    requires guarded { IsGuarded clauses.now (list_of guards.old) (parent trail.old.path) }
    requires quiet { QuietAbove clauses.now trail.old.path }
    ensures step { IfOk result (IsStep clauses.now trail.old.path) }
    ensures guarded { IfOk result (IsReady clauses.now (list_of guards.new) trail.old.path) }
    ensures counted { vars_of guards.new ≡ vars_of guards.old }
    ensures trail { trail.new ≡ trail.old }
{
    if let Some(reason) = reason_here(clauses, guards, trail) {
        blame(clauses, hints, trail, reason)?;
        return Ok(Step::Leaf(reason));
    }
    enter(clauses, guards, hints, trail)?;
    match next_split(clauses, guards, hints, trail) {
        Some(var) => Ok(Step::Split(var)),
        None => Ok(Step::Model),
    }
}

// Tells the hints of a leaf.
fn blame(
    clauses: &Clauses,
    hints: &mut Hints,
    trail: &mut Trail,
    reason: Reason,
) -> Result<(), AllocError>
    ensures { trail.new ≡ trail.old }
{
    match last_of(trail) {
        Some(last) => hints.blame(clauses, last, reason),
        None => Ok(()),
    }
}

// Brings guards and hints to a node that is no leaf.
fn enter(
    clauses: &Clauses,
    guards: &mut Places,
    hints: &mut Hints,
    trail: &mut Trail,
) -> Result<(), AllocError>
    requires vars { trail.old.vars ≡ var_count clauses.now.cells }
    requires counted { vars_of guards.old ≡ var_count clauses.now.cells }
    requires guarded { IsGuarded clauses.now (list_of guards.old) (parent trail.old.path) }
    requires quiet { NoReason clauses.now trail.old.path }
    ensures guarded { OnOk result (IsGuarded clauses.now (list_of guards.new) trail.old.path) }
    ensures counted { vars_of guards.new ≡ vars_of guards.old }
    ensures trail { trail.new ≡ trail.old }
{
    let Some(last) = last_of(trail) else {
        return Ok(());
    };
    pass_on(guards, clauses, trail, opposite(last))?;
    hints.enter(clauses, trail, last)?;
    Ok(())
}

// The literal of the last split.
fn last_of(trail: &mut Trail) -> Option<Literal>
    ensures last { MatchOption result (trail.old.path ≡ [])
        (λ last. trail.old.path ≡ last ∷ parent trail.old.path) }
    ensures known { IfSome result (λ last. last.var < trail.old.vars) }
    ensures trail { trail.new ≡ trail.old }
{
    let last = trail.pop()?;
    trail.push(last);
    Some(last)
}

// The variable to split on, where there is one.
fn next_split(clauses: &Clauses, guards: &Places, hints: &Hints, trail: &mut Trail) -> Option<usize>
    requires vars { trail.old.vars ≡ var_count clauses.now.cells }
    requires guarded { IsGuarded clauses.now (list_of guards.now) trail.old.path }
    requires quiet { NoReason clauses.now trail.old.path }
    ensures open { IfSome result (IsOpen clauses.now trail.old.path) }
    ensures why { IfSome result
        (λ v. IsForced clauses.now trail.old.path v ⊎ IsWanted clauses.now trail.old.path v) }
    ensures none { IfNone result
        (NothingForced clauses.now trail.old.path × IsAllChosen clauses.now trail.old.path) }
    ensures trail { trail.new ≡ trail.old }
{
    if let Some(var) = hinted_split(clauses, hints, trail) {
        return Some(var);
    }
    unhinted_split(clauses, guards, trail)
}

// The split that a hint leads to: on a forced variable, or else on a wanted one.
fn hinted_split(clauses: &Clauses, hints: &Hints, trail: &mut Trail) -> Option<usize>
    requires vars { trail.old.vars ≡ var_count clauses.now.cells }
    ensures open { IfSome result (IsOpen clauses.now trail.old.path) }
    ensures why { IfSome result
        (λ v. IsForced clauses.now trail.old.path v ⊎ IsWanted clauses.now trail.old.path v) }
    ensures trail { trail.new ≡ trail.old }
{
    match hints.first_forced() {
        Some(hint) => {
            if is_right(clauses, trail, hint) {
                Some(hint.literal.var)
            } else {
                None
            }
        }
        None => {
            let var = hints.wanted_split(clauses, trail)?;
            if is_wanted(clauses, trail, var) {
                Some(var)
            } else {
                None
            }
        }
    }
}

// Whether the variable has no value, and the literal makes the reason hold.
fn is_right(clauses: &Clauses, trail: &mut Trail, hint: Hint) -> bool
    requires vars { trail.old.vars ≡ var_count clauses.now.cells }
    ensures open { IsTrue result → IsOpen clauses.now trail.old.path hint.literal.var }
    ensures forced { IsTrue result → IsForced clauses.now trail.old.path hint.literal.var }
    ensures trail { trail.new ≡ trail.old }
{
    let literal = hint.literal;
    if literal.var >= clauses.vars() || trail.value(literal.var).is_some() {
        return false;
    }
    trail.push(literal);
    let holds_then = holds(clauses, trail, hint.reason);
    let _ = trail.pop();
    holds_then
}

// Whether the variable has no value and is of a demanded cell with no true variable.
fn is_wanted(clauses: &Clauses, trail: &Trail, var: usize) -> bool
    ensures open { IsTrue result → IsOpen clauses.now trail.now.path var }
    ensures wanted { IsTrue result → IsWanted clauses.now trail.now.path var }
{
    if var >= clauses.vars() || trail.value(var).is_some() {
        return false;
    }
    let at = clauses.cell_of(var);
    let cells = clauses.cells();
    if at >= cells.len() {
        return false;
    }
    lacks_true(&cells[at], trail)
}

// Whether the cell is demanded and has no true variable.
fn lacks_true(cell: &VarCell, trail: &Trail) -> bool
    requires { cell.now.first + cell.now.count < 2 ^ 64 }
    ensures demanded { IsTrue result → cell.now.demanded ≡ true }
    ensures none { IsTrue result → HasTrue trail.now.path cell.now → ⊥ }
{
    cell.demanded && !has_true(cell, trail)
}

// The split that needs no hints, and looks through all variables and cells.
fn unhinted_split(clauses: &Clauses, guards: &Places, trail: &mut Trail) -> Option<usize>
    requires vars { trail.old.vars ≡ var_count clauses.now.cells }
    requires guarded { IsGuarded clauses.now (list_of guards.now) trail.old.path }
    requires quiet { NoReason clauses.now trail.old.path }
    ensures open { IfSome result (IsOpen clauses.now trail.old.path) }
    ensures why { IfSome result
        (λ v. IsForced clauses.now trail.old.path v ⊎ IsWanted clauses.now trail.old.path v) }
    ensures none { IfNone result
        (NothingForced clauses.now trail.old.path × IsAllChosen clauses.now trail.old.path) }
    ensures trail { trail.new ≡ trail.old }
{
    if let Some(var) = first_forced(clauses, guards, trail) {
        return Some(var);
    }
    first_wanted(clauses, trail)
}

// The first reason that holds, where none holds at the parent.
fn reason_here(clauses: &Clauses, guards: &Places, trail: &mut Trail) -> Option<Reason>
    requires vars { trail.old.vars ≡ var_count clauses.now.cells }
    requires guarded { IsGuarded clauses.now (list_of guards.now) (parent trail.old.path) }
    requires quiet { QuietAbove clauses.now trail.old.path }
    ensures found { IfSome result (Holds clauses.now trail.old.path) }
    ensures none { IfNone result (NoReason clauses.now trail.old.path) }
    ensures trail { trail.new ≡ trail.old }
{
    match last_of(trail) {
        Some(last) => reason_by(clauses, guards, trail, last),
        None => empty_clause(clauses),
    }
}

// At the root only an empty clause is a reason.
fn empty_clause(clauses: &Clauses) -> Option<Reason>
    ensures found { IfSome result (Holds clauses.now []) }
    ensures none { IfNone result (NoReason clauses.now []) }
{
    for at in 0..clauses.clause_count() {
        if clauses.clause(at).is_empty() {
            return Some(Reason::Clause(at));
        }
    }
    None
}

// The first reason that holds, where all that hold speak of the variable of the last split.
fn reason_by(clauses: &Clauses, guards: &Places, trail: &Trail, last: Literal) -> Option<Reason>
    requires known { last.var < var_count clauses.now.cells }
    requires guarded { IsGuardedBut clauses.now (list_of guards.now) trail.now.path (opposite_of last) }
    requires quiet { QuietBut clauses.now trail.now.path last.var }
    ensures found { IfSome result (Holds clauses.now trail.now.path) }
    ensures none { IfNone result (NoReason clauses.now trail.now.path) }
{
    if let Some(at) = false_clause(clauses, trail, guards.of(opposite(last))) {
        return Some(Reason::Clause(at));
    }
    let cell = clauses.cell_of(last.var);
    if trail.gives(last.var, true) {
        return pair_with(clauses, trail, cell, last.var);
    }
    if holds(clauses, trail, Reason::NoneOf(cell)) {
        return Some(Reason::NoneOf(cell));
    }
    None
}

// The least of the clauses that are false. They stand in no order.
fn false_clause(clauses: &Clauses, trail: &Trail, places: &[usize]) -> Option<usize>
    ensures found { IfSome result (λ at. Holds clauses.now trail.now.path (Reason.Clause at)) }
    ensures none { IfNone result
        (All (λ at. Holds clauses.now trail.now.path (Reason.Clause at) → ⊥) places.now) }
{
    let mut least = None;
    for at in places {
        least = lesser(clauses, trail, least, *at);
    }
    least
}

// The clause where it is false and less than the least so far.
fn lesser(clauses: &Clauses, trail: &Trail, least: Option<usize>, at: usize) -> Option<usize>
    requires { IfSome least (λ at. Holds clauses.now trail.now.path (Reason.Clause at)) }
    ensures found { IfSome result (λ at. Holds clauses.now trail.now.path (Reason.Clause at)) }
    ensures none { IfNone result
        ((least ≡ None) × (Holds clauses.now trail.now.path (Reason.Clause at) → ⊥)) }
{
    if is_at_most(least, at) {
        return least;
    }
    if holds(clauses, trail, Reason::Clause(at)) {
        Some(at)
    } else {
        least
    }
}

fn is_at_most(least: Option<usize>, at: usize) -> bool
    ensures { IsTrue result → least ≢ None }
{
    match least {
        Some(least) => least <= at,
        None => false,
    }
}

// Two true variables of the cell, one of them the given one, which is true.
fn pair_with(clauses: &Clauses, trail: &Trail, at: usize, var: usize) -> Option<Reason>
    requires there { IsSomeAnd (slice_get clauses.now.cells at) (λ cell. IsIn cell var) }
    requires is_true { value_on trail.now.path var ≡ Some true }
    ensures found { IfSome result (Holds clauses.now trail.now.path) }
    ensures none { IfNone result
        ((v : ℕ) → v ≢ var → IsSomeAnd (slice_get clauses.now.cells at) (λ cell. IsIn cell v)
        → value_on trail.now.path v ≡ Some true → ⊥) }
{
    match other_true(&clauses.cells()[at], trail, var) {
        Some(other) => {
            if other < var {
                Some(Reason::Two(other, var))
            } else {
                Some(Reason::Two(var, other))
            }
        }
        None => None,
    }
}

fn other_true(cell: &VarCell, trail: &Trail, var: usize) -> Option<usize>
    requires { cell.now.first + cell.now.count < 2 ^ 64 }
    ensures found { IfSome result
        (λ other. IsIn cell.now other × (other ≢ var) × (value_on trail.now.path other ≡ Some true)) }
    ensures none { IfNone result
        ((v : ℕ) → v ≢ var → IsIn cell.now v → value_on trail.now.path v ≡ Some true → ⊥) }
{
    for other in cell.first..cell.first + cell.count {
        if other != var && trail.gives(other, true) {
            return Some(other);
        }
    }
    None
}

// The first variable without a value that makes a reason hold at once when it is set, to true or to false.
fn first_forced(clauses: &Clauses, guards: &Places, trail: &mut Trail) -> Option<usize>
    requires vars { trail.old.vars ≡ var_count clauses.now.cells }
    requires guarded { IsGuarded clauses.now (list_of guards.now) trail.old.path }
    requires quiet { NoReason clauses.now trail.old.path }
    ensures open { IfSome result (IsOpen clauses.now trail.old.path) }
    ensures forced { IfSome result (IsForced clauses.now trail.old.path) }
    ensures none { IfNone result (NothingForced clauses.now trail.old.path) }
    ensures trail { trail.new ≡ trail.old }
{
    for var in 0..clauses.vars() {
        if trail.value(var).is_none() && is_forced(clauses, guards, trail, var) {
            return Some(var);
        }
    }
    None
}

fn is_forced(clauses: &Clauses, guards: &Places, trail: &mut Trail, var: usize) -> bool
    requires vars { trail.old.vars ≡ var_count clauses.now.cells }
    requires guarded { IsGuarded clauses.now (list_of guards.now) trail.old.path }
    requires quiet { NoReason clauses.now trail.old.path }
    requires open { IsOpen clauses.now trail.old.path var }
    ensures forced { MatchBool result (IsForced clauses.now trail.old.path var)
        ((literal : Literal) → literal.var ≡ var → NoReason clauses.now (literal ∷ trail.old.path)) }
    ensures trail { trail.new ≡ trail.old }
{
    let literal = Literal {
        var,
        positive: true,
    };
    if makes_reason(clauses, guards, trail, literal) {
        return true;
    }
    let literal = Literal {
        var,
        positive: false,
    };
    makes_reason(clauses, guards, trail, literal)
}

fn makes_reason(clauses: &Clauses, guards: &Places, trail: &mut Trail, literal: Literal) -> bool
    requires vars { trail.old.vars ≡ var_count clauses.now.cells }
    requires guarded { IsGuarded clauses.now (list_of guards.now) trail.old.path }
    requires quiet { NoReason clauses.now trail.old.path }
    requires open { IsOpen clauses.now trail.old.path literal.var }
    ensures made { MatchBool result ((reason : Reason) × Holds clauses.now (literal ∷ trail.old.path) reason)
        (NoReason clauses.now (literal ∷ trail.old.path)) }
    ensures trail { trail.new ≡ trail.old }
{
    trail.push(literal);
    let reason = reason_by(clauses, guards, trail, literal);
    let _ = trail.pop();
    reason.is_some()
}

// The first variable without a value of the first demanded cell with no true variable.
fn first_wanted(clauses: &Clauses, trail: &Trail) -> Option<usize>
    requires { NoReason clauses.now trail.now.path }
    ensures open { IfSome result (IsOpen clauses.now trail.now.path) }
    ensures wanted { IfSome result (IsWanted clauses.now trail.now.path) }
    ensures none { IfNone result (IsAllChosen clauses.now trail.now.path) }
{
    let cells = clauses.cells();
    for at in 0..cells.len() {
        if let Some(var) = wanted_in(&cells[at], trail) {
            return Some(var);
        }
    }
    None
}

fn wanted_in(cell: &VarCell, trail: &Trail) -> Option<usize>
    requires { cell.now.first + cell.now.count < 2 ^ 64 }
    ensures found { IfSome result (λ v. IsIn cell.now v × (value_on trail.now.path v ≡ None)
        × (cell.now.demanded ≡ true) × ¬ HasTrue trail.now.path cell.now) }
    ensures none { IfNone result (cell.now.demanded ≡ true
        → HasTrue trail.now.path cell.now
        ⊎ ((v : ℕ) → IsIn cell.now v → value_on trail.now.path v ≡ Some false)) }
{
    if !cell.demanded {
        return None;
    }
    if has_true(cell, trail) {
        return None;
    }
    first_open(cell, trail)
}

// Whether the path makes a variable of the cell true.
fn has_true(cell: &VarCell, trail: &Trail) -> bool
    requires { cell.now.first + cell.now.count < 2 ^ 64 }
    ensures { MatchBool result (HasTrue trail.now.path cell.now) (HasTrue trail.now.path cell.now → ⊥) }
{
    for var in cell.first..cell.first + cell.count {
        if trail.gives(var, true) {
            return true;
        }
    }
    false
}

fn first_open(cell: &VarCell, trail: &Trail) -> Option<usize>
    requires { cell.now.first + cell.now.count < 2 ^ 64 }
    ensures found { IfSome result (λ v. IsIn cell.now v × (value_on trail.now.path v ≡ None)) }
    ensures none { IfNone result ((v : ℕ) → IsIn cell.now v → value_on trail.now.path v ≢ None) }
{
    for var in cell.first..cell.first + cell.count {
        if trail.value(var).is_none() {
            return Some(var);
        }
    }
    None
}
