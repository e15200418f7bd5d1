//! A search for a model that learns a clause at each conflict, of Marques-Silva and Sakallah, "GRASP: A Search Algorithm
//! for Propositional Satisfiability" (IEEE Transactions on Computers 48, 1999), with the restarts of Chaff. It goes by the
//! hints alone, and what it finds is tested. So nothing has to be proved of it: a fault could only hide a model.
ghost use Rattle.std.specs.Prelude.{◌≡◌, false, length, slice_index_or, IfOk, IfSome};
ghost use Rattle.case_tree.specs.CaseTree.{IsAllowed, var_count};

use crate::assignments::{is_allowed, values};
use crate::hints::{Hints, Order};
use crate::places::opposite;
use case_tree::{Clauses, Literal, Reason, Trail};
use std::alloc::{AllocError, Global};

// How many conflicts come before the first restart.
const FIRST_RESTART: u64 = 100;

// How many literals of learned clauses are kept at most, when a restart comes.
const MOST_LITERALS: usize = 200_000;

struct Learner {
    alloc: Global,
    hints: Hints,
    trail: Trail,
    // How many splits that weren't forced were made before each variable got its value, its own among them.
    levels: Vec<usize>,
    level: usize,
    // For each cell the variable that was true last.
    chosen: Vec<Option<usize>>,
    // The variables that a conflict rests on, while it is looked into.
    seen: Vec<bool>,
    ghost fits: { trail.vars ≡ length levels.items },
}

// By hand, so that whatever drops a learner calls this, and isn't proved for each of its parts.
impl Drop for Learner {
    fn drop(self) {
        let Learner {
            alloc: _,
            hints: _,
            trail: _,
            levels: _,
            level: _,
            chosen: _,
            seen: _,
        } = self;
    }
}

/// A model, where the search comes to one with at most so many conflicts.
pub fn find_model(
    alloc: Global,
    clauses: &Clauses,
    conflicts: u64,
) -> Result<Option<Vec<bool>>, AllocError>
    ensures count { IfOk result (λ found. IfSome found (λ values. length values.items ≡ var_count clauses.now.cells)) }
    ensures allowed { IfOk result (λ found. IfSome found (λ values.
        IsAllowed clauses.now (λ v. slice_index_or values.items v false))) }
{
    let mut learner = Learner::new(alloc, clauses)?;
    let mut until_restart = FIRST_RESTART;
    let mut passed = 0u64;
    for _ in 0..conflicts {
        let Some(reason) = learner.descend(clauses)? else {
            return learner.model(clauses);
        };
        if !learner.learn(clauses, reason)? {
            return Ok(None);
        }
        passed = passed.saturating_add(1);
        if passed >= until_restart {
            passed = 0;
            until_restart = until_restart.saturating_add(until_restart / 8);
            learner.restart(clauses)?;
        }
    }
    Ok(None)
}

impl Learner {
    fn new(alloc: Global, clauses: &Clauses) -> Result<Learner, AllocError> {
        Ok(Learner {
            alloc,
            hints: Hints::new(alloc, clauses, Order::ByConflicts)?,
            trail: Trail::new(alloc, clauses.vars())?,
            levels: vec![in alloc; 0; clauses.vars()]?,
            level: 0,
            chosen: vec![in alloc; None; clauses.cells().len()]?,
            seen: vec![in alloc; false; clauses.vars()]?,
        })
    }

    // The assignment of the path, where it is allowed.
    fn model(&self, clauses: &Clauses) -> Result<Option<Vec<bool>>, AllocError>
        ensures count { IfOk result (λ found. IfSome found (λ values. length values.items ≡ var_count clauses.now.cells)) }
        ensures allowed { IfOk result (λ found. IfSome found (λ values.
            IsAllowed clauses.now (λ v. slice_index_or values.items v false))) }
    {
        let found = values(self.alloc, &self.trail, clauses.vars())?;
        if is_allowed(clauses, &found) {
            Ok(Some(found))
        } else {
            Ok(None)
        }
    }

    // Goes down to a conflict, or to where nothing is left to choose. Each round gives a variable its value.
    fn descend(&mut self, clauses: &Clauses) -> Result<Option<Reason>, AllocError> {
        for _ in 0..clauses.vars() {
            if let Some(reason) = self.hints.conflict() {
                return Ok(Some(reason));
            }
            let Some(literal) = self.next_literal(clauses) else {
                return Ok(None);
            };
            self.enter(clauses, literal)?;
        }
        Ok(self.hints.conflict())
    }

    // What is forced, or else a choice.
    fn next_literal(&mut self, clauses: &Clauses) -> Option<Literal> {
        if let Some(hint) = self.hints.first_forced() {
            return Some(opposite(hint.literal));
        }
        let var = self.choice(clauses)?;
        self.level = self.level.saturating_add(1);
        Some(Literal {
            var,
            positive: true,
        })
    }

    // The variable of its cell that was true last, where it has no value.
    fn choice(&self, clauses: &Clauses) -> Option<usize> {
        let var = self.hints.wanted_split(clauses, &self.trail)?;
        if var >= clauses.vars() {
            return None;
        }
        let at = clauses.cell_of(var);
        match self.chosen_of(at) {
            Some(last) if self.trail.value(last).is_none() => Some(last),
            _ => Some(var),
        }
    }

    fn chosen_of(&self, at: usize) -> Option<usize> {
        if at < self.chosen.len() {
            self.chosen[at]
        } else {
            None
        }
    }

    fn enter(&mut self, clauses: &Clauses, literal: Literal) -> Result<(), AllocError> {
        let var = literal.var;
        if var >= clauses.vars() || var >= self.levels.len() || self.trail.value(var).is_some() {
            return Ok(());
        }
        self.trail.push(literal);
        self.levels[var] = self.level;
        let at = clauses.cell_of(var);
        if literal.positive && at < self.chosen.len() {
            self.chosen[at] = Some(var);
        }
        self.hints.enter(clauses, &self.trail, literal)
    }

    fn leave(&mut self, clauses: &Clauses) -> Result<(), AllocError> {
        let _ = self.trail.pop();
        self.hints.leave(clauses)
    }

    // Learns the clause that the conflict rests on, and goes back to where it forces a variable. False where the conflict
    // rests on no choice.
    fn learn(&mut self, clauses: &Clauses, conflict: Reason) -> Result<bool, AllocError> {
        if self.level == 0 {
            return Ok(false);
        }
        self.hints.begin_conflict();
        let Some(first) = self.first_cause(clauses, conflict)? else {
            return Ok(false);
        };
        let mut clause = self.causes(first)?;
        let back = self.latest_second(&mut clause);
        self.go_back(clauses, back)?;
        self.hints.learn(clauses, clause)?;
        Ok(true)
    }

    // Looks into the conflict, the latest variables first, until it rests on one variable of the latest level alone.
    fn first_cause(
        &mut self,
        clauses: &Clauses,
        conflict: Reason,
    ) -> Result<Option<Literal>, AllocError> {
        let mut open = self.see_all(clauses, conflict)?;
        let depth = self.hints.depth();
        for passed in 0..depth {
            let Some(literal) = self.hints.literal_at(depth - 1 - passed) else {
                return Ok(None);
            };
            if !self.is_seen(literal.var) {
                continue;
            }
            if open <= 1 {
                return Ok(Some(literal));
            }
            let Some(hint) = self.hints.hint_of(literal.var) else {
                return Ok(None);
            };
            let more = self.see_all(clauses, hint.reason)?;
            self.set_seen(literal.var, false);
            open = (open - 1).saturating_add(more);
        }
        Ok(None)
    }

    // Sees all variables of a reason, and tells how many of them are of the latest level and weren't seen.
    fn see_all(&mut self, clauses: &Clauses, reason: Reason) -> Result<usize, AllocError> {
        let vars = self.hints.named(clauses, reason)?;
        let mut fresh = 0usize;
        for var in &vars {
            if self.sees_fresh(*var) {
                fresh = fresh.saturating_add(1);
            }
        }
        Ok(fresh)
    }

    fn sees_fresh(&mut self, var: usize) -> bool {
        if self.is_seen(var) || self.level_of(var) == 0 {
            return false;
        }
        self.set_seen(var, true);
        self.level_of(var) == self.level
    }

    fn is_seen(&self, var: usize) -> bool {
        var < self.seen.len() && self.seen[var]
    }

    fn set_seen(&mut self, var: usize, seen: bool) {
        if var < self.seen.len() {
            self.seen[var] = seen;
        }
    }

    fn level_of(&self, var: usize) -> usize {
        if var < self.levels.len() {
            self.levels[var]
        } else {
            0
        }
    }

    // The clause that says that not all seen variables have their values, the given one first. None is seen afterwards.
    fn causes(&mut self, first: Literal) -> Result<Vec<Literal>, AllocError> {
        let mut clause = Vec::from_array(self.alloc, [opposite(first)])?;
        self.set_seen(first.var, false);
        for place in 0..self.hints.depth() {
            if let Some(literal) = self.hints.literal_at(place) {
                if self.is_seen(literal.var) {
                    self.set_seen(literal.var, false);
                    clause.push(opposite(literal))?;
                }
            }
        }
        Ok(clause)
    }

    // Puts the last of the others at the second place, and tells its level.
    fn latest_second(&self, clause: &mut Vec<Literal>) -> usize {
        let count = clause.len();
        if count < 2 {
            return 0;
        }
        clause.swap(1, count - 1);
        self.level_of(clause[1].var)
    }

    // Goes back to where the last choice of this level was followed to its end.
    fn go_back(&mut self, clauses: &Clauses, level: usize) -> Result<(), AllocError> {
        for _ in 0..self.hints.depth() {
            if !self.ends_above(level) {
                break;
            }
            self.leave(clauses)?;
        }
        self.level = level;
        Ok(())
    }

    // Whether the last variable of the path got its value at a later level.
    fn ends_above(&self, level: usize) -> bool {
        let depth = self.hints.depth();
        if depth == 0 {
            return false;
        }
        match self.hints.literal_at(depth - 1) {
            Some(last) => self.level_of(last.var) > level,
            None => false,
        }
    }

    // Goes back to where no choice was made. Where too much was learned, the older half is forgotten.
    fn restart(&mut self, clauses: &Clauses) -> Result<(), AllocError> {
        self.go_back(clauses, 0)?;
        if self.hints.learned_literals() <= MOST_LITERALS {
            return Ok(());
        }
        self.forget(clauses)
    }

    fn forget(&mut self, clauses: &Clauses) -> Result<(), AllocError> {
        let newer = self.hints.take_newer()?;
        self.trail.clear();
        self.hints = Hints::new(self.alloc, clauses, Order::ByConflicts)?;
        for clause in newer {
            self.hints.add(clauses, clause)?;
        }
        Ok(())
    }
}
