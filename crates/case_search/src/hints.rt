//! What the search looks at first at a node, so that no node has to look through all variables, clauses or cells. The
//! search tests each hint before it goes by it, and where no hint is left it looks through everything. So nothing has to
//! be proved of hints: a wrong one could only cost time or change the order of the splits, which tests pin.
//!
//! Two literals of each clause are watched, of Moskewicz, Madigan, Zhao, Zhang and Malik, "Chaff: Engineering an Efficient
//! SAT Solver" (DAC 2001): a clause forces a variable only where one of the two has become false. Hints follow the search
//! down to each node that is no leaf, and on the way back up only what was hinted at a node is taken back.
ghost use Rattle.std.specs.Prelude.{◌+◌, ◌^◌, ◌<◌};

use crate::named::{vars_in, vars_named};
use crate::places::{Places, opposite};
use crate::recency::Recency;
use case_tree::{Clauses, Literal, Reason, Trail, VarCell};
use std::alloc::{AllocError, Global};
use std::collections::BTreeSet;

/// A literal that makes the reason hold as soon as it is true, so that its variable is forced.
#[derive(Clone, Copy)]
pub struct Hint {
    pub literal: Literal,
    pub reason: Reason,
}

#[derive(Clone, Copy)]
struct Watched {
    one: Literal,
    other: Literal,
}

// A literal of the path, and how many variables had a hint above it.
#[derive(Clone, Copy)]
struct Entered {
    literal: Literal,
    before: usize,
}

// How many variables of a cell have no value, and how many are true.
#[derive(Clone, Copy)]
struct CellState {
    open: usize,
    chosen: usize,
}

/// The order of the splits on variables that aren't forced: by their places, or the one of the latest conflict first.
#[derive(Clone, Copy, PartialEq, Eq)]
pub enum Order {
    ByPlace,
    ByConflicts,
}

/// The variables that are forced, and the demanded cells with no true variable, at the nearest node that is no leaf.
pub struct Hints {
    alloc: Global,
    // The clauses that watch each literal.
    watching: Places,
    // For each clause with two literals or more the two that it watches.
    watched: Vec<Option<Watched>>,
    // For each variable why it is forced.
    by_var: Vec<Option<Hint>>,
    // The variables with a hint, in the order in which they got it.
    hinted: Vec<usize>,
    entered: Vec<Entered>,
    // The variables with a hint and no value.
    forced: BTreeSet<usize>,
    cells: Vec<CellState>,
    wanted: BTreeSet<usize>,
    // Clauses that were learned, which go by the places after those of the question.
    learned: Vec<Vec<Literal>>,
    learned_literals: usize,
    // A reason that holds, where one was come upon at the nearest node.
    conflict: Option<Reason>,
    order: Order,
    recency: Recency,
}

// By hand, so that whatever drops hints calls this, and isn't proved for each of their parts.
impl Drop for Hints {
    fn drop(self) {
        let Hints {
            alloc: _,
            watching: _,
            watched: _,
            by_var: _,
            hinted: _,
            entered: _,
            forced: _,
            cells: _,
            wanted: _,
            learned: _,
            learned_literals: _,
            conflict: _,
            order: _,
            recency: _,
        } = self;
    }
}

impl Hints {
    /// The hints at the root.
    pub fn new(alloc: Global, clauses: &Clauses, order: Order) -> Result<Hints, AllocError> {
        let mut hints = Hints::none(alloc, clauses, order)?;
        hints.begin(clauses)?;
        Ok(hints)
    }

    // No hint, and no clause or cell to look at. What takes memory at once comes first, so that little is dropped where
    // there is none.
    fn none(alloc: Global, clauses: &Clauses, order: Order) -> Result<Hints, AllocError> {
        let watching = Places::new(alloc, clauses.vars())?;
        let watched = vec![in alloc; None; clauses.clause_count()]?;
        let by_var = vec![in alloc; None; clauses.vars()]?;
        let recency = Recency::new(alloc, clauses)?;
        Ok(Hints {
            alloc,
            watching,
            watched,
            by_var,
            hinted: Vec::new(alloc),
            entered: Vec::new(alloc),
            forced: BTreeSet::new(alloc),
            cells: Vec::new(alloc),
            wanted: BTreeSet::new(alloc),
            learned: Vec::new(alloc),
            learned_literals: 0,
            conflict: None,
            order,
            recency,
        })
    }

    fn begin(&mut self, clauses: &Clauses) -> Result<(), AllocError> {
        for at in 0..clauses.clause_count() {
            self.begin_clause(clauses.clause(at), at)?;
        }
        for (at, cell) in clauses.cells().iter().enumerate() {
            self.begin_cell(cell, at)?;
        }
        Ok(())
    }

    /// Why the first variable that is forced is.
    pub fn first_forced(&self) -> Option<Hint> {
        self.hint_of(*self.forced.first()?)
    }

    /// A variable without a value of a demanded cell with no true variable, by the order of the splits.
    pub fn wanted_split(&self, clauses: &Clauses, trail: &Trail) -> Option<usize> {
        let at = match self.order {
            Order::ByPlace => *self.wanted.first()?,
            Order::ByConflicts => self.latest_wanted()?,
        };
        let cells = clauses.cells();
        if at < cells.len() {
            self.latest_open(&cells[at], trail)
        } else {
            None
        }
    }

    // Of the demanded cells with no true variable the one of the latest conflict, or the first.
    fn latest_wanted(&self) -> Option<usize> {
        let mut best = None;
        for at in self.wanted.iter() {
            best = self.later_cell(best, *at);
        }
        best
    }

    fn later_cell(&self, best: Option<usize>, at: usize) -> Option<usize> {
        match best {
            Some(cell) if self.recency.of_cell(cell) >= self.recency.of_cell(at) => best,
            _ => Some(at),
        }
    }

    // Of the variables of the cell without a value the one of the latest conflict, or the first.
    fn latest_open(&self, cell: &VarCell, trail: &Trail) -> Option<usize>
        requires { cell.now.first + cell.now.count < 2 ^ 64 }
    {
        let mut best = None;
        for var in cell.first..cell.first + cell.count {
            if trail.value(var).is_none() {
                best = self.later_var(best, var);
            }
        }
        best
    }

    fn later_var(&self, best: Option<usize>, var: usize) -> Option<usize> {
        match best {
            Some(_) if self.order == Order::ByPlace => best,
            Some(other) if self.recency.of_var(other) >= self.recency.of_var(var) => best,
            _ => Some(var),
        }
    }

    /// Notes a conflict at a leaf below the nearest node, unless it is a hint's own leaf.
    pub fn blame(
        &mut self,
        clauses: &Clauses,
        last: Literal,
        reason: Reason,
    ) -> Result<(), AllocError> {
        if self.order == Order::ByPlace {
            return Ok(());
        }
        let hint = self.hint_of(last.var);
        if let Some(hint) = hint {
            if hint.literal == last {
                return Ok(());
            }
        }
        self.recency.begin();
        self.named(clauses, reason)?;
        if let Some(hint) = hint {
            self.named(clauses, hint.reason)?;
        }
        Ok(())
    }

    /// A conflict that was come upon at the nearest node.
    pub fn conflict(&self) -> Option<Reason> {
        self.conflict
    }

    /// How many literals the nearest node's path has.
    pub fn depth(&self) -> usize {
        self.entered.len()
    }

    /// A literal of the path, the one of the first split at 0.
    pub fn literal_at(&self, place: usize) -> Option<Literal> {
        if place < self.entered.len() {
            Some(self.entered[place].literal)
        } else {
            None
        }
    }

    /// Counts a conflict.
    pub fn begin_conflict(&mut self) {
        self.recency.begin();
    }

    /// Adds a clause at the root.
    pub fn add(&mut self, clauses: &Clauses, clause: Vec<Literal>) -> Result<(), AllocError> {
        let at = clauses.clause_count().saturating_add(self.learned.len());
        self.watched.push(None)?;
        self.begin_clause(&clause, at)?;
        self.learned_literals = self.learned_literals.saturating_add(clause.len());
        self.learned.push(clause)?;
        Ok(())
    }

    /// Adds a clause whose first literal is open, and all others of which are false. Of those the second became so last.
    pub fn learn(&mut self, clauses: &Clauses, clause: Vec<Literal>) -> Result<(), AllocError> {
        let at = clauses.clause_count().saturating_add(self.learned.len());
        let first = clause.first().copied();
        self.add(clauses, clause)?;
        match first {
            Some(literal) => self.note(opposite(literal), Reason::Clause(at)),
            None => Ok(()),
        }
    }

    /// The variables that a reason names. They become part of the latest conflict.
    pub fn named(&mut self, clauses: &Clauses, reason: Reason) -> Result<Vec<usize>, AllocError> {
        let vars = match reason {
            Reason::Clause(at) => vars_in(self.alloc, self.clause(clauses, at))?,
            _ => vars_named(self.alloc, clauses, reason)?,
        };
        self.recency.touch(clauses, &vars);
        Ok(vars)
    }

    /// How many literals the learned clauses have together.
    pub fn learned_literals(&self) -> usize {
        self.learned_literals
    }

    /// Gives away the newer half of the learned clauses.
    pub fn take_newer(&mut self) -> Result<Vec<Vec<Literal>>, AllocError> {
        let half = self.learned.len() / 2;
        self.learned.split_off(half)
    }

    // A clause of the question, or one that was learned.
    fn clause<'a>(&'a self, clauses: &'a Clauses, at: usize) -> &'a [Literal] {
        let count = clauses.clause_count();
        if at < count {
            clauses.clause(at)
        } else if at - count < self.learned.len() {
            &self.learned[at - count]
        } else {
            &[]
        }
    }

    /// Why a variable is forced.
    pub fn hint_of(&self, var: usize) -> Option<Hint> {
        if var < self.by_var.len() {
            self.by_var[var]
        } else {
            None
        }
    }

    /// Goes down to a node that is no leaf, whose last split made the literal true.
    pub fn enter(
        &mut self,
        clauses: &Clauses,
        trail: &Trail,
        last: Literal,
    ) -> Result<(), AllocError> {
        let before = self.hinted.len();
        self.entered.push(Entered {
            literal: last,
            before,
        })?;
        self.forced.remove(&last.var);
        self.look_at_clauses(clauses, trail, opposite(last))?;
        self.look_at_cell(clauses, trail, last)
    }

    /// Goes back up to the parent.
    pub fn leave(&mut self, clauses: &Clauses) -> Result<(), AllocError> {
        self.conflict = None;
        let Some(entered) = self.entered.pop() else {
            return Ok(());
        };
        for _ in entered.before..self.hinted.len() {
            self.take_back();
        }
        let var = entered.literal.var;
        if var < self.by_var.len() && self.by_var[var].is_some() {
            self.forced.insert(var)?;
        }
        self.leave_cell(clauses, entered.literal)
    }

    // Takes the last hint back.
    fn take_back(&mut self) {
        let Some(var) = self.hinted.pop() else {
            return;
        };
        if var < self.by_var.len() {
            self.by_var[var] = None;
        }
        self.forced.remove(&var);
    }

    fn begin_clause(&mut self, clause: &[Literal], at: usize) -> Result<(), AllocError> {
        if clause.is_empty() {
            return Ok(());
        }
        let one = clause[0];
        match other_literal(clause, one) {
            Some(other) => {
                self.watch(one, at)?;
                self.watch(other, at)?;
                self.set_watched(at, Watched { one, other });
                Ok(())
            }
            None => self.note(opposite(one), Reason::Clause(at)),
        }
    }

    fn begin_cell(&mut self, cell: &VarCell, at: usize) -> Result<(), AllocError> {
        self.cells.push(CellState {
            open: cell.count,
            chosen: 0,
        })?;
        if !cell.demanded {
            return Ok(());
        }
        self.wanted.insert(at)?;
        if cell.count == 1 {
            let literal = Literal {
                var: cell.first,
                positive: false,
            };
            self.note(literal, Reason::NoneOf(at))?;
        }
        Ok(())
    }

    fn watch(&mut self, literal: Literal, at: usize) -> Result<(), AllocError> {
        if literal.var < self.watching.vars() {
            self.watching.add(literal, at)?;
        }
        Ok(())
    }

    fn set_watched(&mut self, at: usize, watched: Watched) {
        if at < self.watched.len() {
            self.watched[at] = Some(watched);
        }
    }

    // Notes why a variable is forced, unless another reason is noted.
    fn note(&mut self, literal: Literal, reason: Reason) -> Result<(), AllocError> {
        let var = literal.var;
        if var < self.by_var.len() && self.by_var[var].is_none() {
            self.hinted.push(var)?;
            self.forced.insert(var)?;
            self.by_var[var] = Some(Hint { literal, reason });
        }
        Ok(())
    }

    // The clauses from the last on, since one that leaves the list puts the last in its place.
    fn look_at_clauses(
        &mut self,
        clauses: &Clauses,
        trail: &Trail,
        gone: Literal,
    ) -> Result<(), AllocError> {
        let count = self.watching.of(gone).len();
        for passed in 0..count {
            self.look_at_clause(clauses, trail, gone, count - 1 - passed)?;
        }
        Ok(())
    }

    // A clause that watches a literal which has become false watches another that isn't, or forces the other literal that
    // it watches.
    fn look_at_clause(
        &mut self,
        clauses: &Clauses,
        trail: &Trail,
        gone: Literal,
        index: usize,
    ) -> Result<(), AllocError> {
        let Some(at) = self.watching_at(gone, index) else {
            return Ok(());
        };
        let Some(kept) = self.kept_by(at, gone) else {
            return Ok(());
        };
        if trail.gives(kept.var, kept.positive) {
            return Ok(());
        }
        match other_open(self.clause(clauses, at), trail, kept) {
            Some(other) => {
                self.watch(other, at)?;
                self.set_watched(at, Watched { one: kept, other });
                self.watching.remove(gone, index);
                Ok(())
            }
            None => self.force(trail, kept, at),
        }
    }

    // The last literal of a clause that isn't false is forced. Where it is false too, that is a conflict.
    fn force(&mut self, trail: &Trail, last: Literal, at: usize) -> Result<(), AllocError> {
        if trail.gives(last.var, !last.positive) {
            self.conflict = Some(Reason::Clause(at));
            return Ok(());
        }
        self.note(opposite(last), Reason::Clause(at))
    }

    fn watching_at(&self, gone: Literal, index: usize) -> Option<usize> {
        let places = self.watching.of(gone);
        if index < places.len() {
            Some(places[index])
        } else {
            None
        }
    }

    // The other literal that a clause watches.
    fn kept_by(&self, at: usize, gone: Literal) -> Option<Literal> {
        if at >= self.watched.len() {
            return None;
        }
        let watched = self.watched[at]?;
        if watched.one == gone {
            Some(watched.other)
        } else {
            Some(watched.one)
        }
    }

    fn look_at_cell(
        &mut self,
        clauses: &Clauses,
        trail: &Trail,
        last: Literal,
    ) -> Result<(), AllocError> {
        if last.var >= clauses.vars() {
            return Ok(());
        }
        let at = clauses.cell_of(last.var);
        let cells = clauses.cells();
        if at >= cells.len() || at >= self.cells.len() {
            return Ok(());
        }
        let open = self.cells[at].open.saturating_sub(1);
        self.cells[at].open = open;
        if last.positive {
            self.cells[at].chosen = self.cells[at].chosen.saturating_add(1);
            self.wanted.remove(&at);
            return self.force_others(&cells[at], trail, last.var);
        }
        if !cells[at].demanded || self.cells[at].chosen > 0 {
            return Ok(());
        }
        match open {
            0 => {
                self.conflict = Some(Reason::NoneOf(at));
                Ok(())
            }
            1 => self.force_last(&cells[at], trail, at),
            _ => Ok(()),
        }
    }

    fn leave_cell(&mut self, clauses: &Clauses, last: Literal) -> Result<(), AllocError> {
        if last.var >= clauses.vars() {
            return Ok(());
        }
        let at = clauses.cell_of(last.var);
        let cells = clauses.cells();
        if at >= cells.len() || at >= self.cells.len() {
            return Ok(());
        }
        self.cells[at].open = self.cells[at].open.saturating_add(1);
        if !last.positive {
            return Ok(());
        }
        let chosen = self.cells[at].chosen.saturating_sub(1);
        self.cells[at].chosen = chosen;
        if chosen == 0 && cells[at].demanded {
            self.wanted.insert(at)?;
        }
        Ok(())
    }

    // Beside a true variable the others of its cell are forced to false. Where another is true, that is a conflict.
    fn force_others(
        &mut self,
        cell: &VarCell,
        trail: &Trail,
        chosen: usize,
    ) -> Result<(), AllocError>
        requires { cell.now.first + cell.now.count < 2 ^ 64 }
    {
        for var in cell.first..cell.first + cell.count {
            self.force_other(trail, var, chosen)?;
        }
        Ok(())
    }

    fn force_other(&mut self, trail: &Trail, var: usize, chosen: usize) -> Result<(), AllocError> {
        let reason = Reason::Two(var.min(chosen), var.max(chosen));
        match trail.value(var) {
            None => {
                let literal = Literal {
                    var,
                    positive: true,
                };
                self.note(literal, reason)
            }
            Some(value) if value && var != chosen => {
                self.conflict = Some(reason);
                Ok(())
            }
            _ => Ok(()),
        }
    }

    // The only variable without a value of a demanded cell with no true one is forced to true.
    fn force_last(&mut self, cell: &VarCell, trail: &Trail, at: usize) -> Result<(), AllocError>
        requires { cell.now.first + cell.now.count < 2 ^ 64 }
    {
        for var in cell.first..cell.first + cell.count {
            if trail.value(var).is_none() {
                let literal = Literal {
                    var,
                    positive: false,
                };
                return self.note(literal, Reason::NoneOf(at));
            }
        }
        Ok(())
    }
}

// A literal of the clause that is another than the given one.
fn other_literal(clause: &[Literal], one: Literal) -> Option<Literal> {
    for literal in clause {
        if *literal != one {
            return Some(*literal);
        }
    }
    None
}

// A literal of the clause that isn't false and is another than the one that it keeps watching.
fn other_open(clause: &[Literal], trail: &Trail, kept: Literal) -> Option<Literal> {
    for literal in clause {
        if *literal != kept && !trail.gives(literal.var, !literal.positive) {
            return Some(*literal);
        }
    }
    None
}
