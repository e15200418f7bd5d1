//! How late a conflict came that a variable or a cell was part of.
use case_tree::Clauses;
use std::alloc::{AllocError, Global};

/// The number of the latest conflict that each variable and each cell was part of, or 0.
#[derive(Drop)]
pub struct Recency {
    conflicts: u64,
    vars: Vec<u64>,
    cells: Vec<u64>,
}

impl Recency {
    pub fn new(alloc: Global, clauses: &Clauses) -> Result<Recency, AllocError> {
        Ok(Recency {
            conflicts: 0,
            vars: vec![in alloc; 0; clauses.vars()]?,
            cells: vec![in alloc; 0; clauses.cells().len()]?,
        })
    }

    pub fn of_var(&self, var: usize) -> u64 {
        if var < self.vars.len() {
            self.vars[var]
        } else {
            0
        }
    }

    pub fn of_cell(&self, at: usize) -> u64 {
        if at < self.cells.len() {
            self.cells[at]
        } else {
            0
        }
    }

    /// Counts a conflict. The variables that are touched next are part of it.
    pub fn begin(&mut self) {
        self.conflicts = self.conflicts.saturating_add(1);
    }

    pub fn touch(&mut self, clauses: &Clauses, vars: &[usize]) {
        for var in vars {
            self.touch_one(clauses, *var);
        }
    }

    fn touch_one(&mut self, clauses: &Clauses, var: usize) {
        if var >= self.vars.len() || var >= clauses.vars() {
            return;
        }
        self.vars[var] = self.conflicts;
        let at = clauses.cell_of(var);
        if at < self.cells.len() {
            self.cells[at] = self.conflicts;
        }
    }
}
