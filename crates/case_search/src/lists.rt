//! A list of clauses for each variable.
ghost use Rattle.std.specs.Prelude.{◌≡◌, ◌≢◌, ◌<◌, ℕ, ◌++◌, [], ◌∷◌, length, IfOk, OnOk, MatchOption};
ghost use Rattle.case_search.specs.Places.{list_at};

use std::alloc::{AllocError, Global};
use std::marker::Model;

/// The places of clauses in a list for each variable.
#[derive(Drop)]
pub struct Lists {
    lists: Vec<Vec<usize>>,
}

// Clauses see the list of each variable.
impl Model for Lists {
    ghost use Rattle.std.specs.Prelude.{List, ℕ};
    ghost use Rattle.case_search.specs.Places.{lists_of};

    ghost Value = { List (List ℕ) };

    ghost view = { λ l. lists_of l.lists.items };
}

impl Lists {
    pub fn new(alloc: Global, vars: usize) -> Result<Lists, AllocError>
        ensures { IfOk result (λ lists. length lists ≡ vars) }
    {
        let mut lists = Vec::with_capacity(alloc, vars)?;
        for _ in 0..vars {
            lists.push(Vec::new(alloc))?;
        }
        Ok(Lists { lists })
    }

    pub fn vars(&self) -> usize
        ensures { result ≡ length self.now }
    {
        self.lists.len()
    }

    /// The list of a variable, which is empty where there is no such variable.
    pub fn of(&self, var: usize) -> &[usize]
        ensures { result.now ≡ list_at self.now var }
    {
        if var < self.lists.len() {
            &self.lists[var]
        } else {
            &[]
        }
    }

    pub fn add(&mut self, var: usize, at: usize) -> Result<(), AllocError>
        requires { var < length self.old }
        ensures len { length self.new ≡ length self.old }
        ensures added { OnOk result (list_at self.new var ≡ list_at self.old var ++ at ∷ []) }
        ensures others { OnOk result ((v : ℕ) → v ≢ var → list_at self.new v ≡ list_at self.old v) }
    {
        self.lists[var].push(at)?;
        Ok(())
    }

    /// Takes the last clause out of a list.
    pub fn take(&mut self, var: usize) -> Option<usize>
        ensures len { length self.new ≡ length self.old }
        ensures taken { MatchOption result ((list_at self.old var ≡ []) × (list_at self.new var ≡ []))
            (λ at. list_at self.old var ≡ list_at self.new var ++ at ∷ []) }
        ensures others { (v : ℕ) → v ≢ var → list_at self.new v ≡ list_at self.old v }
    {
        if var < self.lists.len() {
            self.lists[var].pop()
        } else {
            None
        }
    }

    /// Takes a clause out of a list, and puts the last of the list in its place.
    pub fn remove(&mut self, var: usize, index: usize)
        ensures len { length self.new ≡ length self.old }
    {
        if var < self.lists.len() && index < self.lists[var].len() {
            self.lists[var].swap_remove(index);
        }
    }
}
