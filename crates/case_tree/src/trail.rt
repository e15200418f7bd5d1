//! The path of the node that a walk through a tree has come to.
ghost use Rattle.std.specs.Prelude.{◌≡◌, ◌↔◌, ◌<◌, ◌≤◌, length, IsTrue, Some, None, IfOk, IfSome, MatchOption, [], ◌∷◌};
ghost use Rattle.case_tree.specs.CaseTree.{value_on};
ghost use Rattle.case_tree.specs.Walk.{next_path};

use crate::clauses::Literal;
use std::alloc::{AllocError, Global};
use std::marker::Model;

/// The literals that the splits above a node made true, and the value of each variable beside them, so that a
/// look-up passes over no path. It takes memory when it is made and never again.
#[derive(Drop)]
pub struct Trail {
    values: Vec<Option<bool>>,
    splits: Vec<Literal>,
}

// Clauses see the number of variables, and the path with the nearest split first.
impl Model for Trail {
    ghost use Rattle.std.specs.Prelude.{reverse, length};
    ghost use Rattle.std.specs.Vec.{vec_capacity};
    ghost use Rattle.case_tree.specs.Walk.{Way, IsTrail};

    ghost Value = { Way };

    ghost view = { λ t. record { vars = length t.values.items; path = reverse t.splits.items } };

    ghost invariant = { λ t. IsTrail t.values.items (reverse t.splits.items) (vec_capacity t.splits) };
}

impl Trail {
    pub fn new(alloc: Global, vars: usize) -> Result<Trail, AllocError>
        ensures vars { IfOk result (λ trail. trail.vars ≡ vars) }
        ensures path { IfOk result (λ trail. trail.path ≡ []) }
    {
        Ok(Trail {
            values: vec![in alloc; None; vars]?,
            splits: Vec::with_capacity(alloc, vars)?,
        })
    }

    /// The value that the path gives to a variable.
    pub fn value(&self, var: usize) -> Option<bool>
        ensures { result ≡ value_on self.now.path var }
    {
        match self.values.get(var) {
            Some(value) => *value,
            None => None,
        }
    }

    /// Whether the path gives this value to the variable.
    pub fn gives(&self, var: usize, value: bool) -> bool
        ensures { IsTrue result ↔ (value_on self.now.path var ≡ Some value) }
    {
        self.value(var) == Some(value)
    }

    /// Goes down a branch of a split on a variable that isn't on the path.
    pub fn push(&mut self, literal: Literal)
        requires known { literal.var < self.old.vars }
        requires fresh { value_on self.old.path literal.var ≡ None }
        ensures path { self.new.path ≡ literal ∷ self.old.path }
        ensures vars { self.new.vars ≡ self.old.vars }
        ensures within { length self.new.path ≤ self.new.vars }
    {
        self.values[literal.var] = Some(literal.positive);
        self.splits.push_reserved(literal);
    }

    /// Goes back to the parent, and gives the literal of the branch.
    pub fn pop(&mut self) -> Option<Literal>
        ensures path { MatchOption result ((self.old.path ≡ []) × (self.new.path ≡ []))
            (λ literal. self.old.path ≡ literal ∷ self.new.path) }
        ensures vars { self.new.vars ≡ self.old.vars }
        ensures known { IfSome result (λ literal. literal.var < self.new.vars) }
        ensures fresh { IfSome result (λ literal. value_on self.new.path literal.var ≡ None) }
    {
        let literal = self.splits.pop()?;
        self.values[literal.var] = None;
        Some(literal)
    }

    /// Goes on to the subtree after the one that the path leads to: the false subtree of the nearest split whose
    /// true subtree has been walked. Where there is none, the path becomes empty.
    pub fn advance(&mut self)
        ensures path { self.new.path ≡ next_path self.old.path }
        ensures vars { self.new.vars ≡ self.old.vars }
    {
        while let Some(last) = self.pop() {
            if last.positive {
                self.push(Literal {
                    var: last.var,
                    positive: false,
                });
                return;
            }
        }
    }

    /// Goes back to the root.
    pub fn clear(&mut self)
        ensures path { self.new.path ≡ [] }
        ensures vars { self.new.vars ≡ self.old.vars }
    {
        while self.pop().is_some() {}
    }
}
