//! A list of clauses for each literal.
ghost use Rattle.std.specs.Prelude.{◌≡◌, ◌≢◌, ◌<◌, ◌++◌, [], ◌∷◌, IfOk, OnOk, MatchOption};
ghost use Rattle.case_tree.specs.declared.clauses.Literal.{Literal};
ghost use Rattle.case_search.specs.Places.{list_of, opposite_of, vars_of};

use crate::lists::Lists;
use case_tree::Literal;
use std::alloc::{AllocError, Global};
use std::marker::Model;

/// The places of clauses in a list for each variable and sign.
#[derive(Drop)]
pub struct Places {
    positive: Lists,
    negative: Lists,
}

// Clauses see the list of each literal, by its variable and sign.
impl Model for Places {
    ghost use Rattle.std.specs.Prelude.{◌≡◌, length};
    ghost use Rattle.case_search.specs.Places.{ByLiteral};

    ghost Value = { ByLiteral };

    ghost view = { λ p. record { positive = p.positive; negative = p.negative } };

    ghost invariant = { λ p. length p.positive ≡ length p.negative };
}

impl Places {
    pub fn new(alloc: Global, vars: usize) -> Result<Places, AllocError>
        ensures { IfOk result (λ places. vars_of places ≡ vars) }
    {
        Ok(Places {
            positive: Lists::new(alloc, vars)?,
            negative: Lists::new(alloc, vars)?,
        })
    }

    pub fn vars(&self) -> usize
        ensures { result ≡ vars_of self.now }
    {
        self.positive.vars()
    }

    pub fn of(&self, literal: Literal) -> &[usize]
        ensures { result.now ≡ list_of self.now literal }
    {
        if literal.positive {
            self.positive.of(literal.var)
        } else {
            self.negative.of(literal.var)
        }
    }

    pub fn add(&mut self, literal: Literal, at: usize) -> Result<(), AllocError>
        requires { literal.var < vars_of self.old }
        ensures vars { vars_of self.new ≡ vars_of self.old }
        ensures added { OnOk result (list_of self.new literal ≡ list_of self.old literal ++ at ∷ []) }
        ensures others { OnOk result
            ((other : Literal) → other ≢ literal → list_of self.new other ≡ list_of self.old other) }
    {
        if literal.positive {
            self.positive.add(literal.var, at)
        } else {
            self.negative.add(literal.var, at)
        }
    }

    /// Takes the last clause out of a list.
    pub fn take(&mut self, literal: Literal) -> Option<usize>
        ensures vars { vars_of self.new ≡ vars_of self.old }
        ensures taken { MatchOption result
            ((list_of self.old literal ≡ []) × (list_of self.new literal ≡ []))
            (λ at. list_of self.old literal ≡ list_of self.new literal ++ at ∷ []) }
        ensures others { (other : Literal) → other ≢ literal → list_of self.new other ≡ list_of self.old other }
    {
        if literal.positive {
            self.positive.take(literal.var)
        } else {
            self.negative.take(literal.var)
        }
    }

    /// Takes a clause out of a list, and puts the last of the list in its place.
    pub fn remove(&mut self, literal: Literal, index: usize)
        ensures { vars_of self.new ≡ vars_of self.old }
    {
        if literal.positive {
            self.positive.remove(literal.var, index);
        } else {
            self.negative.remove(literal.var, index);
        }
    }
}

/// The literal of the same variable with the other sign.
pub fn opposite(literal: Literal) -> Literal
    ensures { result ≡ opposite_of literal }
{
    Literal {
        var: literal.var,
        positive: !literal.positive,
    }
}
