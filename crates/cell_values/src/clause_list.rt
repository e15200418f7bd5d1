//! Clauses that grow at their end.

ghost use Rattle.std.specs.Prelude.{◌≡◌, ◌++◌, ◌∷◌, [], OnOk};
ghost use Rattle.case_tree.specs.CaseTree.{literals_of};

use case_tree::Literal;
use std::alloc::{AllocError, Global};
use std::marker::Model;

/// Clauses see it as the list of its clauses, each a list of literals.
#[derive(Drop)]
pub struct ClauseList {
    clauses: Vec<Vec<Literal>>,
}

impl Model for ClauseList {
    ghost use Rattle.std.specs.Prelude.{List};
    ghost use Rattle.case_tree.specs.CaseTree.{literals_of};
    ghost use Rattle.case_tree.specs.declared.clauses.Literal.{Literal};

    ghost Value = { List (List Literal) };

    ghost view = { λ l. literals_of l.clauses.items };
}

impl ClauseList {
    pub fn new(alloc: Global) -> ClauseList
        ensures { result ≡ [] }
    {
        ClauseList {
            clauses: Vec::new(alloc),
        }
    }

    /// Where memory is short, nothing is promised of the list.
    pub fn push(&mut self, clause: Vec<Literal>) -> Result<(), AllocError>
        ensures { OnOk result (self.new ≡ self.old ++ clause.items ∷ []) }
    {
        self.clauses.push(clause)?;
        Ok(())
    }

    pub fn into_vec(self) -> Vec<Vec<Literal>>
        ensures { literals_of result.items ≡ self }
    {
        self.clauses
    }
}
