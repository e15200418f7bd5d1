//! The decider.

ghost use Rattle.std.specs.Prelude.{◌≡◌, ◌≤◌, ◌↔◌, None, Err, IfOk, IfSome};
ghost use Rattle.schema_core.specs.Schemas.{table_place};
ghost use Rattle.cfd_consistency.specs.Answer.{HasLaw, IsConsistencyAnswer, IsConsistencyAnswerFor};

use crate::question::TableQuestion;
use case_search::{Found, decide};
use case_tree::Tree;
use cell_values::{Which, attrs_at, tuple_of};
use rule_model::RuleBook;
use schema_core::Texts;
use std::alloc::{AllocError, Global};
use thiserror::Error;

/// A tuple that alone satisfies all dependencies; a tree that refutes the question, and then none does; or the tree so
/// far, where the budget is spent.
#[derive(Drop)]
pub enum Consistency {
    Witness(Texts),
    Never(Tree),
    Spent(Tree),
}

#[derive(Clone, Copy, Debug, PartialEq, Eq, Error)]
pub enum DecideFault {
    #[error("no table has this name")]
    UnknownTable,
    #[error("out of memory")]
    Memory,
}

impl From<AllocError> for DecideFault {
    ghost use Rattle.std.specs.Prelude.{◌≡◌};
    ghost use Rattle.cfd_consistency.specs.declared.decider.DecideFault.TheVariants.{Memory};

    ghost from_gives = { λ error fault. fault ≡ Memory };

    fn from(error: AllocError) -> DecideFault {
        DecideFault::Memory
    }
}

/// Whether the dependencies of the table of that name are consistent, within a budget of leaves.
pub fn consistent(
    alloc: Global,
    rules: &RuleBook,
    table: &str,
    budget: u64,
) -> Result<Consistency, DecideFault>
    requires some { 1 ≤ budget }
    requires within { budget ≤ 1000000 }
    ensures answer { IfOk result (IsConsistencyAnswerFor rules.now table.now budget) }
    ensures law { IfSome (table_place rules.now.schema table.now) (HasLaw rules.now) }
    ensures unknown { (result ≡ Err DecideFault.UnknownTable) ↔ (table_place rules.now.schema table.now ≡ None) }
{
    let Some(number) = rules.schema().table_named(table) else {
        return Err(DecideFault::UnknownTable);
    };
    let asked = TableQuestion::new(alloc, rules, number)?;
    Ok(asked.decide(alloc, budget)?)
}

impl TableQuestion<'_> {
    /// Whether the dependencies of the table are consistent, within a budget of leaves.
    pub fn decide(&self, alloc: Global, budget: u64) -> Result<Consistency, AllocError>
        requires some { 1 ≤ budget }
        requires within { budget ≤ 1000000 }
        ensures { IfOk result (IsConsistencyAnswer self.now.rules budget self.now.table) }
    {
        match decide(alloc, &self.clauses, budget)? {
            Found::Model(truth) => {
                let attrs = attrs_at(self.rules.schema(), self.table);
                let values = self.values.as_slice();
                let tuple = tuple_of(alloc, Which::Only, attrs, values, &truth)?;
                Ok(Consistency::Witness(tuple))
            }
            Found::Refuted(tree) => Ok(Consistency::Never(tree)),
            Found::Spent(tree) => Ok(Consistency::Spent(tree)),
        }
    }
}
