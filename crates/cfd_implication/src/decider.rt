//! The decider.

ghost use Rattle.std.specs.Prelude.{◌≡◌, ◌≤◌, false, length, All, IfOk, slice_index_or};
ghost use Rattle.schema_core.specs.Schemas.{IsValidSchema};
ghost use Rattle.rule_model.specs.Books.{book_deps};
ghost use Rattle.rule_model.specs.Rules.{IsValidDep};
ghost use Rattle.cell_values.specs.Layout.{count_of, var_total};
ghost use Rattle.cfd_implication.specs.Answers.{HasLaw, IsImplicationAnswer};
ghost use Rattle.cfd_implication.specs.Question.{asked_values, stands_for};

use crate::answer::Implication;
use crate::question::DepQuestion;
use case_search::{Found, decide};
use cell_values::{Which, attrs_at, tuple_of};
use rule_model::{Dep, RuleBook};
use schema_core::{List, Schema, Texts};
use std::alloc::{AllocError, Global};

impl DepQuestion<'_> {
    /// Whether the dependencies imply the asked one, of one tableau row, within a budget of leaves.
    pub fn decide(&self, alloc: Global, budget: u64) -> Result<Implication, AllocError>
        requires row { length self.now.dep.rule.rows ≡ 1 }
        requires some { 1 ≤ budget }
        requires within { budget ≤ 1000000 }
        ensures { IfOk result (IsImplicationAnswer self.now.schema self.now.deps self.now.dep budget) }
    {
        match decide(alloc, &self.clauses, budget)? {
            Found::Model(truth) => {
                let one = self.tuple(alloc, Which::First, &truth)?;
                let other = self.tuple(alloc, Which::Second, &truth)?;
                Ok(Implication::Counter(one, other))
            }
            Found::Refuted(tree) => Ok(Implication::Implied(tree)),
            Found::Spent(tree) => Ok(Implication::Spent(tree)),
        }
    }

    /// One of the tuples that truth values of the variables stand for.
    fn tuple(&self, alloc: Global, which: Which, truth: &[bool]) -> Result<Texts, AllocError>
        requires { var_total (count_of which) (asked_values self.now.schema self.now.deps self.now.dep) ≤ length truth.now }
        ensures { IfOk result (λ tuple. tuple ≡ stands_for which self.now.schema self.now.deps self.now.dep (λ var. slice_index_or truth.now var false)) }
    {
        let attrs = attrs_at(self.schema, self.dep.table);
        tuple_of(alloc, which, attrs, self.values.as_slice(), truth)
    }
}

/// Whether dependencies imply one more, of one tableau row, within a budget of leaves. Those of other tables than its own
/// are passed over.
pub fn implies_from(
    alloc: Global,
    schema: &Schema,
    deps: &List<Dep>,
    dep: &Dep,
    budget: u64,
) -> Result<Implication, AllocError>
    requires schema { IsValidSchema schema.now }
    requires deps { All (IsValidDep schema.now) deps.now }
    requires dep { IsValidDep schema.now dep.now }
    requires row { length dep.now.rule.rows ≡ 1 }
    requires some { 1 ≤ budget }
    requires within { budget ≤ 1000000 }
    ensures answer { IfOk result (IsImplicationAnswer schema.now deps.now dep.now budget) }
    ensures law { HasLaw schema.now deps.now dep.now }
{
    let asked = DepQuestion::new(alloc, schema, deps.as_slice(), dep)?;
    asked.decide(alloc, budget)
}

/// The same over the dependencies of a book.
pub fn implies(
    alloc: Global,
    rules: &RuleBook,
    dep: &Dep,
    budget: u64,
) -> Result<Implication, AllocError>
    requires dep { IsValidDep rules.now.schema dep.now }
    requires row { length dep.now.rule.rows ≡ 1 }
    requires some { 1 ≤ budget }
    requires within { budget ≤ 1000000 }
    ensures answer { IfOk result (IsImplicationAnswer rules.now.schema (book_deps rules.now) dep.now budget) }
    ensures law { HasLaw rules.now.schema (book_deps rules.now) dep.now }
{
    implies_from(alloc, rules.schema(), rules.deps(), dep, budget)
}
