//! What a decider of implication answers.

use case_tree::Tree;
use schema_core::Texts;

/// Two tuples that satisfy the rules and not the dependency; or a tree that refutes the question, and every finite list of
/// tuples that satisfies the rules satisfies the dependency; or the tree so far, where the budget is spent.
#[derive(Drop)]
pub enum Implication {
    Counter(Texts, Texts),
    Implied(Tree),
    Spent(Tree),
}
