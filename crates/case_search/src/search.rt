//! The search: a walk down and up the tree of cases, whose nodes are written in preorder as it comes to them.
ghost use Rattle.std.specs.Prelude.{◌≡◌, ◌<◌, ◌≤◌, ◌++◌, [], Some, true, IfOk, OnOk, replicate};
ghost use Rattle.std.specs.List.{All};
ghost use Rattle.case_tree.specs.CaseTree.{IsOneTree, Refutes, leaf_count, var_count};
ghost use Rattle.case_tree.specs.Walk.{next_path};
ghost use Rattle.case_search.specs.Answer.{HasOneFree, IsDecision};
ghost use Rattle.case_search.specs.Guards.{IsGuarded};
ghost use Rattle.case_search.specs.Places.{list_of, vars_of};

use crate::assignments::values;
use crate::guards::guard_all;
use crate::hints::{Hints, Order};
use crate::learner::find_model;
use crate::places::Places;
use crate::prune::pruned;
use crate::step::{Step, next_step};
use case_tree::{Checked, Clauses, Literal, Node, Path, Trail, Tree, check};
use std::alloc::{AllocError, Global};

/// A model gives each variable a value under which all clauses and cells hold. A refuted clause set comes with the tree
/// that refutes it, and where the budget is spent with the tree so far.
#[derive(Drop)]
pub enum Found {
    Model(Vec<bool>),
    Refuted(Tree),
    Spent(Tree),
}

// What is settled within so many leaves is settled by the search in the order of places.
const FIRST_LEAVES: u64 = 1000;

// Of the leaves beyond these, how many there are for each conflict of the search by learning: one takes longer than a leaf.
const LEAVES_A_CONFLICT: u64 = 10;

/// Searches in the order of places for the first 1,000 leaves. Where the question is open then and the budget is
/// greater, it looks for a model by learning, with at most 1,000 conflicts and one more for each ten leaves beyond, and
/// then searches again from the root, the variables of the latest conflict first, and prunes the tree that it comes to.
pub fn decide(alloc: Global, clauses: &Clauses, budget: u64) -> Result<Found, AllocError>
    requires one_free { All (HasOneFree clauses.now) clauses.now.clauses }
    requires some { 1 ≤ budget }
    requires within { budget ≤ 1000000 }
    ensures { IfOk result (IsDecision clauses.now budget) }
{
    if budget <= FIRST_LEAVES {
        return walk(alloc, clauses, Order::ByPlace, budget);
    }
    match walk(alloc, clauses, Order::ByPlace, FIRST_LEAVES)? {
        Found::Model(values) => Ok(Found::Model(values)),
        Found::Refuted(tree) => Ok(Found::Refuted(tree)),
        Found::Spent(_) => go_on(alloc, clauses, budget),
    }
}

// Where the first leaves left the question open.
fn go_on(alloc: Global, clauses: &Clauses, budget: u64) -> Result<Found, AllocError>
    requires one_free { All (HasOneFree clauses.now) clauses.now.clauses }
    requires some { 1 ≤ budget }
    requires within { budget ≤ 1000000 }
    ensures { IfOk result (IsDecision clauses.now budget) }
{
    if let Some(values) = find_model(alloc, clauses, conflicts_for(budget))? {
        return Ok(Found::Model(values));
    }
    match walk(alloc, clauses, Order::ByConflicts, budget)? {
        Found::Model(values) => Ok(Found::Model(values)),
        Found::Refuted(tree) => Ok(Found::Refuted(shorter(alloc, clauses, tree, budget)?)),
        Found::Spent(tree) => Ok(Found::Spent(tree)),
    }
}

// How many conflicts the search by learning may come to.
fn conflicts_for(budget: u64) -> u64 {
    FIRST_LEAVES.saturating_add(budget.saturating_sub(FIRST_LEAVES) / LEAVES_A_CONFLICT)
}

// The tree without the splits that it doesn't need, where that refutes the clauses too.
fn shorter(alloc: Global, clauses: &Clauses, tree: Tree, budget: u64) -> Result<Tree, AllocError>
    requires refutes { Refutes clauses.now tree }
    requires within { leaf_count tree ≤ budget }
    ensures refutes { IfOk result (Refutes clauses.now) }
    ensures within { IfOk result (λ shorter. leaf_count shorter ≤ budget) }
{
    let nodes = pruned(alloc, clauses, tree.nodes())?;
    let Ok(pruned) = Tree::new(nodes) else {
        return Ok(tree);
    };
    let mut path = Path::new(alloc, clauses.vars())?;
    match check(clauses, &pruned, &mut path) {
        Checked::Closed { leaves } if leaves <= budget => Ok(pruned),
        _ => Ok(tree),
    }
}

// The search from the root on. The budget bounds the leaves.
fn walk(alloc: Global, clauses: &Clauses, order: Order, budget: u64) -> Result<Found, AllocError>
    requires one_free { All (HasOneFree clauses.now) clauses.now.clauses }
    requires some { 1 ≤ budget }
    requires within { budget ≤ 1000000 }
    ensures { IfOk result (IsDecision clauses.now budget) }
{
    let mut guards = guard_all(alloc, clauses)?;
    let mut trail = Trail::new(alloc, clauses.vars())?;
    let mut hints = Hints::new(alloc, clauses, order)?;
    walk_on(alloc, clauses, &mut guards, &mut hints, &mut trail, budget)
}

// Splits first where setting a variable makes a reason hold at once, then on a variable of a demanded cell with no true
// variable; the true subtree is searched first.
fn walk_on(
    alloc: Global,
    clauses: &Clauses,
    guards: &mut Places,
    hints: &mut Hints,
    trail: &mut Trail,
    budget: u64,
) -> Result<Found, AllocError>
    requires one_free { All (HasOneFree clauses.now) clauses.now.clauses }
    requires some { 1 ≤ budget }
    requires within { budget ≤ 1000000 }
    requires vars { trail.old.vars ≡ var_count clauses.now.cells }
    requires at_root { trail.old.path ≡ [] }
    requires counted { vars_of guards.old ≡ var_count clauses.now.cells }
    requires guarded { IsGuarded clauses.now (list_of guards.old) [] }
    ensures { IfOk result (IsDecision clauses.now budget) }
{
    let vars = clauses.vars();
    let mut nodes = Vec::new(alloc);
    // The subtrees that aren't written yet, the present one among them.
    let mut pending = 1usize;
    let mut leaves = 0u64;
    'walk: loop {
        match next_step(clauses, guards, hints, trail)? {
            Step::Model => return Ok(Found::Model(values(alloc, trail, vars)?)),
            Step::Split(var) => {
                nodes.push(Node::Split(var))?;
                pending += 1;
                trail.push(Literal {
                    var,
                    positive: true,
                });
            }
            Step::Leaf(reason) => {
                nodes.push(Node::Leaf(reason))?;
                pending -= 1;
                leaves += 1;
                if pending == 0 {
                    return Ok(Found::Refuted(tree_of(nodes)));
                }
                if leaves == budget {
                    return Ok(Found::Spent(tree_of(with_open(nodes, pending)?)));
                }
                advance(clauses, hints, trail)?;
            }
        }
    }
}

// Goes on to the subtree after the one that the path leads to, as `Trail::advance` does, and takes the hints back up to
// the parent. They were not brought to the leaf.
fn advance(clauses: &Clauses, hints: &mut Hints, trail: &mut Trail) -> Result<(), AllocError>
    ensures path { OnOk result (trail.new.path ≡ next_path trail.old.path) }
    ensures vars { trail.new.vars ≡ trail.old.vars }
{
    while let Some(last) = trail.pop() {
        if last.positive {
            trail.push(Literal {
                var: last.var,
                positive: false,
            });
            return Ok(());
        }
        hints.leave(clauses)?;
    }
    Ok(())
}

// The nodes, and one unclosed node for each subtree that was not begun.
fn with_open(nodes: Vec<Node>, pending: usize) -> Result<Vec<Node>, AllocError>
    ensures { IfOk result (λ all. all.items ≡ nodes.items ++ replicate pending Node.Unclosed) }
{
    let mut nodes = nodes;
    for _ in 0..pending {
        nodes.push(Node::Unclosed)?;
    }
    Ok(nodes)
}

fn tree_of(nodes: Vec<Node>) -> Tree
    requires { IsOneTree nodes.items }
    ensures { result ≡ nodes.items }
{
    match Tree::new(nodes) {
        Ok(tree) => tree,
        Err(_) => unreachable!(),
    }
}
