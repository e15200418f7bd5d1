//! The checker: one walk over the nodes of a tree, with the path of the present node in hand.
ghost use Rattle.std.specs.Prelude.{◌≡◌, ◌↔◌, ℕ, [], IsTrue, IfOk};
ghost use Rattle.case_tree.specs.CaseTree.{HasNoneAllowed, HoldsAbove, IsFirstWrong, IsOneTree, IsPartial, IsRight, Refutes, leaf_count, var_count};
ghost use Rattle.case_tree.specs.Verdict.{IsVerdict};

use crate::clauses::{Clauses, Literal};
use crate::reasons::holds;
use crate::trail::Trail;
use crate::tree::{Node, Reason, Tree};
use std::alloc::{AllocError, Global};
use std::marker::Model;

/// What a tree shows: every node is right and none is unclosed, or one is unclosed, or the place of the first
/// node that isn't right. `leaves` counts the leaf nodes.
#[derive(Clone, Copy, PartialEq, Eq)]
pub enum Checked {
    Closed { leaves: u64 },
    Partial { leaves: u64 },
    Wrong { node: usize },
}

/// Room for the path of a node among `vars` variables, made once and used for any number of trees.
#[derive(Drop)]
pub struct Path {
    trail: Trail,
}

// Clauses see the number of variables that it was made for.
impl Model for Path {
    ghost use Rattle.std.specs.Prelude.{◌≡◌, ℕ, []};

    ghost Value = { ℕ };

    ghost view = { λ p. p.trail.vars };

    ghost invariant = { λ p. p.trail.path ≡ [] };
}

impl Path {
    pub fn new(alloc: Global, vars: usize) -> Result<Path, AllocError>
        ensures { IfOk result (λ path. path ≡ vars) }
    {
        Ok(Path {
            trail: Trail::new(alloc, vars)?,
        })
    }
}

/// Checks a tree in one pass over its nodes, looking at each node at what its reason names. It takes no memory.
pub fn check(clauses: &Clauses, tree: &Tree, path: &mut Path) -> Checked
    requires made_for_vars { path.old ≡ var_count clauses.now.cells }
    ensures closed { (leaves : ℕ) → (result ≡ Checked.Closed leaves)
        ↔ (Refutes clauses.now tree.now × (leaf_count tree.now ≡ leaves)) }
    ensures partial { (leaves : ℕ) → (result ≡ Checked.Partial leaves)
        ↔ (IsPartial clauses.now tree.now × (leaf_count tree.now ≡ leaves)) }
    ensures wrong { (node : ℕ) → (result ≡ Checked.Wrong node)
        ↔ IsFirstWrong clauses.now tree.now node }

    // A closed tree is a proof that no assignment is allowed.
    ensures sound { (leaves : ℕ) → result ≡ Checked.Closed leaves → HasNoneAllowed clauses.now }
    ensures path { path.new ≡ path.old }
{
    walk(clauses, tree.nodes(), &mut path.trail)
}

fn walk(clauses: &Clauses, nodes: &[Node], trail: &mut Trail) -> Checked
    requires vars { trail.old.vars ≡ var_count clauses.now.cells }
    requires at_root { trail.old.path ≡ [] }
    requires one_tree { IsOneTree nodes.now }
    ensures verdict { IsVerdict clauses.now nodes.now result }
    ensures vars { trail.new.vars ≡ trail.old.vars }
    ensures at_root { trail.new.path ≡ [] }
{
    let mut leaves = 0;
    let mut is_open = false;
    for (at, node) in nodes.iter().enumerate() {
        if !is_right(clauses, trail, *node) {
            trail.clear();
            return Checked::Wrong { node: at };
        }
        match *node {
            Node::Split(var) => trail.push(Literal {
                var,
                positive: true,
            }),
            Node::Leaf(_) => {
                leaves += 1;
                trail.advance();
            }
            Node::Unclosed => {
                is_open = true;
                trail.advance();
            }
        }
    }
    if is_open {
        Checked::Partial { leaves }
    } else {
        Checked::Closed { leaves }
    }
}

fn is_right(clauses: &Clauses, trail: &mut Trail, node: Node) -> bool
    requires { trail.old.vars ≡ var_count clauses.now.cells }
    ensures right { IsTrue result ↔ IsRight clauses.now trail.old.path node }
    ensures trail { trail.new ≡ trail.old }
{
    match node {
        Node::Split(var) => var < clauses.vars() && trail.value(var).is_none(),
        Node::Leaf(reason) => holds(clauses, trail, reason) && !held_above(clauses, trail, reason),
        Node::Unclosed => true,
    }
}

// Whether the reason holds at the parent already. For the look at it the nearest split is taken off the path.
fn held_above(clauses: &Clauses, trail: &mut Trail, reason: Reason) -> bool
    ensures held { IsTrue result ↔ HoldsAbove clauses.now trail.old.path reason }
    ensures trail { trail.new ≡ trail.old }
{
    match trail.pop() {
        Some(last) => {
            let held = holds(clauses, trail, reason);
            trail.push(last);
            held
        }
        None => false,
    }
}
