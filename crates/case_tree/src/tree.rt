//! Trees of cases, as lists of nodes in preorder.
ghost use Rattle.std.specs.Prelude.{◌≡◌, ◌↔◌, IsTrue, IsOk, IfOk, IfErr};
ghost use Rattle.case_tree.specs.CaseTree.{IsOneTree};

use std::marker::Model;

/// Why no assignment goes on from a leaf: a clause that is false, two true variables of one cell, or a demanded
/// cell none of whose variables is true. Clauses and cells go by their place, variables by their number.
#[derive(Clone, Copy, PartialEq, Eq)]
pub enum Reason {
    Clause(usize),
    Two(usize, usize),
    NoneOf(usize),
}

/// A split on a variable, whose two subtrees follow, the true one first; a leaf; or a subtree that isn't there.
#[derive(Clone, Copy, PartialEq, Eq)]
pub enum Node {
    Split(usize),
    Leaf(Reason),
    Unclosed,
}

/// The nodes of one tree in preorder.
#[derive(Drop)]
pub struct Tree {
    nodes: Vec<Node>,
}

impl Model for Tree {
    ghost use Rattle.std.specs.Prelude.{List};
    ghost use Rattle.case_tree.specs.declared.tree.Node.{Node};
    ghost use Rattle.case_tree.specs.CaseTree.{IsOneTree};

    ghost Value = { List Node };

    ghost view = { λ t. t.nodes.items };

    ghost invariant = { λ t. IsOneTree t.nodes.items };
}

impl Tree {
    pub fn new(nodes: Vec<Node>) -> Result<Tree, Vec<Node>>
        ensures one_tree { IsOk result ↔ IsOneTree nodes.items }
        ensures accepted { IfOk result (λ tree. tree ≡ nodes.items) }
        ensures given_back { IfErr result (λ back. back ≡ nodes) }
    {
        if is_one_tree(&nodes) {
            Ok(Tree { nodes })
        } else {
            Err(nodes)
        }
    }

    pub fn nodes(&self) -> &[Node]
        ensures nodes { result.now ≡ self.now }
        ensures one_tree { IsOneTree self.now }
    {
        &self.nodes
    }
}

// A split asks for one tree more than it ends, and every other node ends one.
fn is_one_tree(nodes: &[Node]) -> bool
    ensures { IsTrue result ↔ IsOneTree nodes.now }
{
    let mut pending = 1usize;
    for node in nodes {
        if pending == 0 {
            return false;
        }
        match node {
            Node::Split(_) => pending += 1,
            Node::Leaf(_) | Node::Unclosed => pending -= 1,
        }
    }
    pending == 0
}
