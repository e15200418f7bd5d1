//! A closed tree without the splits that it doesn't need: where a subtree of a split has no leaf whose reason names the
//! split's variable, it stands in the place of the split.
use crate::named::vars_named;
use case_tree::{Clauses, Node, Reason};
use std::alloc::{AllocError, Global};
use std::collections::BTreeSet;

// The variables that the leaves of a subtree name and that are split on above it, and where its nodes end.
#[derive(Drop)]
struct Subtree {
    needs: BTreeSet<usize>,
    end: usize,
}

/// The nodes that are kept.
pub fn pruned(alloc: Global, clauses: &Clauses, nodes: &[Node]) -> Result<Vec<Node>, AllocError> {
    let skips = skips_of(alloc, clauses, nodes)?;
    let mut kept = Vec::new(alloc);
    let mut next = 0;
    for (at, node) in nodes.iter().enumerate() {
        if at < next {
            continue;
        }
        if at < skips.len() && skips[at] > at {
            next = skips[at];
        } else {
            kept.push(*node)?;
        }
    }
    Ok(kept)
}

// For each node from which on nodes are left out the place behind them, and 0 for the others. The nodes are looked at
// from the last on, so that the subtrees of a split are known before it.
fn skips_of(alloc: Global, clauses: &Clauses, nodes: &[Node]) -> Result<Vec<usize>, AllocError> {
    let mut skips = vec![in alloc; 0; nodes.len()]?;
    let mut subtrees = Vec::new(alloc);
    for passed in 0..nodes.len() {
        let at = nodes.len() - 1 - passed;
        let subtree = match nodes[at] {
            Node::Split(var) => joined(alloc, var, at, &mut subtrees, &mut skips)?,
            Node::Leaf(reason) => leaf(alloc, clauses, reason, at + 1)?,
            Node::Unclosed => nothing(alloc, at + 1),
        };
        subtrees.push(subtree)?;
    }
    Ok(skips)
}

fn nothing(alloc: Global, end: usize) -> Subtree {
    Subtree {
        needs: BTreeSet::new(alloc),
        end,
    }
}

fn leaf(
    alloc: Global,
    clauses: &Clauses,
    reason: Reason,
    end: usize,
) -> Result<Subtree, AllocError> {
    let mut subtree = nothing(alloc, end);
    for var in vars_named(alloc, clauses, reason)? {
        subtree.needs.insert(var)?;
    }
    Ok(subtree)
}

// Takes the two subtrees of a split, and gives what stands in its place.
fn joined(
    alloc: Global,
    var: usize,
    at: usize,
    subtrees: &mut Vec<Subtree>,
    skips: &mut [usize],
) -> Result<Subtree, AllocError> {
    let (Some(on_true), Some(on_false)) = (subtrees.pop(), subtrees.pop()) else {
        return Ok(nothing(alloc, at));
    };
    let end = on_false.end;
    if !on_true.needs.contains(&var) {
        set_skip(skips, on_true.end, end);
        return Ok(Subtree {
            needs: on_true.needs,
            end,
        });
    }
    if !on_false.needs.contains(&var) {
        set_skip(skips, at, on_true.end);
        return Ok(on_false);
    }
    let mut needs = union(on_true.needs, on_false.needs)?;
    needs.remove(&var);
    Ok(Subtree { needs, end })
}

fn set_skip(skips: &mut [usize], at: usize, next: usize) {
    if at < skips.len() {
        skips[at] = next;
    }
}

// The smaller set goes into the greater.
fn union(one: BTreeSet<usize>, other: BTreeSet<usize>) -> Result<BTreeSet<usize>, AllocError> {
    if one.len() < other.len() {
        with_all(other, &one)
    } else {
        with_all(one, &other)
    }
}

fn with_all(vars: BTreeSet<usize>, more: &BTreeSet<usize>) -> Result<BTreeSet<usize>, AllocError> {
    let mut vars = vars;
    for var in more.iter() {
        vars.insert(*var)?;
    }
    Ok(vars)
}
