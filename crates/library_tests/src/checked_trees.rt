//! A worked tree, and what is told where its last node is another one.

ghost use Rattle.std.specs.Prelude.{◌≡◌};
ghost use Rattle.case_tree.specs.CaseTree.{var_count};

use case_tree::*;
use std::alloc::{AllocError, Global};
use std::process::Abort;

// One table t with an attribute f in 'x', 'y' and an open attribute a with the constants '1', '2'. The variables are
// f='x', f='y', a='1', a='2', and each value of f wants both values of a.
const CELLS: [VarCell; 2] = [
    VarCell {
        first: 0,
        count: 2,
        demanded: true,
    },
    VarCell {
        first: 2,
        count: 2,
        demanded: false,
    },
];

/// The variable that is false or the one that is true.
const CLAUSES: [(usize, usize); 4] = [(0, 2), (1, 2), (0, 3), (1, 3)];

/// The nodes of the tree before its last one.
const FRONT: [Node; 14] = [
    Node::Split(0),
    Node::Split(1),
    Node::Leaf(Reason::Two(0, 1)),
    Node::Split(2),
    Node::Split(3),
    Node::Leaf(Reason::Two(2, 3)),
    Node::Leaf(Reason::Clause(2)),
    Node::Leaf(Reason::Clause(0)),
    Node::Split(1),
    Node::Split(2),
    Node::Split(3),
    Node::Leaf(Reason::Two(2, 3)),
    Node::Leaf(Reason::Clause(3)),
    Node::Leaf(Reason::Clause(1)),
];

fn clause(alloc: Global, no: usize, yes: usize) -> Result<Vec<Literal>, AllocError> {
    let no = Literal {
        var: no,
        positive: false,
    };
    let yes = Literal {
        var: yes,
        positive: true,
    };
    Vec::from_slice(alloc, &[no, yes])
}

fn clauses(alloc: Global) -> Result<Vec<Vec<Literal>>, AllocError> {
    let mut clauses = Vec::new(alloc);
    for (no, yes) in CLAUSES {
        clauses.push(clause(alloc, no, yes)?)?;
    }
    Ok(clauses)
}

fn example(rt: &impl Abort, alloc: Global) -> Result<Clauses, AllocError> {
    let cells = Vec::from_slice(alloc, &CELLS)?;
    let clauses = clauses(alloc)?;
    assert!(rt; Clauses::are_well_formed(&cells, &clauses));
    Ok(Clauses::new(cells, clauses))
}

/// What is told, where it is told again: the path is as new after a tree.
fn told_twice(clauses: &Clauses, tree: &Tree, path: &mut Path) -> Option<Checked>
    requires { path.old ≡ var_count clauses.now.cells }
{
    let answer = check(clauses, tree, path);
    if check(clauses, tree, path) == answer {
        Some(answer)
    } else {
        None
    }
}

/// What is told of the tree with this last node.
fn checked(alloc: Global, clauses: &Clauses, last: Node) -> Result<Option<Checked>, AllocError> {
    let mut nodes = Vec::from_slice(alloc, &FRONT)?;
    nodes.push(last)?;
    let mut path = Path::new(alloc, clauses.vars())?;
    match Tree::new(nodes) {
        Ok(tree) => Ok(told_twice(clauses, &tree, &mut path)),
        Err(_) => Ok(None),
    }
}

fn run(rt: &impl Abort, alloc: Global, clauses: &Clauses) -> Result<(), AllocError> {
    for (last, want) in [
        (Node::Leaf(Reason::NoneOf(0)), Checked::Closed { leaves: 8 }),
        (Node::Unclosed, Checked::Partial { leaves: 7 }),
        (Node::Leaf(Reason::Clause(0)), Checked::Wrong { node: 14 }),
    ] {
        let told = checked(alloc, clauses, last)?;
        assert!(rt; told == Some(want));
    }
    Ok(())
}

#[test]
fn the_example_is_refuted(rt: HostRuntime) -> Result<(), AllocError> {
    let clauses = example(&rt, rt.alloc())?;
    assert_eq!(rt; clauses.clause_count(), 4);
    assert_eq!(rt; clauses.cells().len(), 2);
    run(&rt, rt.alloc(), &clauses)
}
