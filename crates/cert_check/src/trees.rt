//! Trees of certificates.

ghost use Rattle.std.specs.Prelude.{◌≡◌, ◌<◌, length, map, slice_index_or, Some, None, All, IfOk};
ghost use Rattle.std.specs.List.{position_or_len};
ghost use Rattle.case_tree.specs.CaseTree.{ClauseSet, IsOneTree};
ghost use Rattle.case_tree.specs.Verdict as found;
ghost use Rattle.case_tree.specs.declared.tree.Node.{Node as AnyNode};
ghost use Rattle.cert_text.specs.Written.{shapes};
ghost use Rattle.cert_check.specs.Names.{Names};
ghost use Rattle.cert_check.specs.Nodes.{reason_of, node_of, is_open};
ghost use Rattle.cert_check.specs.Shown.{nodes_of};
ghost use Rattle.cert_check.specs.Verdict.{TreePasses};

use crate::names::Naming;
use crate::verdict::CertVerdict;
use case_tree::{Checked, Clauses, Node, Path, Reason, Tree, check};
use cert_text::{NodeName, NodePlace, ReasonName, TreeLines, TreeNodes};
use std::alloc::{AllocError, Global};

fn reason_of(names: &Naming<'_>, reason: &ReasonName) -> Reason
    ensures { result ≡ reason_of names.now reason.now }
{
    match reason {
        ReasonName::Clause(number) => Reason::Clause(number.saturating_sub(1) as usize),
        ReasonName::Two(one, other) => Reason::Two(names.var_number(one), names.var_number(other)),
        ReasonName::NoneOf(cell) => Reason::NoneOf(names.cell_number(cell)),
    }
}

fn node_of(names: &Naming<'_>, node: &NodeName) -> Node
    ensures { result ≡ node_of names.now node.now }
{
    match node {
        NodeName::Split(var) => Node::Split(names.var_number(var)),
        NodeName::Leaf(reason) => Node::Leaf(reason_of(names, reason)),
        NodeName::Open => Node::Unclosed,
    }
}

/// The forms with numbers in place of names.
fn forms_of(alloc: Global, names: &Naming<'_>, forms: &[NodeName]) -> Result<Vec<Node>, AllocError>
    ensures { IfOk result (λ nodes. nodes.items ≡ map (λ form. node_of names.now form) forms.now) }
{
    let mut nodes = Vec::new(alloc);
    for form in forms {
        nodes.push(node_of(names, form))?;
    }
    Ok(nodes)
}

/// The form of each node.
fn forms_at(alloc: Global, forms: &[Node], places: &[NodePlace]) -> Result<Vec<Node>, AllocError>
    requires { All (λ place. place.form < length forms.now) places.now }
    ensures { (d : AnyNode) → IfOk result (λ nodes. nodes.items ≡ map (λ place. slice_index_or forms.now place.form d) places.now) }
{
    let mut nodes = Vec::new(alloc);
    for place in places {
        nodes.push(forms[place.form])?;
    }
    Ok(nodes)
}

/// The nodes with numbers in place of names, which are looked up once for each form.
fn nodes_of(alloc: Global, names: &Naming<'_>, lines: &TreeNodes) -> Result<Vec<Node>, AllocError>
    ensures { IfOk result (λ nodes. nodes.items ≡ nodes_of names.now lines.now) }
{
    let (forms, places) = lines.parts();
    let forms = forms_of(alloc, names, forms)?;
    let nodes = forms_at(alloc, forms.as_slice(), places)?;
    Ok(nodes)
}

/// The place of the first open node, or the number of nodes.
fn open_place(lines: &TreeNodes) -> usize
    ensures { result ≡ position_or_len (λ line. is_open line.node) lines.now }
{
    for place in 0..lines.len() {
        if let NodeName::Open = lines.node_at(place) {
            return place;
        }
    }
    lines.len()
}

/// What is found of a tree that is to leave no case open.
fn closed_verdict(line: usize, lines: &TreeNodes, checked: Checked) -> CertVerdict
    requires { (set : ClauseSet) × (names : Names) × found.IsVerdict set (nodes_of names lines.now) checked }
    ensures { (set : ClauseSet) (names : Names) → found.IsVerdict set (nodes_of names lines.now) checked
        → TreePasses (record { set = set; names = names }) (record { line = line; budget = None; nodes = lines.now }) result }
{
    let open = open_place(lines);
    match checked {
        Checked::Closed { .. } => CertVerdict::Holds,
        Checked::Partial { .. } => CertVerdict::Fails(lines.line_at(open)),
        Checked::Wrong { node } => {
            if node <= open {
                CertVerdict::Fails(lines.line_at(node))
            } else {
                CertVerdict::Fails(lines.line_at(open))
            }
        }
    }
}

/// What is found of a tree of which a budget is said to be spent.
fn spent_verdict(line: usize, budget: u64, lines: &TreeNodes, checked: Checked) -> CertVerdict
    requires { (set : ClauseSet) × (names : Names) × found.IsVerdict set (nodes_of names lines.now) checked }
    ensures { (set : ClauseSet) (names : Names) → found.IsVerdict set (nodes_of names lines.now) checked
        → TreePasses (record { set = set; names = names }) (record { line = line; budget = Some budget; nodes = lines.now }) result }
{
    match checked {
        Checked::Closed { .. } => CertVerdict::Fails(line),
        Checked::Partial { leaves } => {
            if leaves == budget {
                CertVerdict::Holds
            } else {
                CertVerdict::Fails(line)
            }
        }
        Checked::Wrong { node } => CertVerdict::Fails(lines.line_at(node)),
    }
}

/// The tree that the nodes spell.
fn tree_of(alloc: Global, names: &Naming<'_>, lines: &TreeNodes) -> Result<Tree, AllocError>
    requires { IsOneTree (shapes lines.now) }
    ensures { IfOk result (λ tree. tree ≡ nodes_of names.now lines.now) }
{
    let nodes = nodes_of(alloc, names, lines)?;
    match Tree::new(nodes) {
        Ok(tree) => Ok(tree),
        Err(_) => unreachable!(),
    }
}

/// What the checker of trees answers.
fn checked(alloc: Global, clauses: &Clauses, tree: &Tree) -> Result<Checked, AllocError>
    ensures { IfOk result (found.IsVerdict clauses.now tree.now) }
{
    let mut path = Path::new(alloc, clauses.vars())?;
    Ok(check(clauses, tree, &mut path))
}

/// The first line of a tree that doesn't hold, where one doesn't.
pub fn check_tree(
    alloc: Global,
    clauses: &Clauses,
    names: &Naming<'_>,
    lines: &TreeLines,
) -> Result<CertVerdict, AllocError>
    requires { IsOneTree (shapes lines.now.nodes) }
    ensures { IfOk result (TreePasses (record { set = clauses.now; names = names.now }) lines.now) }
{
    let tree = tree_of(alloc, names, &lines.nodes)?;
    let checked = checked(alloc, clauses, &tree)?;
    match lines.budget {
        None => Ok(closed_verdict(lines.line, &lines.nodes, checked)),
        Some(budget) => Ok(spent_verdict(lines.line, budget, &lines.nodes, checked)),
    }
}
