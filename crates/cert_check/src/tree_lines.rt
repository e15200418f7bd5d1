//! The text of a tree: its nodes by names, one on a line.

ghost use Rattle.std.specs.Prelude.{◌≡◌, ◌+◌, ◌<◌, ◌++◌, [], All, map, IfOk, IfSome, IsSome, OnOk};
ghost use Rattle.std.specs.Option.{option_map_or};
ghost use Rattle.schema_core.specs.Schemas.{IsValidSchema};
ghost use Rattle.line_grammar.specs.Spelling.{file_text, line_text};
ghost use Rattle.rule_model.specs.Rules.{IsValidDep};
ghost use Rattle.cert_text.specs.CertText.{reason_parts};
ghost use Rattle.cert_text.specs.Written.{IsReasonOf};
ghost use Rattle.cert_text.specs.declared.names.ReasonName.TheVariants.{Clause};
ghost use Rattle.cert_check.specs.Made.{HaveNames, IsFitNode, IsRightTree, IsTreeText, named_node, named_parts, named_reason};
ghost use Rattle.cert_check.specs.Shown.{asks_from};

use crate::names::Naming;
use case_tree::{Node, Reason, Tree};
use cell_values::attrs_at;
use cert_text::answers::Kind;
use cfd_implication::asked_values;
use rule_model::Dep;
use schema_core::{List, Schema, push_number};
use std::alloc::{AllocError, Global};

/// The greatest number that a clause can have in a certificate.
const MOST_CLAUSES: usize = 999_999_999_999;

/// Appends a clause by its number. One greater than a certificate can have is answered like want of memory.
fn push_clause(out: &mut Vec<u8>, at: usize) -> Result<(), AllocError>
    ensures text { OnOk result (out.new.items ≡ out.old.items ++ line_text (reason_parts (Clause (at + 1)))) }
    ensures few { OnOk result (at < MOST_CLAUSES) }
{
    if at >= MOST_CLAUSES {
        return Err(AllocError);
    }
    out.extend_from_slice(b"clause ")?;
    push_number(out, at as u64 + 1)
}

fn push_two(
    out: &mut Vec<u8>,
    names: &Naming<'_>,
    one: usize,
    other: usize,
) -> Result<(), AllocError>
    requires { IsSome (named_reason names.now (Reason.Two one other)) }
    ensures text { OnOk result (out.new.items ≡ out.old.items ++ line_text (option_map_or reason_parts (named_reason names.now (Reason.Two one other)) [])) }
    ensures fit { OnOk result (IfSome (named_reason names.now (Reason.Two one other)) (IsReasonOf names.now.kind)) }
{
    out.extend_from_slice(b"two ")?;
    names.push_var(out, one)?;
    out.push(b' ')?;
    names.push_var(out, other)?;
    Ok(())
}

fn push_none(out: &mut Vec<u8>, names: &Naming<'_>, at: usize) -> Result<(), AllocError>
    requires { IsSome (named_reason names.now (Reason.NoneOf at)) }
    ensures text { OnOk result (out.new.items ≡ out.old.items ++ line_text (option_map_or reason_parts (named_reason names.now (Reason.NoneOf at)) [])) }
    ensures fit { OnOk result (IfSome (named_reason names.now (Reason.NoneOf at)) (IsReasonOf names.now.kind)) }
{
    out.extend_from_slice(b"none ")?;
    names.push_cell(out, at)?;
    Ok(())
}

fn push_reason(out: &mut Vec<u8>, names: &Naming<'_>, reason: Reason) -> Result<(), AllocError>
    requires { IsSome (named_reason names.now reason) }
    ensures text { OnOk result (out.new.items ≡ out.old.items ++ line_text (option_map_or reason_parts (named_reason names.now reason) [])) }
    ensures fit { OnOk result (IfSome (named_reason names.now reason) (IsReasonOf names.now.kind)) }
{
    match reason {
        Reason::Clause(at) => push_clause(out, at),
        Reason::Two(one, other) => push_two(out, names, one, other),
        Reason::NoneOf(at) => push_none(out, names, at),
    }
}

fn push_split(out: &mut Vec<u8>, names: &Naming<'_>, var: usize) -> Result<(), AllocError>
    requires { IsSome (named_node names.now (Node.Split var)) }
    ensures text { OnOk result (out.new.items ≡ out.old.items ++ line_text (named_parts names.now (Node.Split var))) }
    ensures fit { OnOk result (IsFitNode names.now (Node.Split var)) }
{
    out.extend_from_slice(b"split ")?;
    names.push_var(out, var)?;
    Ok(())
}

fn push_leaf(out: &mut Vec<u8>, names: &Naming<'_>, reason: Reason) -> Result<(), AllocError>
    requires { IsSome (named_node names.now (Node.Leaf reason)) }
    ensures text { OnOk result (out.new.items ≡ out.old.items ++ line_text (named_parts names.now (Node.Leaf reason))) }
    ensures fit { OnOk result (IsFitNode names.now (Node.Leaf reason)) }
{
    out.extend_from_slice(b"leaf ")?;
    push_reason(out, names, reason)?;
    Ok(())
}

/// Appends the line of a node, without its end.
fn push_node(out: &mut Vec<u8>, names: &Naming<'_>, node: Node) -> Result<(), AllocError>
    requires { IsSome (named_node names.now node) }
    ensures text { OnOk result (out.new.items ≡ out.old.items ++ line_text (named_parts names.now node)) }
    ensures fit { OnOk result (IsFitNode names.now node) }
{
    match node {
        Node::Split(var) => push_split(out, names, var),
        Node::Leaf(reason) => push_leaf(out, names, reason),
        Node::Unclosed => out.extend_from_slice(b"open"),
    }
}

/// Appends the nodes by names, one on a line.
pub fn push_nodes(out: &mut Vec<u8>, names: &Naming<'_>, nodes: &[Node]) -> Result<(), AllocError>
    requires { HaveNames names.now nodes.now }
    ensures text { OnOk result (out.new.items ≡ out.old.items ++ file_text (map (named_parts names.now) nodes.now)) }
    ensures fit { OnOk result (All (IsFitNode names.now) nodes.now) }
{
    for node in nodes {
        push_node(out, names, *node)?;
        out.push(b'\n')?;
    }
    Ok(())
}

fn text_of(alloc: Global, names: &Naming<'_>, tree: &Tree) -> Result<Vec<u8>, AllocError>
    requires { HaveNames names.now tree.now }
    ensures { IfOk result (λ text. IsTreeText names.now tree.now text.items) }
{
    let mut out = Vec::new(alloc);
    push_nodes(&mut out, names, tree.nodes())?;
    Ok(out)
}

/// The lines of the nodes of a tree for the question whether dependencies imply one more, as in a certificate.
pub fn tree_text(
    alloc: Global,
    schema: &Schema,
    deps: &List<Dep>,
    dep: &Dep,
    tree: &Tree,
) -> Result<Vec<u8>, AllocError>
    requires schema { IsValidSchema schema.now }
    requires deps { All (IsValidDep schema.now) deps.now }
    requires dep { IsValidDep schema.now dep.now }
    requires tree { IsRightTree (asks_from schema.now deps.now dep.now).set tree.now }
    ensures { IfOk result (λ text. IsTreeText (asks_from schema.now deps.now dep.now).names tree.now text.items) }
{
    let values = asked_values(alloc, schema, deps.as_slice(), dep)?;
    let names = Naming::new(
        Kind::Implication,
        attrs_at(schema, dep.table),
        values.as_slice(),
    );
    let text = text_of(alloc, &names, tree)?;
    Ok(text)
}
