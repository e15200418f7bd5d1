//! The nodes of a tree, one on a line.

ghost use Rattle.std.specs.Prelude.{IfOk};
ghost use Rattle.line_grammar.specs.Phrases.{Reads};
ghost use Rattle.cert_text.specs.CertLines.{clause_at, two_at, reason_for, reason_at, node_for, node_at};
ghost use Rattle.cert_text.specs.Written.{IsReasonOf, IsNodeOf};
ghost use Rattle.cert_text.specs.declared.answers.Kind.TheVariants.{Consistency, Implication};

use crate::answers::Kind;
use crate::names::{NodeName, ReasonName};
use crate::variables::{cell_at, var_at};
use line_grammar::{Phrase, Tokens, Unread};
use std::alloc::Global;
use text_lists::Text;

/// The greatest number that can be written.
pub const MOST_CLAUSES: u64 = 999_999_999_999;

/// A node of a tree over one tuple.
pub struct OneTupleNode;

/// A node of a tree over two tuples.
pub struct TwoTuplesNode;

fn clause_at(kind: Kind, tokens: &mut Tokens<'_>) -> Result<ReasonName, Unread>
    ensures exact { Reads clause_at tokens.old tokens.new result }
    ensures fit { IfOk result (IsReasonOf kind) }
{
    let number = tokens.number()?;
    if number == 0 || MOST_CLAUSES < number {
        return Err(Unread::Absent);
    }
    Ok(ReasonName::Clause(number))
}

fn two_at(kind: Kind, tokens: &mut Tokens<'_>) -> Result<ReasonName, Unread>
    ensures exact { Reads (two_at kind) tokens.old tokens.new result }
    ensures fit { IfOk result (IsReasonOf kind) }
{
    let one = var_at(kind, tokens)?;
    let other = var_at(kind, tokens)?;
    Ok(ReasonName::Two(one, other))
}

fn reason_for(kind: Kind, word: &Text, tokens: &mut Tokens<'_>) -> Result<ReasonName, Unread>
    ensures exact { Reads (reason_for kind word.now) tokens.old tokens.new result }
    ensures fit { IfOk result (IsReasonOf kind) }
{
    if word.is("clause") {
        clause_at(kind, tokens)
    } else if word.is("two") {
        two_at(kind, tokens)
    } else if word.is("none") {
        Ok(ReasonName::NoneOf(cell_at(kind, tokens)?))
    } else {
        Err(Unread::Absent)
    }
}

fn reason_at(kind: Kind, tokens: &mut Tokens<'_>) -> Result<ReasonName, Unread>
    ensures exact { Reads (reason_at kind) tokens.old tokens.new result }
    ensures fit { IfOk result (IsReasonOf kind) }
{
    let word = tokens.name()?;
    reason_for(kind, &word, tokens)
}

fn node_for(kind: Kind, word: &Text, tokens: &mut Tokens<'_>) -> Result<NodeName, Unread>
    ensures exact { Reads (node_for kind word.now) tokens.old tokens.new result }
    ensures fit { IfOk result (IsNodeOf kind) }
{
    if word.is("split") {
        Ok(NodeName::Split(var_at(kind, tokens)?))
    } else if word.is("leaf") {
        Ok(NodeName::Leaf(reason_at(kind, tokens)?))
    } else if word.is("open") {
        Ok(NodeName::Open)
    } else {
        Err(Unread::Absent)
    }
}

#[tactic(auto, unfolding(crate::specs::CertLines::node_at))]
fn node_at(kind: Kind, tokens: &mut Tokens<'_>) -> Result<NodeName, Unread>
    ensures exact { Reads (node_at kind) tokens.old tokens.new result }
    ensures fit { IfOk result (IsNodeOf kind) }
{
    let word = tokens.name()?;
    node_for(kind, &word, tokens)
}

impl Phrase for OneTupleNode {
    type Value = NodeName;

    ghost reads = { node_at Consistency };

    ghost is_fit = { IsNodeOf Consistency };

    fn take(_alloc: Global, tokens: &mut Tokens<'_>) -> Result<NodeName, Unread> {
        node_at(Kind::Consistency, tokens)
    }
}

impl Phrase for TwoTuplesNode {
    type Value = NodeName;

    ghost reads = { node_at Implication };

    ghost is_fit = { IsNodeOf Implication };

    fn take(_alloc: Global, tokens: &mut Tokens<'_>) -> Result<NodeName, Unread> {
        node_at(Kind::Implication, tokens)
    }
}
