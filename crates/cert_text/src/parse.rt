//! A certificate file as a certificate.

ghost use Rattle.std.specs.Prelude.{◌≡◌, ◌+◌, ◌^◌, ◌<◌, ◌≤◌, ◌++◌, ◌∷◌, [], false, length, slice_index_or, Some, IfOk, IfErr, OnOk, MatchResult};
ghost use Rattle.line_grammar.specs.Faults.{GivesUnlessMemory, IsUnlessMemory, line_tells};
ghost use Rattle.line_grammar.specs.Groups.{read_lines};
ghost use Rattle.line_grammar.specs.Lines.{lines};
ghost use Rattle.cert_text.specs.CertLines.{answer_at, node_at};
ghost use Rattle.cert_text.specs.CertFiles.{kind_of, read_whole, no_line, with_tuple, with_node, with_answer, with_line, whole, missing_behind, reads_cert};
ghost use Rattle.cert_text.specs.NodeTexts.{AreSeen, has_nodes, with_lines, with_text};
ghost use Rattle.cert_text.specs.Written.{IsQuestion, IsAnswerLine, IsNodeOf, IsTreeOf, IsDraft, IsWrittenCert, AreTexts};
ghost use Rattle.line_grammar.specs.declared.fault.LineFault.TheVariants.{Memory};
ghost use Rattle.cert_text.specs.declared.answers.Draft.TheVariants.{Nodes, Nothing};
ghost use Rattle.cert_text.specs.declared.answers.Draft.{Draft as AnyDraft};
ghost use Rattle.cert_text.specs.declared.cert.NodeLine.{NodeLine as AnyLine};

use crate::answers::{AnswerLine, Draft, Kind};
use crate::cert::{Answer, Asked, Cert, CertParts, NodeLine, Question, TreeLines, TupleLine};
use crate::fault::{CertCause, CertFault};
use crate::names::NodeName;
use crate::nodes::{OneTupleNode, TwoTuplesNode};
use crate::questions::{ConsistencyAnswer, ImplicationAnswer, QuestionLine, SecondTuple};
use crate::seen::Seen;
use crate::tree_nodes::TreeNodes;
use line_grammar::{Line, content_of, split_line};
use std::alloc::Global;

/// Whether the question is about one tuple or about two.
pub fn kind_of(question: &Question) -> Kind
    ensures { result ≡ kind_of question.now }
{
    match question {
        Question::Consistent(_) => Kind::Consistency,
        Question::Implies(_) => Kind::Implication,
    }
}

fn read_answer(alloc: Global, kind: Kind, line: Line<'_>) -> Result<AnswerLine, CertFault>
    ensures exact { IsUnlessMemory line_tells (read_whole (answer_at kind) line.entry) result }
    ensures fit { IfOk result IsAnswerLine }
{
    match kind {
        Kind::Consistency => line.read::<ConsistencyAnswer, CertCause>(alloc),
        Kind::Implication => line.read::<ImplicationAnswer, CertCause>(alloc),
    }
}

fn read_node(alloc: Global, kind: Kind, line: Line<'_>) -> Result<NodeName, CertFault>
    ensures exact { IsUnlessMemory line_tells (read_whole (node_at kind) line.entry) result }
    ensures fit { IfOk result (IsNodeOf kind) }
{
    match kind {
        Kind::Consistency => line.read::<OneTupleNode, CertCause>(alloc),
        Kind::Implication => line.read::<TwoTuplesNode, CertCause>(alloc),
    }
}

/// What begins with an answer's first line.
fn with_answer(alloc: Global, asked: Asked, line: usize, answer: AnswerLine) -> Draft
    requires question { IsQuestion asked.question }
    requires answer { IsAnswerLine answer }
    ensures exact { result ≡ with_answer asked line answer }
    ensures fit { IsDraft result }
{
    let budget = match answer {
        AnswerLine::Values(values) => return with_tuple(asked, TupleLine { line, values }),
        AnswerLine::Closed => None,
        AnswerLine::Spent(budget) => Some(budget),
    };
    let nodes = TreeNodes::new(alloc);
    Draft::Nodes(
        asked,
        TreeLines {
            line,
            budget,
            nodes,
        },
        1,
    )
}

/// What begins with a tuple, which is the whole answer to a question about one tuple.
fn with_tuple(asked: Asked, one: TupleLine) -> Draft
    requires question { IsQuestion asked.question }
    requires tuple { AreTexts one.values }
    ensures exact { result ≡ with_tuple asked (kind_of asked.question) one }
    ensures fit { IsDraft result }
{
    match kind_of(&asked.question) {
        Kind::Consistency => Draft::Whole(CertParts {
            asked,
            answer: Answer::Witness(one),
        }),
        Kind::Implication => Draft::Half(asked, one),
    }
}

/// How many subtrees are missing behind a node that stands where some are.
fn missing_behind(node: &NodeName, missing: usize) -> Result<usize, CertFault>
    requires { 1 ≤ missing }
    ensures count { IfOk result (λ n. n ≡ missing_behind node.now missing) }
    ensures memory { IfErr result (λ fault. fault ≡ Memory) }
{
    match node {
        NodeName::Split(_) => missing.checked_add(1).ok_or(CertFault::Memory),
        NodeName::Leaf(_) | NodeName::Open => Ok(missing - 1),
    }
}

/// The fault of a line that may not stand there.
fn no_line(line: &Line<'_>) -> CertFault
    ensures { MatchResult (no_line {X = AnyDraft} line.now) (λ _. ⊥) (λ told. line_tells result ≡ Some told) }
{
    let cause = if line.content.is_utf8() {
        CertCause::BadLine
    } else {
        CertCause::NotUtf8
    };
    CertFault::At {
        line: line.number,
        cause,
    }
}

/// What was read, with one more line.
#[tactic(auto, unfolding(crate::specs::CertFiles::with_line))]
fn with_line(alloc: Global, draft: Draft, line: Line<'_>) -> Result<Draft, CertFault>
    requires draft { IsDraft draft }
    requires head { has_nodes draft ≡ false }
    ensures exact { IsUnlessMemory line_tells (with_line draft line.entry) result }
    ensures fit { IfOk result IsDraft }
{
    let number = line.number;
    match draft {
        Draft::Nothing => {
            let question = line.read::<QuestionLine, CertCause>(alloc)?;
            Ok(Draft::Asked(Asked {
                line: number,
                question,
            }))
        }
        Draft::Asked(asked) => {
            let answer = read_answer(alloc, kind_of(&asked.question), line)?;
            Ok(with_answer(alloc, asked, number, answer))
        }
        Draft::Half(asked, one) => {
            let values = line.read::<SecondTuple, CertCause>(alloc)?;
            let other = TupleLine {
                line: number,
                values,
            };
            Ok(Draft::Whole(CertParts {
                asked,
                answer: Answer::Counter(one, other),
            }))
        }
        Draft::Nodes(_, _, _) => unreachable!(),
        Draft::Whole(_) => Err(no_line(&line)),
    }
}

/// What was read, with a line of the file.
fn with_text(alloc: Global, draft: Draft, number: usize, text: &[u8]) -> Result<Draft, CertFault>
    requires draft { IsDraft draft }
    requires head { has_nodes draft ≡ false }
    ensures exact { IsUnlessMemory line_tells (with_text draft number text.now) result }
    ensures fit { IfOk result IsDraft }
{
    match content_of(alloc, text) {
        None => Ok(draft),
        Some(content) => with_line(alloc, draft, Line { number, content }),
    }
}

// ---- nodes

/// Adds a node that stands on that line as it does at that place.
fn push_again(
    tree: &mut TreeLines,
    missing: usize,
    number: usize,
    place: usize,
) -> Result<usize, CertFault>
    requires some { 1 ≤ missing }
    requires place { place < length tree.old.nodes }
    ensures count { (d : AnyLine) → IfOk result (λ n. n ≡ missing_behind (slice_index_or tree.old.nodes place d).node missing) }
    ensures tree { (d : AnyLine) → OnOk result (tree.new ≡ with_node tree.old number (slice_index_or tree.old.nodes place d).node) }
    ensures memory { IfErr result (λ fault. fault ≡ Memory) }
{
    let missing = missing_behind(tree.nodes.node_at(place), missing)?;
    tree.nodes.push_again(number, place)?;
    Ok(missing)
}

/// Adds a node that was read from a line.
fn push_new<'a>(
    tree: &mut TreeLines,
    missing: usize,
    seen: &mut Seen<'a>,
    number: usize,
    text: &'a [u8],
    node: NodeName,
) -> Result<usize, CertFault>
    requires some { 1 ≤ missing }
    ensures count { IfOk result (λ n. n ≡ missing_behind node missing) }
    ensures tree { OnOk result (tree.new ≡ with_node tree.old number node) }
    ensures seen { OnOk result (seen.new ≡ seen.old ++ (text.now, length tree.old.nodes) ∷ []) }
    ensures memory { IfErr result (λ fault. fault ≡ Memory) }
{
    let place = tree.nodes.len();
    let behind = missing_behind(&node, missing);
    tree.nodes.push(NodeLine { line: number, node })?;
    seen.remember(text, place)?;
    behind
}

/// Takes a line that spells no node seen before, and gives how many subtrees are missing behind it.
fn with_new_node<'a>(
    alloc: Global,
    asked: &Asked,
    tree: &mut TreeLines,
    missing: usize,
    seen: &mut Seen<'a>,
    number: usize,
    text: &'a [u8],
) -> Result<usize, CertFault>
    requires tree { IsTreeOf (kind_of asked.now.question) tree.old missing }
    requires seen { AreSeen (kind_of asked.now.question) tree.old.nodes seen.old }
    ensures exact { GivesUnlessMemory line_tells (with_text (Nodes asked.now tree.old missing) number text.now) (λ n. Nodes asked.now tree.new n) result }
    ensures tree { IfOk result (IsTreeOf (kind_of asked.now.question) tree.new) }
    ensures seen { OnOk result (AreSeen (kind_of asked.now.question) tree.new.nodes seen.new) }
{
    let Some(content) = content_of(alloc, text) else {
        return Ok(missing);
    };
    let line = Line { number, content };
    if missing == 0 {
        return Err(no_line(&line));
    }
    let node = read_node(alloc, kind_of(&asked.question), line)?;
    push_new(tree, missing, seen, number, text, node)
}

/// Takes a line behind the first nodes, and gives how many subtrees are missing behind it.
fn with_node<'a>(
    alloc: Global,
    asked: &Asked,
    tree: &mut TreeLines,
    missing: usize,
    seen: &mut Seen<'a>,
    number: usize,
    text: &'a [u8],
) -> Result<usize, CertFault>
    requires tree { IsTreeOf (kind_of asked.now.question) tree.old missing }
    requires seen { AreSeen (kind_of asked.now.question) tree.old.nodes seen.old }
    ensures exact { GivesUnlessMemory line_tells (with_text (Nodes asked.now tree.old missing) number text.now) (λ n. Nodes asked.now tree.new n) result }
    ensures tree { IfOk result (IsTreeOf (kind_of asked.now.question) tree.new) }
    ensures seen { OnOk result (AreSeen (kind_of asked.now.question) tree.new.nodes seen.new) }
{
    if missing > 0 {
        if let Some(place) = seen.find(text) {
            return push_again(tree, missing, number, place);
        }
    }
    with_new_node(alloc, asked, tree, missing, seen, number, text)
}

/// What was read, with the lines that are left, each of which is a node.
fn with_nodes(
    alloc: Global,
    asked: Asked,
    mut tree: TreeLines,
    mut missing: usize,
    mut before: usize,
    bytes: &[u8],
) -> Result<Draft, CertFault>
    requires room { before + length bytes.now < 2 ^ 64 }
    requires question { IsQuestion asked.question }
    requires tree { IsTreeOf (kind_of asked.question) tree missing }
    ensures exact { IsUnlessMemory line_tells (with_lines (Nodes asked tree missing) before bytes.now) result }
    ensures fit { IfOk result IsDraft }
{
    let mut seen = Seen::new(alloc)?;
    let mut rest = bytes;
    while !rest.is_empty() {
        let (text, behind) = split_line(rest);
        before += 1;
        rest = behind;
        missing = with_node(alloc, &asked, &mut tree, missing, &mut seen, before, text)?;
    }
    Ok(Draft::Nodes(asked, tree, missing))
}

// ---- files

fn has_nodes(draft: &Draft) -> bool
    ensures { result ≡ has_nodes draft.now }
{
    matches!(draft, Draft::Nodes(_, _, _))
}

/// What was read, with the lines that are left, of which there are none but behind a tree.
fn with_rest(alloc: Global, draft: Draft, before: usize, bytes: &[u8]) -> Result<Draft, CertFault>
    requires room { before + length bytes.now < 2 ^ 64 }
    requires draft { IsDraft draft }
    requires rest { has_nodes draft ≡ false → length bytes.now ≡ 0 }
    ensures exact { IsUnlessMemory line_tells (with_lines draft before bytes.now) result }
    ensures fit { IfOk result IsDraft }
{
    match draft {
        Draft::Nodes(asked, tree, missing) => with_nodes(
            alloc, asked, tree, missing, before, bytes,
        ),
        other => Ok(other),
    }
}

/// What the lines of a file say.
#[tactic(auto, unfolding(line_grammar::specs::Groups::read_lines))]
fn read_draft(alloc: Global, bytes: &[u8]) -> Result<Draft, CertFault>
    ensures exact { IsUnlessMemory line_tells (read_lines with_line Nothing bytes.now) result }
    ensures fit { IfOk result IsDraft }
{
    let mut draft = Draft::Nothing;
    let mut before = 0usize;
    let mut rest = bytes;
    while !rest.is_empty() && !has_nodes(&draft) {
        let (text, behind) = split_line(rest);
        before += 1;
        rest = behind;
        draft = with_text(alloc, draft, before, text)?;
    }
    with_rest(alloc, draft, before, rest)
}

/// How many lines a file has, those that are passed over too.
fn line_count(mut bytes: &[u8]) -> Result<usize, CertFault>
    ensures count { IfOk result (λ count. count ≡ length (lines bytes.now)) }
    ensures memory { IfErr result (λ fault. fault ≡ Memory) }
{
    let mut count = 0usize;
    while !bytes.is_empty() {
        let (_, behind) = split_line(bytes);
        bytes = behind;
        count = count.checked_add(1).ok_or(CertFault::Memory)?;
    }
    Ok(count)
}

/// The whole of what was read; where a line is missing, it is told at the number behind the last one.
fn whole(draft: Draft, bytes: &[u8]) -> Result<CertParts, CertFault>
    requires { IsDraft draft }
    ensures exact { IsUnlessMemory line_tells (whole (length (lines bytes.now) + 1) draft) result }
    ensures fit { IfOk result IsWrittenCert }
{
    match draft {
        Draft::Whole(cert) => return Ok(cert),
        Draft::Nodes(asked, tree, 0) => {
            return Ok(CertParts {
                asked,
                answer: Answer::Tree(tree),
            });
        }
        _ => {}
    }
    let count = line_count(bytes)?;
    Err(CertFault::At {
        line: count.checked_add(1).ok_or(CertFault::Memory)?,
        cause: CertCause::BadLine,
    })
}

/// The certificate that the bytes spell, or the first faulty line with its cause.
#[tactic(auto, unfolding(crate::specs::CertFiles::reads_cert))]
pub fn parse_cert(alloc: Global, bytes: &[u8]) -> Result<Cert, CertFault>
    ensures { IsUnlessMemory line_tells (reads_cert bytes.now) result }
{
    let draft = read_draft(alloc, bytes)?;
    let parts = whole(draft, bytes)?;
    Ok(Cert::new(parts))
}
