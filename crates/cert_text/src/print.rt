//! The canonical text of certificates.

ghost use Rattle.std.specs.Prelude.{◌≡◌, ◌≤◌, ◌++◌, ◌∷◌, [], length, map, All, OnOk, IfOk, Ok, decimal};
ghost use Rattle.std.specs.List.{flat_map};
ghost use Rattle.std.specs.Str.{IsUtf8};
ghost use Rattle.text_lists.specs.Names.{IsName};
ghost use Rattle.line_grammar.specs.Spelling.{line_text, file_text};
ghost use Rattle.rule_parser.specs.ReadRules.{IsDepDecl};
ghost use Rattle.cert_text.specs.Canonical.{with_canonical_lines, witness_cert, counter_cert};
ghost use Rattle.cert_text.specs.CertFiles.{reads_cert};
ghost use Rattle.cert_text.specs.CertText.{IsCertText, tuple_parts, cell_name_parts, var_parts, reason_parts, node_parts, node_line, row_parts, dep_parts, question_line, texts_line, tree_line, tree_head, answer_lines, cert_text};
ghost use Rattle.cert_text.specs.Written.{IsWrittenCert};
ghost use Rattle.cert_text.specs.declared.names.VarName.TheVariants.{Value, Equal};

use crate::answers::Kind;
use crate::cert::{Answer, Cert, Question};
use crate::names::{CellName, NodeName, ReasonName, VarName};
use crate::parse::kind_of;
use crate::questions::closed_word;
use crate::tree_nodes::TreeNodes;
use cell_values::Which;
use line_grammar::{push_number, push_quoted, push_spaced_list};
use rule_model::{Cell, CfdDecl, CfdRow};
use rule_parser::{Cells, Values, push_row, push_sides};
use std::alloc::{AllocError, Global};
use text_lists::Text;

// ---- cells and variables

/// A number, and a dot.
fn push_number_dot(out: &mut Vec<u8>, number: u64) -> Result<(), AllocError>
    ensures { OnOk result (out.new.items ≡ out.old.items ++ (decimal number ++ 46 ∷ [])) }
{
    push_number(out, number)?;
    out.push(b'.')?;
    Ok(())
}

fn push_tuple(out: &mut Vec<u8>, tuple: Which) -> Result<(), AllocError>
    ensures { OnOk result (out.new.items ≡ out.old.items ++ line_text (tuple_parts tuple)) }
{
    match tuple {
        Which::Only => Ok(()),
        Which::First => push_number_dot(out, 1),
        Which::Second => push_number_dot(out, 2),
    }
}

/// Appends the name of a cell: of the values of an attribute in a tuple.
pub fn push_cell(out: &mut Vec<u8>, tuple: Which, attr: &Text) -> Result<(), AllocError>
    ensures { OnOk result (out.new.items ≡ out.old.items ++ line_text (cell_name_parts (record { tuple = tuple; attr = attr.now }))) }
{
    push_tuple(out, tuple)?;
    out.extend_from_slice(attr.as_str().as_bytes())
}

/// Appends the name of the variable that a tuple has a value.
pub fn push_value(
    out: &mut Vec<u8>,
    tuple: Which,
    attr: &Text,
    value: &str,
) -> Result<(), AllocError>
    ensures { OnOk result (out.new.items ≡ out.old.items ++ line_text (var_parts (Value (record { tuple = tuple; attr = attr.now }) value.now))) }
{
    push_cell(out, tuple, attr)?;
    out.push(b'=')?;
    push_quoted(out, value)
}

/// Appends the name of the variable that two tuples agree on an attribute.
pub fn push_equality(out: &mut Vec<u8>, attr: &Text) -> Result<(), AllocError>
    ensures { OnOk result (out.new.items ≡ out.old.items ++ line_text (var_parts (Equal attr.now))) }
{
    out.push(b'=')?;
    out.extend_from_slice(attr.as_str().as_bytes())
}

// ---- nodes

fn push_cell_name(out: &mut Vec<u8>, cell: &CellName) -> Result<(), AllocError>
    ensures { OnOk result (out.new.items ≡ out.old.items ++ line_text (cell_name_parts cell.now)) }
{
    push_cell(out, cell.tuple, &cell.attr)
}

fn push_var(out: &mut Vec<u8>, var: &VarName) -> Result<(), AllocError>
    ensures { OnOk result (out.new.items ≡ out.old.items ++ line_text (var_parts var.now)) }
{
    match var {
        VarName::Value(cell, value) => push_value(out, cell.tuple, &cell.attr, value.as_str()),
        VarName::Equal(attr) => push_equality(out, attr),
    }
}

fn push_reason(out: &mut Vec<u8>, reason: &ReasonName) -> Result<(), AllocError>
    ensures { OnOk result (out.new.items ≡ out.old.items ++ line_text (reason_parts reason.now)) }
{
    match reason {
        ReasonName::Clause(number) => {
            out.extend_from_slice(b"clause ")?;
            push_number(out, *number)
        }
        ReasonName::Two(one, other) => {
            out.extend_from_slice(b"two ")?;
            push_var(out, one)?;
            out.push(b' ')?;
            push_var(out, other)
        }
        ReasonName::NoneOf(cell) => {
            out.extend_from_slice(b"none ")?;
            push_cell_name(out, cell)
        }
    }
}

fn push_node(out: &mut Vec<u8>, node: &NodeName) -> Result<(), AllocError>
    ensures { OnOk result (out.new.items ≡ out.old.items ++ line_text (node_parts node.now)) }
{
    match node {
        NodeName::Split(var) => {
            out.extend_from_slice(b"split ")?;
            push_var(out, var)
        }
        NodeName::Leaf(reason) => {
            out.extend_from_slice(b"leaf ")?;
            push_reason(out, reason)
        }
        NodeName::Open => out.extend_from_slice(b"open"),
    }
}

/// The nodes, one on a line.
fn push_nodes(out: &mut Vec<u8>, nodes: &TreeNodes) -> Result<(), AllocError>
    ensures { OnOk result (out.new.items ≡ out.old.items ++ file_text (map node_line nodes.now)) }
{
    for place in 0..nodes.len() {
        push_node(out, nodes.node_at(place))?;
        out.push(b'\n')?;
    }
    Ok(())
}

// ---- questions

/// Tableau rows, each behind a space.
fn push_rows(out: &mut Vec<u8>, rows: &[CfdRow]) -> Result<(), AllocError>
    ensures { OnOk result (out.new.items ≡ out.old.items ++ line_text (flat_map row_parts rows.now)) }
{
    for row in rows {
        out.push(b' ')?;
        push_row::<Cells, Cell>(out, row.x.as_slice(), row.y.as_slice())?;
    }
    Ok(())
}

fn push_dep(out: &mut Vec<u8>, dep: &CfdDecl) -> Result<(), AllocError>
    ensures { OnOk result (out.new.items ≡ out.old.items ++ line_text (dep_parts dep.now)) }
{
    push_sides(out, &dep.table, dep.x.as_slice(), dep.y.as_slice())?;
    push_rows(out, dep.rows.as_slice())
}

/// The question whether the rules of a table are consistent.
fn push_consistent(out: &mut Vec<u8>, table: &Text) -> Result<(), AllocError>
    ensures { OnOk result (out.new.items ≡ out.old.items ++ line_text (question_line (Question.Consistent table.now))) }
{
    out.extend_from_slice(b"consistent ")?;
    out.extend_from_slice(table.as_str().as_bytes())
}

/// The question whether they imply a dependency.
fn push_implies(out: &mut Vec<u8>, dep: &CfdDecl) -> Result<(), AllocError>
    ensures { OnOk result (out.new.items ≡ out.old.items ++ line_text (question_line (Question.Implies dep.now))) }
{
    out.extend_from_slice(b"implies ")?;
    push_dep(out, dep)
}

fn push_question(out: &mut Vec<u8>, question: &Question) -> Result<(), AllocError>
    ensures { OnOk result (out.new.items ≡ out.old.items ++ line_text (question_line question.now)) }
{
    match question {
        Question::Consistent(table) => push_consistent(out, table),
        Question::Implies(dep) => push_implies(out, dep),
    }
}

// ---- answers

/// Appends a line of a word and of texts.
pub fn push_texts(out: &mut Vec<u8>, word: &str, values: &[Text]) -> Result<(), AllocError>
    ensures { OnOk result (out.new.items ≡ out.old.items ++ (line_text (texts_line word.now values.now) ++ 10 ∷ [])) }
{
    out.extend_from_slice(word.as_bytes())?;
    push_spaced_list::<Values, Text>(out, values)?;
    out.push(b'\n')?;
    Ok(())
}

fn push_tree_line(out: &mut Vec<u8>, kind: Kind, budget: Option<u64>) -> Result<(), AllocError>
    ensures { OnOk result (out.new.items ≡ out.old.items ++ (line_text (tree_line kind budget) ++ 10 ∷ [])) }
{
    match budget {
        None => out.extend_from_slice(closed_word(kind).as_bytes())?,
        Some(budget) => {
            out.extend_from_slice(b"spent ")?;
            push_number(out, budget)?;
        }
    }
    out.push(b'\n')?;
    Ok(())
}

#[tactic(auto, unfolding(crate::specs::CertText::cert_text))]
fn push_witness(out: &mut Vec<u8>, table: &Text, values: &[Text]) -> Result<(), AllocError>
    ensures { OnOk result (out.new.items ≡ out.old.items ++ cert_text (witness_cert table.now values.now)) }
{
    push_consistent(out, table)?;
    out.push(b'\n')?;
    push_texts(out, "witness", values)
}

#[tactic(auto, unfolding(crate::specs::CertText::cert_text))]
fn push_counter(
    out: &mut Vec<u8>,
    dep: &CfdDecl,
    one: &[Text],
    other: &[Text],
) -> Result<(), AllocError>
    ensures { OnOk result (out.new.items ≡ out.old.items ++ cert_text (counter_cert dep.now one.now other.now)) }
{
    push_implies(out, dep)?;
    out.push(b'\n')?;
    push_texts(out, "counter", one)?;
    push_texts(out, "and", other)
}

fn push_answer(out: &mut Vec<u8>, kind: Kind, answer: &Answer) -> Result<(), AllocError>
    ensures { OnOk result (out.new.items ≡ out.old.items ++ file_text (answer_lines kind answer.now)) }
{
    match answer {
        Answer::Witness(one) => push_texts(out, "witness", one.values.as_slice()),
        Answer::Counter(one, other) => {
            push_texts(out, "counter", one.values.as_slice())?;
            push_texts(out, "and", other.values.as_slice())
        }
        Answer::Tree(tree) => {
            push_tree_line(out, kind, tree.budget)?;
            push_nodes(out, &tree.nodes)
        }
    }
}

#[tactic(auto, unfolding(crate::specs::CertText::cert_text))]
fn push_cert(out: &mut Vec<u8>, cert: &Cert) -> Result<(), AllocError>
    ensures text { OnOk result (out.new.items ≡ out.old.items ++ cert_text cert.now) }
    ensures written { IsWrittenCert cert.now }
{
    let parts = cert.parts();
    push_question(out, &parts.asked.question)?;
    out.push(b'\n')?;
    push_answer(out, kind_of(&parts.asked.question), &parts.answer)
}

// ---- certificates

/// The canonical text of a certificate, which is the same for all certificates that differ in the numbers of their lines
/// alone.
pub fn print_cert(alloc: Global, cert: &Cert) -> Result<Vec<u8>, AllocError>
    ensures text { IfOk result (λ text. text.items ≡ cert_text cert.now) }
    ensures read_again { IfOk result (λ text. reads_cert text.items ≡ Ok (with_canonical_lines cert.now)) }
{
    let mut out = Vec::new(alloc);
    push_cert(&mut out, cert)?;
    Ok(out)
}

/// The texts are what they were made of.
fn see_texts(texts: &[Text])
    ensures { All IsUtf8 texts.now }
{
    for text in texts {
        let _bytes = text.as_str();
    }
}

/// The text of the certificate with a tuple that shows that the rules of a table are consistent.
pub fn witness_text(alloc: Global, table: &Text, values: &[Text]) -> Result<Vec<u8>, AllocError>
    requires table { IsName table.now }
    requires values { 1 ≤ length values.now }
    ensures { IfOk result (λ text. IsCertText (witness_cert table.now values.now) text.items) }
{
    see_texts(values);
    let mut out = Vec::new(alloc);
    push_witness(&mut out, table, values)?;
    Ok(out)
}

/// The text of the certificate with two tuples that show that a dependency isn't implied.
pub fn counter_text(
    alloc: Global,
    dep: &CfdDecl,
    one: &[Text],
    other: &[Text],
) -> Result<Vec<u8>, AllocError>
    requires dep { IsDepDecl dep.now }
    requires one { 1 ≤ length one.now }
    requires other { 1 ≤ length other.now }
    ensures { IfOk result (λ text. IsCertText (counter_cert dep.now one.now other.now) text.items) }
{
    see_texts(one);
    see_texts(other);
    let mut out = Vec::new(alloc);
    push_counter(&mut out, dep, one, other)?;
    Ok(out)
}

/// The first two lines of a certificate with a tree: all but its nodes.
pub fn tree_head(
    alloc: Global,
    question: &Question,
    budget: Option<u64>,
) -> Result<Vec<u8>, AllocError>
    ensures { IfOk result (λ text. text.items ≡ file_text (tree_head question.now budget)) }
{
    let mut out = Vec::new(alloc);
    push_question(&mut out, question)?;
    out.push(b'\n')?;
    push_tree_line(&mut out, kind_of(question), budget)?;
    Ok(out)
}
