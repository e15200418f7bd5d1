//! The texts of the certificates of the deciders' answers.

ghost use Rattle.std.specs.Prelude.{◌≡◌, ◌<◌, Ok, [], length, map, IfOk, IfSome};
ghost use Rattle.text_lists.specs.Names.{IsName};
ghost use Rattle.case_tree.specs.CaseTree.{leaf_count};
ghost use Rattle.rule_model.specs.Books.{Book, IsBook};
ghost use Rattle.rule_model.specs.Judged.{judged_dep};
ghost use Rattle.rule_model.specs.Rules.{IsValidDep};
ghost use Rattle.rule_model.specs.declared.dep.Dep.{Dep as AnyDep};
ghost use Rattle.rule_parser.specs.RuleText.{table_name};
ghost use Rattle.cfd_implication.specs.Question.{asked_of};
ghost use Rattle.cert_text.specs.CertFiles.{kind_of};
ghost use Rattle.rule_parser.specs.ReadRules.{IsDepDecl};
ghost use Rattle.cert_text.specs.Written.{IsBudget, IsQuestion};
ghost use Rattle.cert_check.specs.Made.{HaveNames, IsCertOf, IsCertOfDep, IsDeclaredCert, IsFound, IsFoundOfDep, IsNamedCert, IsRightText, IsSomeText, IsTreeCert, IsWrittenAnswer, IsWrittenDepAnswer, decl_of, decl_row, name_of, names_asked, names_asked_of};

use crate::names::Naming;
use crate::tree_lines::push_nodes;
use case_tree::{Node, Tree};
use cell_values::attrs_at;
use cert_text::{Question, counter_text, tree_head, witness_text};
use cfd_consistency::{Consistency, TableQuestion};
use cfd_implication::{DepQuestion, Implication};
use cfd_semantics::copied_cells;
use rule_model::{CfdDecl, CfdRow, Dep, DepRow};
use rule_parser::attr_names;
use schema_core::{List, Schema, Text};
use std::alloc::{AllocError, Global};
use std::slice;

/// How many leaves a tree has.
fn leaf_count(nodes: &[Node]) -> u64
    ensures { result ≡ leaf_count nodes.now }
{
    let mut leaves = 0u64;
    for node in nodes {
        if let Node::Leaf(_) = node {
            leaves += 1;
        }
    }
    leaves
}

/// The text of a certificate with a tree.
fn tree_cert_text(
    alloc: Global,
    names: &Naming<'_>,
    question: &Question,
    budget: Option<u64>,
    tree: &Tree,
) -> Result<Vec<u8>, AllocError>
    requires question { IsQuestion question.now }
    requires kind { kind_of question.now ≡ names.now.kind }
    requires budget { IfSome budget IsBudget }
    requires named { HaveNames names.now tree.now }
    ensures { IfOk result (λ text. IsSomeText (IsTreeCert names.now question.now budget tree.now) text.items) }
{
    let mut out = tree_head(alloc, question, budget)?;
    push_nodes(&mut out, names, tree.nodes())?;
    Ok(out)
}

// ---- consistency

fn table_name(schema: &Schema, number: usize) -> &Text
    requires { number < length schema.now.tables }
    ensures { result.now ≡ table_name schema.now number }
{
    &schema.tables.as_slice()[number].name
}

/// The name of the table that is asked about.
fn name_of<'a>(asked: &'a TableQuestion<'_>) -> &'a Text
    ensures name { result.now ≡ name_of asked.now }
    ensures spelled { IsName result.now }
    ensures book { IsBook asked.now.rules }
    ensures there { asked.now.table < length asked.now.rules.schema.tables }
{
    table_name(asked.rules().schema(), asked.table())
}

/// The text of a certificate with a tree about a table of that name.
fn table_tree_text(
    alloc: Global,
    asked: &TableQuestion<'_>,
    name: &Text,
    budget: Option<u64>,
    tree: &Tree,
) -> Result<Vec<u8>, AllocError>
    requires name { IsName name.now }
    requires budget { IfSome budget IsBudget }
    requires named { HaveNames (names_asked asked.now) tree.now }
    ensures { IfOk result (λ text. IsSomeText (IsTreeCert (names_asked asked.now) (Question.Consistent name.now) budget tree.now) text.items) }
{
    let question = Question::Consistent(name.clone()?);
    let names = Naming::of_table(asked);
    let text = tree_cert_text(alloc, &names, &question, budget, tree)?;
    Ok(text)
}

/// The text of the certificate of an answer about a table of that name.
fn table_text(
    alloc: Global,
    asked: &TableQuestion<'_>,
    name: &Text,
    answer: &Consistency,
) -> Result<Vec<u8>, AllocError>
    requires name { IsName name.now }
    requires answer { IsWrittenAnswer (names_asked asked.now) answer.now }
    ensures { IfOk result (λ text. IsSomeText (IsNamedCert (names_asked asked.now) name.now answer.now) text.items) }
{
    match answer {
        Consistency::Witness(tuple) => witness_text(alloc, name, tuple.as_slice()),
        Consistency::Never(tree) => table_tree_text(alloc, asked, name, None, tree),
        Consistency::Spent(tree) => {
            let budget = leaf_count(tree.nodes());
            table_tree_text(alloc, asked, name, Some(budget), tree)
        }
    }
}

/// The text of the certificate of what was answered to a question about a table.
pub fn consistency_text(
    alloc: Global,
    asked: &TableQuestion<'_>,
    answer: &Consistency,
) -> Result<Vec<u8>, AllocError>
    requires { IsFound asked.now answer.now }
    ensures { IfOk result (λ text. IsRightText asked.now.rules (IsCertOf asked.now answer.now) text.items) }
{
    let text = table_text(alloc, asked, name_of(asked), answer)?;
    Ok(text)
}

// ---- implication

fn decl_row(alloc: Global, row: &DepRow) -> Result<CfdRow, AllocError>
    ensures { IfOk result (λ made. made ≡ decl_row row.now) }
{
    let mut right = List::new(alloc);
    right.push(row.a.copied()?)?;
    Ok(CfdRow {
        x: copied_cells(alloc, row.x.as_slice())?,
        y: right,
    })
}

fn decl_rows(alloc: Global, rows: &[DepRow]) -> Result<List<CfdRow>, AllocError>
    ensures { IfOk result (λ made. made ≡ map decl_row rows.now) }
{
    let mut made = List::new(alloc);
    for row in rows {
        made.push(decl_row(alloc, row)?)?;
    }
    Ok(made)
}

/// A dependency by names.
fn decl_of(alloc: Global, schema: &Schema, dep: &Dep) -> Result<CfdDecl, AllocError>
    requires { IsValidDep schema.now dep.now }
    ensures { IfOk result (λ decl. decl ≡ decl_of schema.now dep.now) }
{
    let attrs = attrs_at(schema, dep.table);
    Ok(CfdDecl {
        name: Text::new(alloc, "")?,
        table: table_name(schema, dep.table).clone()?,
        x: attr_names(alloc, attrs, dep.rule.x.as_slice())?,
        y: attr_names(alloc, attrs, slice::from_ref(&dep.rule.a))?,
        rows: decl_rows(alloc, dep.rule.rows.as_slice())?,
    })
}

/// The text of a certificate with a tree about a dependency that is declared so.
fn dep_tree_text(
    alloc: Global,
    asked: &DepQuestion<'_>,
    decl: CfdDecl,
    budget: Option<u64>,
    tree: &Tree,
) -> Result<Vec<u8>, AllocError>
    requires decl { IsDepDecl decl }
    requires budget { IfSome budget IsBudget }
    requires named { HaveNames (names_asked_of asked.now) tree.now }
    ensures { IfOk result (λ text. IsSomeText (IsTreeCert (names_asked_of asked.now) (Question.Implies decl) budget tree.now) text.items) }
{
    let names = Naming::of_dep(asked);
    let text = tree_cert_text(alloc, &names, &Question::Implies(decl), budget, tree)?;
    Ok(text)
}

/// The text of the certificate of an answer about a dependency that is declared so.
fn dep_text(
    alloc: Global,
    asked: &DepQuestion<'_>,
    decl: CfdDecl,
    answer: &Implication,
) -> Result<Vec<u8>, AllocError>
    requires decl { IsDepDecl decl }
    requires answer { IsWrittenDepAnswer (names_asked_of asked.now) answer.now }
    ensures { IfOk result (λ text. IsSomeText (IsDeclaredCert (names_asked_of asked.now) decl answer.now) text.items) }
{
    match answer {
        Implication::Counter(one, other) => {
            counter_text(alloc, &decl, one.as_slice(), other.as_slice())
        }
        Implication::Implied(tree) => dep_tree_text(alloc, asked, decl, None, tree),
        Implication::Spent(tree) => {
            let budget = leaf_count(tree.nodes());
            dep_tree_text(alloc, asked, decl, Some(budget), tree)
        }
    }
}

/// The text of the certificate of what was answered to the question whether dependencies imply one more. It asks about that
/// dependency without its name. Over the book that the question was made of it is right.
pub fn implication_text(
    alloc: Global,
    asked: &DepQuestion<'_>,
    answer: &Implication,
) -> Result<Vec<u8>, AllocError>
    requires row { length asked.now.dep.rule.rows ≡ 1 }
    requires answer { IsFoundOfDep asked.now answer.now }
    ensures cert { IfOk result (λ text. IsSomeText (IsCertOfDep asked.now answer.now) text.items) }
    ensures right { (rules : Book) (dep : AnyDep) → IsBook rules → asked.now ≡ asked_of rules dep → IfOk result (λ text. IsRightText rules (IsCertOfDep (asked_of rules dep) answer.now) text.items) }

    // It asks about the dependency itself.
    ensures asked { judged_dep asked.now.schema (decl_of asked.now.schema asked.now.dep) ≡ Ok (record asked.now.dep { name = [] }) }
{
    let decl = decl_of(alloc, asked.schema(), asked.dep())?;
    let text = dep_text(alloc, asked, decl, answer)?;
    Ok(text)
}
