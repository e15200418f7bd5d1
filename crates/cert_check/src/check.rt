//! The check of a certificate.

ghost use Rattle.std.specs.Prelude.{◌≡◌, ◌↔◌, ◌<◌, ◌∷◌, [], length, IfOk, IfSome, IsTrue};
ghost use Rattle.schema_core.specs.Lookups.{attrs_at};
ghost use Rattle.case_tree.specs.CaseTree.{IsOneTree};
ghost use Rattle.rule_model.specs.Books.{IsBook, book_deps};
ghost use Rattle.rule_model.specs.Judged.{judged_dep};
ghost use Rattle.rule_model.specs.Rules.{IsValidDep};
ghost use Rattle.cfd_implication.specs.Implied.{SatisfyTable};
ghost use Rattle.rule_parser.specs.ReadRules.{IsDepDecl};
ghost use Rattle.cert_text.specs.Written.{IsAnswerTo, IsWrittenCert, shapes};
ghost use Rattle.cert_text.specs.declared.answers.Kind.TheVariants.{Consistency, Implication};
ghost use Rattle.cert_check.specs.Right.{IsRight};
ghost use Rattle.cert_check.specs.declared.verdict.CertVerdict.{CertVerdict as AnyVerdict};
ghost use Rattle.cert_check.specs.Shown.{IsRightCert, IsShortTuple, Refute, accepted, asks_consistency, asks_implication};
ghost use Rattle.cert_check.specs.Verdict.{ConsistencyLines, CounterLines, ImplicationLines, IsCertVerdict, LineOf, TreePasses, WitnessLines};

use crate::copies::copy_decl;
use crate::names::Naming;
use crate::trees::check_tree;
use crate::tuples::{is_short_tuple, one_row, satisfy, satisfy_table, two_rows};
use crate::verdict::CertVerdict;
use cell_values::attrs_at;
use cert_text::{Answer, Cert, CertParts, Question, TreeLines, TupleLine};
use cfd_consistency::TableQuestion;
use cfd_implication::DepQuestion;
use rule_model::{AddFault, CfdDecl, Dep, RuleBook, judge_dep};
use schema_core::{Schema, Texts};
use std::alloc::{AllocError, Global};

/// Whether the texts are a tuple of a table, none too long.
fn is_tuple_of(rules: &RuleBook, table: usize, tuple: &Texts) -> bool
    requires { table < length rules.now.schema.tables }
    ensures { IsTrue result ↔ IsShortTuple (attrs_at rules.now.schema table) tuple.now }
{
    is_short_tuple(attrs_at(rules.schema(), table), tuple.as_slice())
}

/// Whether a tuple alone satisfies the dependencies of a table.
fn satisfies(
    alloc: Global,
    rules: &RuleBook,
    table: usize,
    tuple: &Texts,
) -> Result<bool, AllocError>
    ensures { IfOk result (λ yes. IsTrue yes ↔ SatisfyTable table (book_deps rules.now) (tuple.now ∷ [])) }
{
    let rows = one_row(alloc, tuple)?;
    let yes = satisfy_table(alloc, table, rules.deps().as_slice(), rows.as_slice())?;
    Ok(yes)
}

fn check_witness(
    alloc: Global,
    rules: &RuleBook,
    table: usize,
    one: &TupleLine,
) -> Result<CertVerdict, AllocError>
    requires { table < length rules.now.schema.tables }
    ensures { IfOk result (WitnessLines rules.now table one.now) }
{
    if !is_tuple_of(rules, table, &one.values) {
        return Ok(CertVerdict::Fails(one.line));
    }
    let satisfied = satisfies(alloc, rules, table, &one.values)?;
    if satisfied {
        Ok(CertVerdict::Holds)
    } else {
        Ok(CertVerdict::Fails(one.line))
    }
}

fn check_consistency_tree(
    alloc: Global,
    rules: &RuleBook,
    table: usize,
    lines: &TreeLines,
) -> Result<CertVerdict, AllocError>
    requires there { table < length rules.now.schema.tables }
    requires tree { IsOneTree (shapes lines.now.nodes) }
    ensures { IfOk result (TreePasses (asks_consistency rules.now table) lines.now) }
{
    let asked = TableQuestion::new(alloc, rules, table)?;
    let names = Naming::of_table(&asked);
    let verdict = check_tree(alloc, asked.clauses(), &names, lines)?;
    Ok(verdict)
}

fn check_consistency(
    alloc: Global,
    rules: &RuleBook,
    line: usize,
    found: Option<usize>,
    answer: &Answer,
) -> Result<CertVerdict, AllocError>
    requires there { IfSome found (λ table. table < length rules.now.schema.tables) }
    requires answer { IsAnswerTo Consistency answer.now }
    ensures { IfOk result (LineOf line found (ConsistencyLines rules.now answer.now)) }
{
    let Some(table) = found else {
        return Ok(CertVerdict::Fails(line));
    };
    match answer {
        Answer::Witness(one) => check_witness(alloc, rules, table, one),
        Answer::Tree(lines) => check_consistency_tree(alloc, rules, table, lines),
        Answer::Counter(_, _) => unreachable!(),
    }
}

/// Whether two tuples satisfy the dependencies of a table and not the asked one.
fn refute(
    alloc: Global,
    rules: &RuleBook,
    dep: &Dep,
    one: &Texts,
    other: &Texts,
) -> Result<bool, AllocError>
    ensures { IfOk result (λ yes. IsTrue yes ↔ Refute rules.now dep.now (one.now ∷ other.now ∷ [])) }
{
    let rows = two_rows(alloc, one, other)?;
    let satisfied = satisfy_table(alloc, dep.table, rules.deps().as_slice(), rows.as_slice())?;
    let held = satisfy(alloc, dep, rows.as_slice())?;
    Ok(satisfied && !held)
}

fn check_counter(
    alloc: Global,
    rules: &RuleBook,
    dep: &Dep,
    one: &TupleLine,
    other: &TupleLine,
) -> Result<CertVerdict, AllocError>
    requires { IsValidDep rules.now.schema dep.now }
    ensures { IfOk result (CounterLines rules.now dep.now one.now other.now) }
{
    if !is_tuple_of(rules, dep.table, &one.values) {
        return Ok(CertVerdict::Fails(one.line));
    }
    if !is_tuple_of(rules, dep.table, &other.values) {
        return Ok(CertVerdict::Fails(other.line));
    }
    let refuted = refute(alloc, rules, dep, &one.values, &other.values)?;
    if refuted {
        Ok(CertVerdict::Holds)
    } else {
        Ok(CertVerdict::Fails(other.line))
    }
}

fn check_implication_tree(
    alloc: Global,
    rules: &RuleBook,
    dep: &Dep,
    lines: &TreeLines,
) -> Result<CertVerdict, AllocError>
    requires dep { IsValidDep rules.now.schema dep.now }
    requires tree { IsOneTree (shapes lines.now.nodes) }
    ensures { IfOk result (TreePasses (asks_implication rules.now dep.now) lines.now) }
{
    let asked = DepQuestion::of_book(alloc, rules, dep)?;
    let names = Naming::of_dep(&asked);
    let verdict = check_tree(alloc, asked.clauses(), &names, lines)?;
    Ok(verdict)
}

/// The dependency that a declaration stands for, if it has no fault.
fn accepted(alloc: Global, schema: &Schema, decl: &CfdDecl) -> Result<Option<Dep>, AllocError>
    requires { IsDepDecl decl.now }
    ensures dep { IfOk result (λ dep. dep ≡ accepted (judged_dep schema.now decl.now)) }
    ensures valid { IfOk result (λ dep. IfSome dep (IsValidDep schema.now)) }
{
    match judge_dep(alloc, schema, copy_decl(alloc, decl)?) {
        Ok(dep) => Ok(Some(dep)),
        Err(AddFault::Rule(_)) => Ok(None),
        Err(AddFault::Memory) => Err(AllocError),
    }
}

fn check_implication(
    alloc: Global,
    rules: &RuleBook,
    line: usize,
    found: Option<Dep>,
    answer: &Answer,
) -> Result<CertVerdict, AllocError>
    requires dep { IfSome found (IsValidDep rules.now.schema) }
    requires answer { IsAnswerTo Implication answer.now }
    ensures { IfOk result (LineOf line found (ImplicationLines rules.now answer.now)) }
{
    let Some(dep) = found else {
        return Ok(CertVerdict::Fails(line));
    };
    match answer {
        Answer::Counter(one, other) => check_counter(alloc, rules, &dep, one, other),
        Answer::Tree(lines) => check_implication_tree(alloc, rules, &dep, lines),
        Answer::Witness(_) => unreachable!(),
    }
}

fn verdict_of(alloc: Global, rules: &RuleBook, cert: &CertParts) -> Result<CertVerdict, AllocError>
    requires { IsWrittenCert cert.now }
    ensures verdict { IfOk result (IsCertVerdict rules.now cert.now) }
    ensures valid { IsBook rules.now }
{
    let schema = rules.schema();
    let line = cert.asked.line;
    match &cert.asked.question {
        Question::Consistent(table) => {
            let found = schema.table_named(table.as_str());
            check_consistency(alloc, rules, line, found, &cert.answer)
        }
        Question::Implies(decl) => {
            let found = accepted(alloc, schema, decl)?;
            check_implication(alloc, rules, line, found, &cert.answer)
        }
    }
}

/// Whether what the certificate says is so, over a rule book; and else the first line that isn't.
pub fn check_cert(alloc: Global, rules: &RuleBook, cert: &Cert) -> Result<CertVerdict, AllocError>
    ensures verdict { IfOk result (IsCertVerdict rules.now cert.now) }

    // It is the only one.
    ensures only { IfOk result (λ verdict. (other : AnyVerdict) → IsCertVerdict rules.now cert.now other → other ≡ verdict) }

    // It holds exactly where it is right, and then it gives the right answer to its question.
    ensures law { IfOk result (λ verdict. (verdict ≡ CertVerdict.Holds) ↔ IsRightCert rules.now cert.now) }
    ensures right { IfOk result (λ verdict. verdict ≡ CertVerdict.Holds → IsRight rules.now cert.now) }
{
    let verdict = verdict_of(alloc, rules, cert.parts())?;
    Ok(verdict)
}
