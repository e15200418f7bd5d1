//! Whether some row can satisfy the dependencies of a table.
ghost use Rattle.std.specs.Prelude.{◌≡◌, ◌≤◌, ◌++◌, IfOk, IfSome, OnOk};
ghost use Rattle.std.specs.List.{AllZip, list_all};
ghost use Rattle.schema_core.specs.Schemas.{table_place};
ghost use Rattle.case_tree.specs.CaseTree.{Refutes, leaf_count};
ghost use Rattle.cfd_consistency.specs.Consistent.{IsConsistent};
ghost use Rattle.cfd_consistency.specs.Question.{question};
ghost use Rattle.project_flaws.specs.Told.{by_line, is_good, never_text, open_text, row_parts, verdict_line, verdicts_text};
ghost use Rattle.project_flaws.specs.Verdicts.{AreVerdicts, IsVerdictFor};

use crate::cited::{RowName, cited_rows};
use crate::names::push_table;
use crate::values::{ValueVerdict, may_all_stand, push_values_told, value_verdicts};
use case_tree::Tree;
use cfd_consistency::{Consistency, consistent};
use rule_model::RuleBook;
use schema_core::{List, Table, Writes, push_list, push_number};
use std::alloc::{AllocError, Global};

/// How many leaves a search for an answer may have.
pub const BUDGET: u64 = 100_000;

/// What is known of the dependencies of a table.
#[derive(Drop)]
pub enum Verdict {
    /// Some row, alone, satisfies them; and what is known of the values of the domains.
    Holds(List<ValueVerdict>),
    /// No row does, by these tableau rows.
    Never(List<RowName>),
    /// The search ended before there was an answer. The values of the domains aren't looked at then, since the search for
    /// each would most likely end so, too.
    Open,
}

/// A verdict for each table of the rules.
pub fn verdicts(alloc: Global, rules: &RuleBook) -> Result<List<Verdict>, AllocError>
    ensures { IfOk result (AreVerdicts rules.now) }
{
    verdicts_on(alloc, rules, rules.schema().tables.as_slice())
}

fn verdicts_on(
    alloc: Global,
    rules: &RuleBook,
    tables: &[Table],
) -> Result<List<Verdict>, AllocError>
    ensures { IfOk result (λ all. AllZip (IsVerdictFor rules.now) tables.now all) }
{
    let mut all = List::new(alloc);
    for table in tables {
        let verdict = verdict_on(alloc, rules, table)?;
        all.push(verdict)?;
    }
    Ok(all)
}

fn verdict_on(alloc: Global, rules: &RuleBook, table: &Table) -> Result<Verdict, AllocError>
    ensures { IfOk result (IsVerdictFor rules.now table.now) }
{
    match consistent(alloc, rules, table.name.as_str(), BUDGET) {
        Ok(Consistency::Witness(_)) => holds(alloc, rules, table),
        Ok(Consistency::Never(tree)) => never(alloc, rules, table, &tree),
        Ok(Consistency::Spent(_)) => Ok(Verdict::Open),
        // Each of the tables has its name, so only memory can be missing.
        Err(_) => Err(AllocError),
    }
}

fn holds(alloc: Global, rules: &RuleBook, table: &Table) -> Result<Verdict, AllocError>
    requires { IfSome (table_place rules.now.schema table.now.name) (IsConsistent rules.now) }
    ensures { IfOk result (IsVerdictFor rules.now table.now) }
{
    let values = value_verdicts(alloc, rules, table)?;
    Ok(Verdict::Holds(values))
}

fn never(alloc: Global, rules: &RuleBook, table: &Table, tree: &Tree) -> Result<Verdict, AllocError>
    requires { IfSome (table_place rules.now.schema table.now.name) (λ place. Refutes (question rules.now place) tree.now × (leaf_count tree.now ≤ 100000) × ¬ IsConsistent rules.now place) }
    ensures { IfOk result (IsVerdictFor rules.now table.now) }
{
    let rows = match rules.schema().table_named(table.name.as_str()) {
        Some(place) => cited_rows(alloc, rules, &table.name, place, tree.nodes())?,
        None => List::new(alloc),
    };
    Ok(Verdict::Never(rows))
}

/// Tells the tables whose dependencies no row is known to satisfy.
pub fn push_verdicts(
    out: &mut Vec<u8>,
    tables: &[Table],
    verdicts: &[Verdict],
) -> Result<(), AllocError>
    ensures { OnOk result (out.new.items ≡ out.old.items ++ verdicts_text tables.now verdicts.now) }
{
    for (table, verdict) in tables.iter().zip(verdicts) {
        push_verdict(out, table, verdict)?;
    }
    Ok(())
}

fn push_verdict(out: &mut Vec<u8>, table: &Table, verdict: &Verdict) -> Result<(), AllocError>
    ensures { OnOk result (out.new.items ≡ out.old.items ++ verdict_line table.now verdict.now) }
{
    match verdict {
        Verdict::Holds(values) => push_values_told(out, table, values.as_slice()),
        Verdict::Never(rows) => push_never(out, table, rows.as_slice()),
        Verdict::Open => push_open(out, table),
    }
}

fn push_open(out: &mut Vec<u8>, table: &Table) -> Result<(), AllocError>
    ensures { OnOk result (out.new.items ≡ out.old.items ++ open_text table.now) }
{
    push_table(out, table)?;
    out.extend_from_slice(b": not settled whether a row can satisfy its dependencies\n")
}

fn push_never(out: &mut Vec<u8>, table: &Table, rows: &[RowName]) -> Result<(), AllocError>
    ensures { OnOk result (out.new.items ≡ out.old.items ++ never_text table.now rows.now) }
{
    push_table(out, table)?;
    out.extend_from_slice(b": no row can satisfy its dependencies\n")?;
    push_by(out, rows)
}

fn push_by(out: &mut Vec<u8>, rows: &[RowName]) -> Result<(), AllocError>
    ensures { OnOk result (out.new.items ≡ out.old.items ++ by_line rows.now) }
{
    out.extend_from_slice(b"  by ")?;
    push_list::<RowNames, RowName>(out, rows)?;
    out.extend_from_slice(b"\n")
}

/// Tableau rows by the names of their rules.
struct RowNames;

impl Writes<RowName> for RowNames {
    ghost written = { row_parts };

    fn push(out: &mut Vec<u8>, row: &RowName) -> Result<(), AllocError> {
        out.extend_from_slice(row.rule.as_str().as_bytes())?;
        out.push(b'.')?;
        push_number(out, row.row as u64)
    }
}

/// Whether some row satisfies those of each table.
pub fn are_good(verdicts: &[Verdict]) -> bool
    ensures { result ≡ list_all is_good verdicts.now }
{
    for verdict in verdicts {
        if !is_good(verdict) {
            return false;
        }
    }
    true
}

fn is_good(verdict: &Verdict) -> bool
    ensures { result ≡ is_good verdict.now }
{
    match verdict {
        Verdict::Holds(values) => may_all_stand(values.as_slice()),
        Verdict::Never(_) | Verdict::Open => false,
    }
}
