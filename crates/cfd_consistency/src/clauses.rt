//! The clauses of the question, one for each tableau row that asks something on the right.

ghost use Rattle.std.specs.Prelude.{◌≡◌, ◌++◌, [], ◌∷◌, if◌then◌else◌, IfOk, OnOk};
ghost use Rattle.std.specs.List.{flat_map};
ghost use Rattle.case_tree.specs.CaseTree.{literals_of};
ghost use Rattle.cell_values.specs.RowClauses.{alone};
ghost use Rattle.cell_values.specs.Values.{AreFew};
ghost use Rattle.cfd_consistency.specs.Question.{asks, rule_clauses};

use case_tree::Literal;
use cell_values::{CellValues, ClauseList, Rule, TableRules, Which, alone};
use cfd_semantics::Pattern;
use rule_model::{Cell, DepRow};
use std::alloc::{AllocError, Global};

/// The clauses of all rules, in order.
pub fn clauses_of(
    alloc: Global,
    values: &[CellValues],
    rules: &TableRules<'_>,
) -> Result<Vec<Vec<Literal>>, AllocError>
    requires { AreFew values.now }
    ensures { IfOk result (λ clauses. literals_of clauses.items ≡ flat_map (rule_clauses values.now) rules.now) }
{
    let mut clauses = ClauseList::new(alloc);
    for place in 0..rules.len() {
        push_rule(alloc, values, rules.get(place), &mut clauses)?;
    }
    Ok(clauses.into_vec())
}

fn push_rule(
    alloc: Global,
    values: &[CellValues],
    rule: &Rule,
    clauses: &mut ClauseList,
) -> Result<(), AllocError>
    requires { AreFew values.now }
    ensures { OnOk result (clauses.new ≡ clauses.old ++ rule_clauses values.now rule.now) }
{
    for row in rule.rows.as_slice() {
        push_row(alloc, values, rule, row, clauses)?;
    }
    Ok(())
}

fn push_row(
    alloc: Global,
    values: &[CellValues],
    rule: &Rule,
    row: &DepRow,
    clauses: &mut ClauseList,
) -> Result<(), AllocError>
    requires { AreFew values.now }
    ensures { OnOk result (clauses.new ≡ clauses.old ++ (if asks row.now.a then alone values.now Which.Only rule.now row.now ∷ [] else [])) }
{
    if asks(&row.a) {
        clauses.push(alone(alloc, values, Which::Only, rule, row)?)?;
    }
    Ok(())
}

fn asks(cell: &Cell) -> bool
    ensures { result ≡ asks cell.now }
{
    !matches!(cell, Pattern::Any)
}
