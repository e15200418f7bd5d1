//! The question whether dependencies imply one more.

ghost use Rattle.std.specs.Prelude.{◌≡◌, ◌≤◌, ◌++◌, length, All, IfOk, OnOk};
ghost use Rattle.std.specs.List.{flat_map};
ghost use Rattle.schema_core.specs.Schemas.{IsValidSchema};
ghost use Rattle.case_tree.specs.CaseTree.{literals_of};
ghost use Rattle.rule_model.specs.Books.{IsBook, book_deps};
ghost use Rattle.rule_model.specs.Rules.{IsValidDep};
ghost use Rattle.cell_values.specs.TableRules.{table_rules};
ghost use Rattle.cell_values.specs.Values.{AreFew, values_for};
ghost use Rattle.cfd_implication.specs.Answers.{HasLaw};
ghost use Rattle.cfd_implication.specs.Question.{agreeing_at, asked_clauses, asked_of, asked_values, clauses_of, question};

use crate::rows::{push_agreeing, push_asked, push_rules};
use case_tree::{Clauses, Literal};
use cell_values::{CellValues, ClauseList, TableRules, TupleCount, attrs_at, occurring, var_cells};
use rule_model::{Dep, RuleBook};
use schema_core::{List, Schema};
use std::alloc::{AllocError, Global};
use std::marker::Model;
use std::slice;

/// A question whether dependencies imply one more: it is made once, and both who decides it and who names the nodes of its
/// tree ask it. Beside what is asked it has the values that the dependencies of the table and the asked one tell apart, and
/// the clauses over their variables.
#[derive(Drop)]
pub struct DepQuestion<'a> {
    pub(crate) schema: &'a Schema,
    pub(crate) deps: &'a [Dep],
    pub(crate) dep: &'a Dep,
    pub(crate) values: List<CellValues>,
    pub(crate) clauses: Clauses,
}

impl<'a> Model for DepQuestion<'a> {
    ghost use Rattle.cfd_implication.specs.Question.{AskedDep, IsMadeFor};

    ghost Value = { AskedDep };

    ghost view = { λ q. record { schema = q.schema.now; deps = q.deps.now; dep = q.dep.now } };

    ghost invariant = { λ q. IsMadeFor q.schema.now q.deps.now q.dep.now q.values q.clauses };
}

impl<'a> DepQuestion<'a> {
    /// The question over the dependencies of the table of the asked one. Those of other tables are passed over.
    pub fn new(
        alloc: Global,
        schema: &'a Schema,
        deps: &'a [Dep],
        dep: &'a Dep,
    ) -> Result<DepQuestion<'a>, AllocError>
        requires schema { IsValidSchema schema.now }
        requires deps { All (IsValidDep schema.now) deps.now }
        requires dep { IsValidDep schema.now dep.now }
        ensures { IfOk result (λ asked. asked ≡ record { schema = schema.now; deps = deps.now; dep = dep.now }) }
    {
        let values = asked_values(alloc, schema, deps, dep)?;
        let vars = var_cells(alloc, TupleCount::Two, values.as_slice())?;
        let clauses = clauses_of(alloc, values.as_slice(), deps, dep)?;
        Ok(DepQuestion {
            schema,
            deps,
            dep,
            values,
            clauses: Clauses::new(vars, clauses),
        })
    }

    /// The same over the dependencies of a book.
    pub fn of_book(
        alloc: Global,
        rules: &'a RuleBook,
        dep: &'a Dep,
    ) -> Result<DepQuestion<'a>, AllocError>
        requires { IsValidDep rules.now.schema dep.now }
        ensures asked { IfOk result (λ asked. asked ≡ asked_of rules.now dep.now) }
        ensures valid { IsBook rules.now }
    {
        DepQuestion::new(alloc, rules.schema(), rules.deps().as_slice(), dep)
    }

    pub fn schema(&self) -> &Schema
        ensures schema { result.now ≡ self.now.schema }
        ensures valid { IsValidSchema result.now }
    {
        self.schema
    }

    /// The asked dependency.
    pub fn dep(&self) -> &Dep
        ensures dep { result.now ≡ self.now.dep }
        ensures valid { IsValidDep self.now.schema result.now }
    {
        self.dep
    }

    /// The values of the attributes that occur, in whose order the variables are numbered.
    pub fn values(&self) -> &[CellValues]
        ensures values { result.now ≡ asked_values self.now.schema self.now.deps self.now.dep }
        ensures few { AreFew result.now }
    {
        self.values.as_slice()
    }

    pub fn clauses(&self) -> &Clauses
        ensures { result.now ≡ question self.now.schema self.now.deps self.now.dep }
    {
        &self.clauses
    }
}

/// The values of the attributes that occur in a question, which are all that the names of its variables and cells need.
pub fn asked_values(
    alloc: Global,
    schema: &Schema,
    deps: &[Dep],
    dep: &Dep,
) -> Result<List<CellValues>, AllocError>
    requires schema { IsValidSchema schema.now }
    requires dep { IsValidDep schema.now dep.now }
    ensures values { IfOk result (λ values. values ≡ asked_values schema.now deps.now dep.now) }
    ensures few { IfOk result AreFew }
{
    let all = TableRules::new(alloc, dep.table, deps, slice::from_ref(dep))?;
    let values = occurring(alloc, attrs_at(schema, dep.table), &all)?;
    Ok(values)
}

/// Appends that tuples that agree have one constant, for all attributes.
fn push_all_agreeing(
    alloc: Global,
    out: &mut ClauseList,
    cells: &[CellValues],
) -> Result<(), AllocError>
    requires few { AreFew cells.now }
    requires constants { All (λ cell. cell.constants ≤ length (values_for cells.now cell.attr)) cells.now }
    ensures { OnOk result (out.new ≡ out.old ++ flat_map (agreeing_at cells.now) cells.now) }
{
    for cell in cells {
        push_agreeing(alloc, out, cells, cell)?;
    }
    Ok(())
}

/// Appends the clauses of the asked dependency.
fn push_all_asked(
    alloc: Global,
    out: &mut ClauseList,
    cells: &[CellValues],
    dep: &Dep,
) -> Result<(), AllocError>
    requires { AreFew cells.now }
    ensures { OnOk result (out.new ≡ out.old ++ flat_map (asked_clauses cells.now dep.now.rule) dep.now.rule.rows) }
{
    for row in dep.rule.rows.as_slice() {
        push_asked(alloc, out, cells, &dep.rule, row)?;
    }
    Ok(())
}

fn clauses_of(
    alloc: Global,
    cells: &[CellValues],
    deps: &[Dep],
    dep: &Dep,
) -> Result<Vec<Vec<Literal>>, AllocError>
    requires few { AreFew cells.now }
    requires constants { All (λ cell. cell.constants ≤ length (values_for cells.now cell.attr)) cells.now }
    ensures { IfOk result (λ clauses. literals_of clauses.items ≡ clauses_of cells.now (table_rules dep.now.table deps.now) dep.now.rule) }
{
    let rules = TableRules::new(alloc, dep.table, deps, &[])?;
    let mut out = ClauseList::new(alloc);
    push_all_agreeing(alloc, &mut out, cells)?;
    push_rules(alloc, &mut out, cells, &rules)?;
    push_all_asked(alloc, &mut out, cells, dep)?;
    Ok(out.into_vec())
}

/// The clauses of the question whether dependencies of a table imply one more over it. Those of other tables are passed
/// over. Of one tableau row, it isn't implied exactly where some assignment is allowed.
pub fn clauses_from(
    alloc: Global,
    schema: &Schema,
    deps: &List<Dep>,
    dep: &Dep,
) -> Result<Clauses, AllocError>
    requires schema { IsValidSchema schema.now }
    requires deps { All (IsValidDep schema.now) deps.now }
    requires dep { IsValidDep schema.now dep.now }
    ensures clauses { IfOk result (λ clauses. clauses ≡ question schema.now deps.now dep.now) }
    ensures law { length dep.now.rule.rows ≡ 1 → HasLaw schema.now deps.now dep.now }
{
    Ok(DepQuestion::new(alloc, schema, deps.as_slice(), dep)?.clauses)
}

/// The same over the dependencies of a book.
pub fn implication_clauses(
    alloc: Global,
    rules: &RuleBook,
    dep: &Dep,
) -> Result<Clauses, AllocError>
    requires { IsValidDep rules.now.schema dep.now }
    ensures clauses { IfOk result (λ clauses. clauses ≡ question rules.now.schema (book_deps rules.now) dep.now) }
    ensures law { length dep.now.rule.rows ≡ 1 → HasLaw rules.now.schema (book_deps rules.now) dep.now }
{
    clauses_from(alloc, rules.schema(), rules.deps(), dep)
}
