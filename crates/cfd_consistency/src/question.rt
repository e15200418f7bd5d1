//! The question of a table: the values of its attributes, and the clauses over their variables.

ghost use Rattle.std.specs.Prelude.{◌≡◌, ◌<◌, length, IfOk};
ghost use Rattle.rule_model.specs.Books.{IsBook};
ghost use Rattle.cell_values.specs.Values.{AreFew};
ghost use Rattle.cfd_consistency.specs.Answer.{HasLaw};
ghost use Rattle.cfd_consistency.specs.Question.{question, table_values};

use crate::clauses::clauses_of;
use case_tree::Clauses;
use cell_values::{CellValues, TableRules, TupleCount, attrs_at, occurring, var_cells};
use rule_model::RuleBook;
use schema_core::List;
use std::alloc::{AllocError, Global};
use std::marker::Model;

/// The question whether the dependencies of a table are consistent, made once: whoever decides it and whoever names the
/// nodes of a tree that answers it use the same values and the same clauses. Clauses see the book and the table's number.
#[derive(Drop)]
pub struct TableQuestion<'a> {
    pub(crate) rules: &'a RuleBook,
    pub(crate) table: usize,
    pub(crate) values: List<CellValues>,
    pub(crate) clauses: Clauses,
}

impl<'a> Model for TableQuestion<'a> {
    ghost use Rattle.cfd_consistency.specs.Question.{AskedTable, IsMadeFor};

    ghost Value = { AskedTable };

    ghost view = { λ q. record { rules = q.rules.now; table = q.table } };

    ghost invariant = { λ q. IsMadeFor q.rules.now q.table q.values q.clauses };
}

impl<'a> TableQuestion<'a> {
    /// The question of the table with that number.
    pub fn new(
        alloc: Global,
        rules: &'a RuleBook,
        table: usize,
    ) -> Result<TableQuestion<'a>, AllocError>
        requires { table < length rules.now.schema.tables }
        ensures asked { IfOk result (λ asked. asked ≡ record { rules = rules.now; table = table }) }
        ensures valid { IsBook rules.now }
    {
        let deps = rules.deps().as_slice();
        let attrs = attrs_at(rules.schema(), table);
        let of_table = TableRules::new(alloc, table, deps, &[])?;
        let values = occurring(alloc, attrs, &of_table)?;
        let cells = var_cells(alloc, TupleCount::One, values.as_slice())?;
        let clauses = clauses_of(alloc, values.as_slice(), &of_table)?;
        let clauses = Clauses::new(cells, clauses);
        Ok(TableQuestion {
            rules,
            table,
            values,
            clauses,
        })
    }

    pub fn rules(&self) -> &'a RuleBook
        ensures { result.now ≡ self.now.rules }
    {
        self.rules
    }

    /// The table's number.
    pub fn table(&self) -> usize
        ensures table { result ≡ self.now.table }
        ensures there { result < length self.now.rules.schema.tables }
    {
        self.table
    }

    /// The values of each attribute that occurs in the table's dependencies.
    pub fn values(&self) -> &[CellValues]
        ensures values { result.now ≡ table_values self.now.rules self.now.table }
        ensures few { AreFew result.now }
    {
        self.values.as_slice()
    }

    /// Its clauses, over the variables of those values.
    pub fn clauses(&self) -> &Clauses
        ensures { result.now ≡ question self.now.rules self.now.table }
    {
        &self.clauses
    }
}

/// The clauses of the question whether the dependencies of a table are consistent. They are exactly where some assignment
/// is allowed.
pub fn consistency_clauses(
    alloc: Global,
    rules: &RuleBook,
    table: usize,
) -> Result<Clauses, AllocError>
    requires { table < length rules.now.schema.tables }
    ensures clauses { IfOk result (λ clauses. clauses ≡ question rules.now table) }
    ensures law { HasLaw rules.now table }
{
    Ok(TableQuestion::new(alloc, rules, table)?.clauses)
}
