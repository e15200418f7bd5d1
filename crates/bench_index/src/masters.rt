//! The master tables of a rule book: the lists of columns in which its editing rules look values up, and the rows.

ghost use Rattle.std.specs.Prelude.{◌≡◌, ◌+◌, ◌*◌, ◌≤◌, None, Ok, IsTrue, IfOk, OnOk, OnErr};
ghost use Rattle.std.specs.FinMap as finite;
ghost use Rattle.std.specs.List.{list_any};
ghost use Rattle.std.specs.Option.{ForSome};
ghost use Rattle.schema_core.specs.Lookups.{master_at};
ghost use Rattle.row_store.specs.Tuple.{ids_behind};
ghost use Rattle.master_index.specs.Masters.{IsWideFor, lists_of};
ghost use Rattle.bench_index.specs.MasterLists.{columns_of, is_same_list, master_lists};
ghost use Rattle.bench_index.specs.AllIndexes.{FollowAsMaster};

use master_index::{ColumnList, MasterIndex};
use probe_steps::Steps;
use row_store::{RowId, Tuple};
use rule_model::{EditRule, RuleBook};
use schema_core::{List, Schema};
use std::alloc::{AllocError, Global};
use std::sync::ledger::Ledger;

fn list_of(alloc: Global, rule: &EditRule) -> Result<ColumnList, AllocError>
    ensures { IfOk result (λ list. list ≡ columns_of rule.now) }
{
    let columns = Vec::from_slice(alloc, rule.xm.as_slice())?;
    Ok(ColumnList {
        master: rule.master,
        columns: List::from(columns),
    })
}

fn is_looked_up(earlier: &[EditRule], rule: &EditRule) -> bool
    ensures { result ≡ list_any (λ other. is_same_list (columns_of other) (columns_of rule.now)) earlier.now }
{
    earlier
        .iter()
        .any(|other| other.master == rule.master && other.xm == rule.xm)
}

/// The lists of master columns in which the editing rules look values up, each once, in the order of the rules.
pub fn master_lists(alloc: Global, rules: &RuleBook) -> Result<Vec<ColumnList>, AllocError>
    ensures { IfOk result (λ lists. lists.items ≡ master_lists rules.now) }
{
    let edits = rules.edits().as_slice();
    let mut lists = Vec::new(alloc);
    for (place, rule) in edits.iter().enumerate() {
        if !is_looked_up(&edits[..place], rule) {
            lists.push(list_of(alloc, rule)?)?;
        }
    }
    Ok(lists)
}

/// Whether the table is master data.
pub(crate) fn is_master_table(schema: &Schema, table: usize) -> bool
    ensures { result ≡ master_at schema.now table }
{
    match schema.tables.as_slice().get(table) {
        Some(found) => found.master,
        None => false,
    }
}

/// Follows a row from its old tuple to its new one, if its table is master data. After a refusal the rows are as before.
pub(crate) fn follow_as_master<L: Ledger>(
    masters: &mut MasterIndex,
    is_master: bool,
    table: usize,
    row: RowId,
    old: Option<&Tuple>,
    new: Option<&Tuple>,
    steps: &mut Steps<L>,
) -> Result<(), AllocError>
    requires there { IsTrue is_master → finite.get masters.old.rows (table, row) ≡ ids_behind old }
    requires wide { ForSome (ids_behind new) (IsWideFor masters.old.lists table) }
    ensures ok { OnOk result (FollowAsMaster is_master table row (ids_behind new.entry) masters.old masters.new) }
    ensures err { OnErr result (masters.new ≡ masters.old) }
    ensures lost { ids_behind new.entry ≡ None → result ≡ Ok tt }
    ensures probes { steps.new ≤ steps.old + 2 * lists_of masters.old.lists table }
{
    if !is_master {
        return Ok(());
    }
    match (old, new) {
        (None, None) => Ok(()),
        (None, Some(new)) => masters.add(table, row, new, steps),
        (Some(_), None) => {
            masters.remove(table, row, steps);
            Ok(())
        }
        (Some(_), Some(new)) => masters.replace(table, row, new, steps),
    }
}
