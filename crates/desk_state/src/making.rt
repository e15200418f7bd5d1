//! The entry of an edit, and the edit that takes an entry back.

ghost use Rattle.std.specs.Prelude.{◌≡◌, IfOk};
ghost use Rattle.bench_core.specs.Edited.{name_of_table};
ghost use Rattle.desk_entries.specs.Kept.{entry_new};
ghost use Rattle.desk_state.specs.Desk.{before_in, entry_in, is_delete, named_row, opposite, row_of_edit, table_name, table_of_edit};

use bench_core::{Applied, Bench};
use desk_entries::NewEntry;
use edit_log::Edit;
use row_store::RowId;
use rule_model::RuleBook;
use schema_core::{Text, Texts};
use std::alloc::{AllocError, Global};

fn name_of_table(edit: &Edit) -> &Text
    ensures { result.now ≡ name_of_table edit.now }
{
    match edit {
        Edit::Insert { table, .. }
        | Edit::Set { table, .. }
        | Edit::Delete { table, .. }
        | Edit::Fix { table, .. } => table,
    }
}

fn named_row(edit: &Edit) -> RowId
    ensures { result ≡ named_row edit.now }
{
    match edit {
        Edit::Insert { .. } => 0,
        Edit::Set { row, .. } | Edit::Delete { row, .. } | Edit::Fix { row, .. } => *row,
    }
}

fn is_delete(edit: &Edit) -> bool
    ensures { result ≡ is_delete edit.now }
{
    match edit {
        Edit::Delete { .. } => true,
        Edit::Insert { .. } | Edit::Set { .. } | Edit::Fix { .. } => false,
    }
}

/// The row of an accepted edit.
pub(crate) fn row_of_edit(edit: &Edit, applied: Applied) -> RowId
    ensures { result ≡ row_of_edit edit.now applied }
{
    match applied {
        Applied::Inserted(row) => row,
        Applied::Changed => named_row(edit),
    }
}

/// The number of the table that an edit names, 0 where there is none.
fn table_of_edit(rules: &RuleBook, edit: &Edit) -> usize
    ensures { result ≡ table_of_edit rules.now edit.now }
{
    match rules.schema().table_named(name_of_table(edit).as_str()) {
        Some(number) => number,
        None => 0,
    }
}

fn texts_before(
    alloc: Global,
    bench: &Bench,
    table: usize,
    edit: &Edit,
) -> Result<Option<Texts>, AllocError>
    ensures { IfOk result (λ texts. texts ≡ before_in bench.now.history.present table edit.now) }
{
    match edit {
        Edit::Insert { .. } => Ok(None),
        Edit::Set { row, .. } | Edit::Delete { row, .. } | Edit::Fix { row, .. } => {
            bench.row_texts(alloc, table, *row)
        }
    }
}

/// The entry of an edit of the row that it names.
pub(crate) fn new_entry(
    alloc: Global,
    bench: &Bench,
    editor: &Text,
    takes: Option<usize>,
    edit: &Edit,
) -> Result<NewEntry, AllocError>
    ensures { IfOk result (λ entry. entry_new entry ≡ entry_in bench.now.rules bench.now.history.present editor.now takes edit.now (named_row edit.now)) }
{
    let table = table_of_edit(bench.rules(), edit);
    Ok(NewEntry {
        editor: editor.clone()?,
        table,
        row: named_row(edit),
        before: texts_before(alloc, bench, table, edit)?,
        deletes: is_delete(edit),
        takes,
    })
}

/// The name of a numbered table, or no text where there is none.
fn table_name(alloc: Global, rules: &RuleBook, number: usize) -> Result<Text, AllocError>
    ensures { IfOk result (λ name. name ≡ table_name rules.now.schema number) }
{
    match rules.schema().tables.as_slice().get(number) {
        Some(table) => table.name.clone(),
        None => Text::new(alloc, ""),
    }
}

/// The edit that takes an entry back.
pub(crate) fn opposite(
    alloc: Global,
    rules: &RuleBook,
    entry: &NewEntry,
) -> Result<Edit, AllocError>
    ensures { IfOk result (λ edit. edit ≡ opposite rules.now.schema (entry_new entry.now)) }
{
    let table = table_name(alloc, rules, entry.table)?;
    match &entry.before {
        None => Ok(Edit::Delete {
            table,
            row: entry.row,
        }),
        Some(texts) => {
            let values = texts.copied()?;
            if entry.deletes {
                Ok(Edit::Insert { table, values })
            } else {
                Ok(Edit::Fix {
                    table,
                    row: entry.row,
                    values,
                })
            }
        }
    }
}
