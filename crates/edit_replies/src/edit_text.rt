//! The texts that tell of an edit, done or refused, each appended to a buffer.

ghost use Rattle.std.specs.Prelude.{◌≡◌, ◌++◌, codes, decimal, OnOk};
ghost use Rattle.bench_core.specs.Edited.{name_of_table};
ghost use Rattle.edit_replies.specs.EditReplies.{changed_text, done_text, fault_text, refused_text};

use bench_core::{Applied, EditFault};
use edit_log::Edit;
use schema_core::{Text, push_number};
use std::alloc::AllocError;

/// A word, and the row that it is said of.
pub fn push_row(out: &mut Vec<u8>, word: &[u8], table: &Text, row: u64) -> Result<(), AllocError>
    ensures { OnOk result (out.new.items ≡ out.old.items ++ (word.now ++ table.now ++ codes " " ++ decimal row)) }
{
    out.extend_from_slice(word)?;
    out.extend_from_slice(table.as_str().as_bytes())?;
    out.extend_from_slice(b" ")?;
    push_number(out, row)
}

fn table_of(edit: &Edit) -> &Text
    ensures { result.now ≡ name_of_table edit.now }
{
    match edit {
        Edit::Insert { table, .. }
        | Edit::Set { table, .. }
        | Edit::Delete { table, .. }
        | Edit::Fix { table, .. } => table,
    }
}

fn push_changed(out: &mut Vec<u8>, edit: &Edit) -> Result<(), AllocError>
    ensures { OnOk result (out.new.items ≡ out.old.items ++ changed_text edit.now) }
{
    match edit {
        Edit::Set {
            table,
            row,
            attr,
            ..
        } => {
            push_row(out, b"set ", table, *row)?;
            out.extend_from_slice(b" ")?;
            out.extend_from_slice(attr.as_str().as_bytes())?;
            out.extend_from_slice(b"\n")
        }
        Edit::Delete { table, row } => {
            push_row(out, b"deleted ", table, *row)?;
            out.extend_from_slice(b"\n")
        }
        Edit::Insert { .. } | Edit::Fix { .. } => Ok(()),
    }
}

/// Tells an edit that was done.
pub fn push_done(out: &mut Vec<u8>, edit: &Edit, applied: Applied) -> Result<(), AllocError>
    ensures { OnOk result (out.new.items ≡ out.old.items ++ done_text edit.now applied) }
{
    match applied {
        Applied::Inserted(row) => {
            push_row(out, b"inserted ", table_of(edit), row)?;
            out.extend_from_slice(b"\n")
        }
        Applied::Changed => push_changed(out, edit),
    }
}

fn push_fault(out: &mut Vec<u8>, fault: &EditFault) -> Result<(), AllocError>
    ensures { OnOk result (out.new.items ≡ out.old.items ++ fault_text fault.now) }
{
    match fault {
        EditFault::UnknownTable => out.extend_from_slice(b"UnknownTable"),
        EditFault::UnknownRow => out.extend_from_slice(b"UnknownRow"),
        EditFault::UnknownAttr => out.extend_from_slice(b"UnknownAttr"),
        EditFault::WrongWidth => out.extend_from_slice(b"WrongWidth"),
        EditFault::TextTooLong => out.extend_from_slice(b"TextTooLong"),
        EditFault::NotInDomain(attr) => {
            out.extend_from_slice(b"NotInDomain ")?;
            out.extend_from_slice(attr.as_str().as_bytes())
        }
        EditFault::RowsFull => out.extend_from_slice(b"RowsFull"),
        EditFault::IdsSpent => out.extend_from_slice(b"IdsSpent"),
        EditFault::Memory => out.extend_from_slice(b"Memory"),
    }
}

/// Tells that a command is refused.
pub fn push_refused(out: &mut Vec<u8>, cause: &[u8]) -> Result<(), AllocError>
    ensures { OnOk result (out.new.items ≡ out.old.items ++ refused_text cause.now) }
{
    out.extend_from_slice(b"refused ")?;
    out.extend_from_slice(cause)?;
    out.extend_from_slice(b"\n")
}

/// Tells an edit that was refused.
pub fn push_edit_refused(out: &mut Vec<u8>, fault: &EditFault) -> Result<(), AllocError>
    ensures { OnOk result (out.new.items ≡ out.old.items ++ refused_text (fault_text fault.now)) }
{
    out.extend_from_slice(b"refused ")?;
    push_fault(out, fault)?;
    out.extend_from_slice(b"\n")
}
