//! What an edit did, and why one is refused.

ghost use Rattle.std.specs.Prelude.{◌≡◌};
ghost use Rattle.bench_core.specs.declared.edit.EditFault.TheVariants as edit_fault;
ghost use Rattle.bench_core.specs.declared.edit.LoadFault.TheVariants as load_fault;
ghost use Rattle.bench_core.specs.declared.edit.RedoFault.TheVariants as redo_fault;
ghost use Rattle.bench_core.specs.declared.edit.UndoFault.TheVariants as undo_fault;

use row_store::RowId;
use schema_core::Text;
use std::alloc::AllocError;
use thiserror::Error;

/// What an accepted edit did.
#[derive(Clone, Copy, PartialEq, Eq)]
pub enum Applied {
    /// A row was added, and has this id.
    Inserted(RowId),
    /// A row that was there is changed or gone.
    Changed,
}

/// Why an edit is refused. The variants stand in the order in which they are tested.
#[derive(Debug, Drop, Error, PartialEq, Eq)]
pub enum EditFault {
    #[error("there is no such table")]
    UnknownTable,
    #[error("the table has no such row")]
    UnknownRow,
    #[error("the table has no such attribute")]
    UnknownAttr,
    #[error("the table has more or fewer attributes than there are values")]
    WrongWidth,
    #[error("a value is too long")]
    TextTooLong,
    /// The attribute whose domain lacks its value, the first one in the order of the schema.
    #[error("a value is not in the domain of its attribute")]
    NotInDomain(Text),
    #[error("there is no room for another row")]
    RowsFull,
    #[error("the last row id is spent")]
    IdsSpent,
    #[error("out of memory")]
    Memory,
}

/// Why tables are not loaded.
#[derive(Debug, Drop, Error)]
pub enum LoadFault {
    /// The first table with which there are too many rows, or too many cells of indexes.
    #[error("table {table} has too many rows")]
    RowsFull { table: usize },
    #[error("out of memory")]
    Memory,
}

/// Why nothing is undone.
#[derive(Debug, Drop, Error, PartialEq, Eq)]
pub enum UndoFault {
    #[error("there is nothing to undo")]
    NothingToUndo,
    #[error("out of memory")]
    Memory,
}

/// Why nothing is redone.
#[derive(Debug, Drop, Error, PartialEq, Eq)]
pub enum RedoFault {
    #[error("there is nothing to redo")]
    NothingToRedo,
    #[error("out of memory")]
    Memory,
}

impl From<AllocError> for EditFault {
    ghost from_gives = { λ _ e. e ≡ edit_fault.Memory };

    fn from(_e: AllocError) -> EditFault {
        EditFault::Memory
    }
}

impl From<AllocError> for LoadFault {
    ghost from_gives = { λ _ e. e ≡ load_fault.Memory };

    fn from(_e: AllocError) -> LoadFault {
        LoadFault::Memory
    }
}

impl From<AllocError> for UndoFault {
    ghost from_gives = { λ _ e. e ≡ undo_fault.Memory };

    fn from(_e: AllocError) -> UndoFault {
        UndoFault::Memory
    }
}

impl From<AllocError> for RedoFault {
    ghost from_gives = { λ _ e. e ≡ redo_fault.Memory };

    fn from(_e: AllocError) -> RedoFault {
        RedoFault::Memory
    }
}
