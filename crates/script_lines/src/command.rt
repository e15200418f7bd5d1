//! The commands of a script, and why a script is refused.

use edit_log::Edit;
use row_store::RowId;
use schema_core::{Limit, LineFault, Text, Texts};

/// One line of a script.
#[derive(Drop)]
pub enum Command {
    Edit(Edit),
    /// Corrects a row by the editing rules, where the named attributes are vouched for.
    Fix {
        table: Text,
        row: RowId,
        vouched: Texts,
    },
    /// Takes the last change back.
    Undo,
    /// Makes the change again that was taken back last.
    Redo,
    /// Every violation that the rows have now.
    List,
    /// How many lines the list has.
    Count,
    /// The lines of the list that a row has.
    Explain {
        table: Text,
        row: RowId,
    },
    /// The rows of a table, as a table file.
    Export {
        table: Text,
    },
}

/// What is wrong with a line of a script.
#[derive(Clone, Copy, PartialEq, Eq)]
pub enum ScriptCause {
    NotUtf8,
    BadLine,
    TooMany(Limit),
}

/// Why a script is refused.
pub type ScriptFault = LineFault<ScriptCause>;
