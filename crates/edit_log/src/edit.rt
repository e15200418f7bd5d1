//! An edit of one row, as the user asks for it: tables and attributes by name, values as texts.
use row_store::RowId;
use text_lists::text::{Text, Texts};

pub enum Edit {
    /// A new row, at the table's next id.
    Insert {
        table: Text,
        values: Texts,
    },
    /// Another value of one attribute.
    Set {
        table: Text,
        row: RowId,
        attr: Text,
        value: Text,
    },
    Delete {
        table: Text,
        row: RowId,
    },
    /// All values of a row, as editing rules found them.
    Fix {
        table: Text,
        row: RowId,
        values: Texts,
    },
}

// By hand, so that whatever drops an edit calls this, and isn't proved for each kind of edit.
impl Drop for Edit {
    fn drop(self) {
        match self {
            Edit::Insert {
                table: _,
                values: _,
            }
            | Edit::Set {
                table: _,
                row: _,
                attr: _,
                value: _,
            }
            | Edit::Delete { table: _, row: _ }
            | Edit::Fix {
                table: _,
                row: _,
                values: _,
            } => {}
        }
    }
}
