//! What an edit did to one row.
use row_store::{RowId, Tuple};

/// The row's tuple before and after. An inserted row has no old one, a deleted row no new one.
pub struct Change {
    pub table: usize,
    pub row: RowId,
    pub old: Option<Tuple>,
    pub new: Option<Tuple>,
}

// By hand, so that whatever drops a change calls this, and isn't proved for each of its parts.
impl Drop for Change {
    fn drop(self) {
        let Change {
            table: _,
            row: _,
            old: _,
            new: _,
        } = self;
    }
}
