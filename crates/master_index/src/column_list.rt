//! A list of columns, as an editing rule looks at them.

use text_lists::List;

/// Columns of a master table, by which its rows are looked up.
#[derive(Drop)]
pub struct ColumnList {
    pub master: usize,
    pub columns: List<usize>,
}
