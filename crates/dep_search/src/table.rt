//! A table by numbers.

use text_lists::{List, Texts};

/// Its rows, for each attribute the rows by the texts there, and how many rows a constant dependency has.
#[derive(Clone, Copy)]
pub struct Table<'a> {
    pub rows: &'a [Texts],
    pub columns: &'a [List<usize>],
    pub support: usize,
}
