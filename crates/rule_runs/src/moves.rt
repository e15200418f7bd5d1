//! Moves, and where they start from.

use crate::marks::Marks;
use master_index::MasterIndex;
use row_store::{RowId, Tuple};
use rule_model::RuleBook;
use value_pool::Pool;

/// An editing rule, by its number in the rule book, and a row of its master table.
#[derive(Clone, Copy, PartialEq, Eq)]
pub struct Move {
    pub rule: usize,
    pub master: RowId,
}

/// A tuple of a table with the attributes that are vouched for, and all that it may be corrected by.
#[derive(Clone, Copy)]
pub struct Start<'a> {
    pub rules: &'a RuleBook,
    pub pool: &'a Pool,
    pub masters: &'a MasterIndex,
    pub table: usize,
    pub tuple: &'a Tuple,
    pub vouched: Marks,
}
