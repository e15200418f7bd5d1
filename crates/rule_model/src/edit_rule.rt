//! Editing rules, over the numbers of a schema.

use schema_core::{List, Text};

/// What a cell of an editing rule asks of a value: nothing, to be the constant, or not to be it.
#[derive(Drop)]
pub enum EditCell {
    Any,
    Is(Text),
    Not(Text),
}

/// An editing rule of a table, with a master table. Tables and attributes are numbered from 0, in the order
/// of the schema; `xm` and `source` are attributes of the master table.
#[derive(Drop)]
pub struct EditRule {
    pub name: Text,
    pub table: usize,
    pub master: usize,
    pub x: List<usize>,
    pub xm: List<usize>,
    pub target: usize,
    pub source: usize,
    pub when: List<(usize, EditCell)>,
}
