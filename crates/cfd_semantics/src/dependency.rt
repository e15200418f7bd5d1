//! A conditional functional dependency X -> A: attributes on both sides, and a pattern tableau.

use crate::pattern::Pattern;
use text_lists::List;

/// A tableau row of a dependency: a cell for each attribute of X, and one for A.
#[derive(Drop)]
pub struct TableauRow<V> {
    pub x: List<Pattern<V>>,
    pub a: Pattern<V>,
}

/// A dependency: the attributes X, the attribute A, and the rows of its tableau. Attributes are places in a tuple.
#[derive(Drop)]
pub struct Dependency<V> {
    pub x: List<usize>,
    pub a: usize,
    pub rows: List<TableauRow<V>>,
}
