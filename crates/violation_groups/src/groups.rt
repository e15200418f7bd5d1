//! Rows by the values that they have.

use row_store::RowId;
use text_lists::{List, Text, Texts};

/// The listed rows with one value on the right side of a dependency, by rising ids.
#[derive(Drop)]
pub struct ValueRows {
    pub value: Text,
    pub rows: List<RowId>,
}

/// The rows that are listed for a tableau row of a dependency, and that share their values on its left side: by the value
/// that they have on its right side, the rarest first.
#[derive(Drop)]
pub struct Group {
    pub k: usize,
    pub key: Texts,
    pub values: List<ValueRows>,
}

/// The rows that are listed for a tableau row of an inclusion and that have the same key, which is missing on its right
/// side.
#[derive(Drop)]
pub struct Missing {
    pub k: usize,
    pub key: Texts,
    pub rows: List<RowId>,
}

/// What is found: for each dependency its groups, and for each inclusion the keys that are missing. Rules stand in the
/// order of the rule book, groups by how many rows they have, the largest first.
#[derive(Drop)]
pub struct Findings {
    pub deps: List<List<Group>>,
    pub cinds: List<List<Missing>>,
}
