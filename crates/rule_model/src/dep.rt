//! Dependencies with one attribute on the right side, over the numbers of a schema.

use cfd_semantics::{Dependency, TableauRow};
use schema_core::Text;

/// A tableau row: a cell for each attribute of the left list, and one for the attribute on the right.
pub type DepRow = TableauRow<Text>;

/// A dependency of a table. Tables and attributes are numbered from 0, in the order of the schema.
pub struct Dep {
    pub name: Text,
    pub table: usize,
    pub rule: Dependency<Text>,
}

// By hand, so that whatever drops a dependency calls this, and isn't proved for each of its parts.
impl Drop for Dep {
    fn drop(self) {
        let Dep {
            name: _,
            table: _,
            rule: _,
        } = self;
    }
}
