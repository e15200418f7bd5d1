//! What a conditional dependency asks of the rows of a table, and which rows violate it. One set of definitions serves
//! values of any kind that have a test of equality: texts, and the ids that stand for them.
//! The programs here compare every row with every row. They are slow and plain, and each index is held against them.
#![tactic(auto)]

mod dependency;
mod inclusion;
mod orphan;
mod pattern;
mod tuple;
mod value_set;
mod violation;

pub use dependency::{Dependency, TableauRow};
pub use inclusion::{Inclusion, InclusionRow};
pub use orphan::{orphaned, orphans};
pub use pattern::{Pattern, copied_cells};
pub use tuple::Row;
pub use value_set::ValueSet;
pub use violation::{Violation, violating, violations};
