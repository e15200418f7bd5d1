//! The groups of one dependency X -> A: the rows of a table by their ids on X, each group with the A ids of its rows. It
//! is kept in step with the rows, and knows ids of values and no texts. Contracts see it as the set of the entries that
//! the rows give, with the number of its dirty groups, those in which some row violates some tableau row; that number is
//! right while no row has two entries.
//!
//! A change of a row costs a hash and a search in its group, which takes logarithmic time however many rows that
//! has, and a look at each tableau row only where the group comes, where its A ids become alike, mixed, or another
//! one, or where totals are kept. The dirty groups are marked, and only they are gone through for the
//! violations. A lone row that changes its A id takes no memory and no mark on the way.
//!
//! How many violations a tableau row has is kept as a running total where the tableau has few rows and the row no set at its
//! right, and is answered without a look at any group; else each dirty group is gone over.
#![tactic(auto)]

mod counting;
mod few;
mod group;
mod groups;
mod index;
mod key;
mod leads;
mod spread;
mod tableau;
mod totals;
mod turning;
mod violations;

pub use index::{GroupIndex, IdCell, IdRow};
