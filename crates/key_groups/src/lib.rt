//! Items by their keys: those with equal keys come together, in groups that can be arranged by how many items they have.
#![tactic(auto)]

mod grouping;
mod sizes;

pub use grouping::by_key;
pub use sizes::{largest_first, rarest_first};
