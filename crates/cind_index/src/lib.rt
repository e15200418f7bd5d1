//! Both sides of an inclusion R1[X; Xp] in R2[Y; Yp], kept in step with the rows. It knows value ids and no texts.
//! Contracts see two sets of entries, one a side, and how many keys have an orphan.
//!
//! Under a key stand the rows of both sides by their pattern values. Keys with an orphan are marked and come first, so the
//! orphans are found by going over these alone. A change of a row costs a hash for each side that it is on, a search among
//! the key's rows, and a look at each row of the tableau. Where the tableau has few rows, as in most rules, the number of
//! orphans of each is kept as a running total, and asking for it costs the same however many keys are dirty.
#![tactic(auto)]

mod both_sides;
mod ids;
mod index;
mod key_rows;
mod keys;
mod pattern_rows;
mod row_set;
mod side;
mod side_rows;
mod sides;
mod totals;
mod watch;

pub use cfd_semantics::Inclusion;
pub use index::{CindIndex, IdPairRow};
