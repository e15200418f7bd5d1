//! Moves of editing rules and runs of them. A move corrects one attribute of a tuple from a row of a master
//! table, where all that the rule reads is validated; a run is a list of moves, each applying in its place.
#![tactic(auto)]

mod lookup;
pub mod marks;
pub mod moves;
mod next;
mod ready;
pub mod runs;

pub use lookup::rows_to_try;
pub use marks::Marks;
pub use moves::{Move, Start};
pub use next::{applies, first_move};
pub use runs::{Run, RunCheck, close_without, extend, run_ok};
