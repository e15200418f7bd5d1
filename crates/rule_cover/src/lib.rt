//! A smaller set of rules for a table. A piece is a dependency of the table with one of its tableau rows; each piece is asked,
//! one after the other, whether the others that stay imply it, and those that are implied are dropped.
#![tactic(auto)]

pub mod fates;
mod finder;
mod pieces;
mod rounds;
mod text;

pub use fates::{CoverFault, Fate, Piece, PieceFates};
pub use finder::cover;
pub use text::cover_text;
