//! The dependencies that the rows of a table satisfy, as rules, and their text, which is a rule file.
#![tactic(auto)]

mod deps;
mod text;

pub use dep_search::FindFault;
pub use deps::find_deps;
pub use text::found_text;
