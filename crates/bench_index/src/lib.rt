//! All indexes of a rule book: one for each dependency and each inclusion, and one of master rows by the columns that
//! editing rules match. They are kept in step with the rows of the tables. They know value ids; what they answer is told of
//! the texts that the ids name.
#![tactic(auto)]

mod all_indexes;
mod answers;
mod following;
mod ids;
mod index;
mod listing;
mod loading;
mod masters;
mod matching;
mod row_lines;

pub use all_indexes::AllIndexes;
pub use ids::{dependency_by_ids, inclusion_by_ids};
pub use index::BenchIndex;
pub use masters::master_lists;
