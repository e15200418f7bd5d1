//! The tables of a project and the edits that are made to them. A bench has a history: past states, the present one and
//! those that were undone, where a state is the rows of each table by rising ids and its next id. An edit leads to the
//! state that the definition `edited` gives, or is refused for the first cause that holds and changes nothing; undo and
//! redo go one state back and forward.
//!
//! Rows are kept as tuples of value ids, and the log keeps what each edit changed. An index for each rule follows each row
//! that is loaded, edited, undone or redone. An edit costs a look-up of each of its texts and a step of each kind, and the
//! probes that `edit_probes` counts, whatever the number of rows.
#![tactic(auto)]

mod bench;
mod changes;
mod checks;
mod edit;
mod loading;
mod project;
mod queries;
mod sizes;
mod target;
mod tuples;

pub use bench::{Bench, RowAt};
pub use edit::{Applied, EditFault, LoadFault, RedoFault, UndoFault};
pub use queries::BenchQueries;
pub use tuples::texts_of;
