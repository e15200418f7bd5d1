//! The rows of a table by their ids, and what it means to be kept in step with them (`Watch`).
//!
//! Order: rows are walked by rising ids, and an id that was given isn't given again by itself.
//! Cost: each call but the walk takes constant time, and the walk looks at each id below the next one. Once `ready_insert`
//! has made room, a row is put, changed and taken away without memory, so an edit that was accepted can't fail any more.
//! Tuples are shared, so that a log of changes keeps old ones at no cost.
#![tactic(auto)]

mod key;
mod rows;
mod store;
mod watch;
mod watches;

pub use key::{Key, agree, make_room, write_key};
pub use rows::Rows;
pub use store::{RowId, RowStore, Tuple};
pub use watch::Watch;
pub use watches::{add_to_all, remove_from_all};
