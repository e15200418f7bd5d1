//! The entries of a desk: the accepted edits of several editors, in one list. An editor's last live entry, a row's version
//! and whether somebody built on an entry are each found by one look-up in a map, however long the list is.
#![tactic(auto)]

pub mod entries;

pub use entries::{Entries, Kept, NewEntry};
