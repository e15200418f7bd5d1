//! The rows of master tables, looked up by their ids and by the values in columns that were handed in. Contracts see
//! the lists of columns and a finite map from table and row to tuples, of which the look-up by values gives exactly
//! the rows that have them.
//!
//! A change of a row costs a hash for each list of columns of its table, a binary search and a move among the
//! rows with the same values, and a look at the tuple of the first of them. A look-up by values costs a hash.
#![tactic(auto)]

mod column_index;
mod column_list;
mod column_rows;
mod column_set;
mod index;
mod key;
mod lists;
mod rising;
mod tables;

pub use column_list::ColumnList;
pub use index::MasterIndex;
