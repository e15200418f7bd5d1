//! Rows of tables as they are read, one by one: whoever takes them need not keep the texts of a row.
//!
//! `PooledTables` keeps each text once, in a pool, and a row as a tuple of ids, in which a state is made. So a table that
//! is read needs no texts of its own beside the pool. A plain list of texts takes rows, too.
#![tactic(auto)]

mod pooled;
mod taker;

pub use pooled::PooledTables;
pub use taker::RowTaker;
