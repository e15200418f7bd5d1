//! Table files: the rows of a table as the records of a CSV file, and the file of a list of rows. What a
//! record is, and how it is written, is what the crate `csv` says in its default dialect; this crate
//! adds the header, whose columns may come in any order, and the limits and domains of the table.
//! The rows of a file are kept as texts, or go to a taker one by one.
//! Whoever reads a file under no table takes its records one after another, and their fields as texts.
#![tactic(auto)]

mod columns;
mod fault;
mod fields;
mod reading;
mod records;
mod writing;

pub use fault::TableFault;
pub use fields::{field_text, has_longer_field};
pub use reading::{read_rows, read_table};
pub use records::FileRecords;
pub use writing::write_table;
