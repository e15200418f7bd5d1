//! A schema as a draft: what table files by themselves tell of the tables that they may be the files of.
#![tactic(auto)]

mod columns;
mod draft;
mod names;
mod repeats;
mod sheet;

pub use columns::{FEW, column_of, few_values, is_key};
pub use draft::draft_of;
pub use names::{is_name, tables_of};
pub use sheet::{Sheet, read_sheet, record_at, record_count};
