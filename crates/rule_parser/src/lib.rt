//! Rule files, read in order into a rule book, and dependencies by themselves. One function reads one rule of the
//! grammar off the front of the tokens of a line.
#![tactic(auto)]

mod alone;
mod cells;
pub mod fault;
mod file;
pub mod heads;
mod print;
mod rows;

pub use alone::{DepLine, parse_dep};
pub use cells::CellPart;
pub use fault::{ParseCause, ParseFault};
pub use file::parse_rules;
pub use print::{
    Cells, Values, attr_name, attr_names, print_dep, print_rules, push_row, push_sides,
};
