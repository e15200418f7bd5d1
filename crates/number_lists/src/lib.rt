//! A small reader, as an example of how one is made over `line_grammar`: a file of named lists of numbers, one a
//! line, such as `ports: 80, 443`. Its grammar is one file of `specs/`, and the code reads a line as the
//! grammar is written.
#![tactic(auto)]

mod lists;
mod rules;

pub use lists::{NumberCause, NumberFault, parse_lists};
pub use rules::NumberList;
