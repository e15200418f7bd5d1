//! The violations of a bench: which rows break which rule, as a list and as lines of text. The list is the one of the
//! definition `listing`, and it is empty exactly where the rows satisfy all dependencies and inclusion dependencies.
#![tactic(auto)]

mod clean;
mod counting;
mod explaining;
mod frame;
mod json;
mod line;
mod listing;
mod rules;
mod taker;
mod told;
mod walking;

pub use clean::is_clean;
pub use counting::count;
pub use explaining::{ExplainFault, explain};
pub use json::json_report;
pub use line::{Line, line_text, push_counted, push_line, push_lines};
pub use listing::{list, push_list};
