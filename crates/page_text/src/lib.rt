//! A project as a page of HTML: which tables were read, which rows break its rules, by the groups in which they do. The
//! page's text is a definition over what is found (`specs/Page.antt`), in which each text from outside is escaped.
#![tactic(auto)]

mod checks;
mod groups;
mod kinds;
mod markup;
mod missing;
mod overview;
mod page;
mod rows;
mod sections;
mod totals;
mod words;

pub use page::{Options, page_text};
pub use rows::{RowCounts, Shown};
pub use totals::Counts;
