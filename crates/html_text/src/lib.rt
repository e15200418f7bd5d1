//! Texts in a page of HTML: no byte of a text is markup there (`specs/Escaped.antt`). And the few elements that pages
//! are made of, each appended to a buffer.
#![tactic(auto)]

mod elements;
mod escaping;
mod fronts;

pub use elements::{
    push_between, push_bold, push_cell, push_code, push_marked, push_more, push_number_between,
    push_number_cell, push_size,
};
pub use escaping::{push_escaped, push_escaped_bytes};
pub use fronts::{count_at, front_of, item};
