//! A project as its files tell it: its rules, its tables on a bench, and the commands of its script; and what a
//! call is told of who makes it.
#![tactic(auto)]

mod caller;
mod project;
mod tables;

pub use caller::{Caller, release};
pub use project::{Project, fetch_bench, fetch_project};
pub use tables::fetch_tables;
