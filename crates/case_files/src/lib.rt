//! Cases: whole calls of a program as lines of a file, with the status and the bytes that are wanted of each.
//! `run_folder` reads the case files of a folder, makes the calls over devices in memory, and tells which of them
//! go otherwise. Which programs there are, it takes from its caller.
#![tactic(auto)]

mod case;
mod differences;
mod folder;
mod limits;
mod reader;
mod report;

pub use case::{Case, CaseFile};
pub use folder::{Programs, run_folder};
