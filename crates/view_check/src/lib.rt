//! The form `check PROJECT` of `cfdview`: what is off in a project before anything is asked, or what stands where a file
//! of it is refused.
#![tactic(auto)]

mod answer;
mod fetching;

pub use answer::look_at_project;
pub use fetching::{Off, Seen};
