//! The top call of `cfdview`: what the words ask for is done over a shelf and a sink, and a status says how that went.
//! What is written is one of the outputs that are allowed for what the words ask (`specs/Asked.antt`).
#![tactic(auto)]

mod program;

pub use cli_output::Status;
pub use program::{run, run_in, run_with};
pub use project_files::Caller;
pub use view_words::fault_text;
