//! The lines of a script: a list of commands, one a line.
#![tactic(auto)]

pub mod command;
pub mod script;

pub use command::{Command, ScriptCause, ScriptFault};
pub use script::parse_script;
