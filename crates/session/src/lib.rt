//! A script and its answers. Each command is answered by one reply over the state that the commands before it leave, and
//! what is written is a transcript of them.
#![tactic(auto)]

mod export;
mod reply;
pub mod serving;

pub use script_lines::{Command, ScriptCause, ScriptFault, parse_script};
pub use serving::{ServeFault, perform, serve};
