//! What the forms of `cfdview` are asked for: their words, and the options that stand among them.
#![tactic(auto)]

pub mod options;

pub use options::{ListOptions, PageOptions, RowOptions};
