//! Certificates as text: the answer to a question about the rules of a table, with what shows it. One is read from the
//! lines of a file, and written from its parts.
#![tactic(auto)]

pub mod answers;
pub mod cert;
pub mod fault;
pub mod names;
mod nodes;
mod parse;
mod print;
mod questions;
mod seen;
pub mod tree_nodes;
mod variables;

pub use cert::{Answer, Asked, Cert, CertParts, NodeLine, Question, TreeLines, TupleLine};
pub use fault::{CertCause, CertFault};
pub use names::{CellName, NodeName, ReasonName, VarName};
pub use parse::parse_cert;
pub use print::{
    counter_text, print_cert, push_cell, push_equality, push_texts, push_value, tree_head,
    witness_text,
};
pub use tree_nodes::{NodePlace, TreeNodes};
