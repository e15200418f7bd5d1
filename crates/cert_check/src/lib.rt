//! What certificates say about rules is checked here. A certificate names tables, variables and cells; over a rule book
//! these names stand for numbers, and its tuples and its tree are judged by what the deciders' questions ask. What the
//! deciders answer is written as certificates, node by node from its number.
#![tactic(auto)]

mod check;
mod copies;
mod made;
mod named;
mod names;
mod places;
mod tree_lines;
mod trees;
mod tuples;
pub mod verdict;

pub use check::check_cert;
pub use made::{consistency_text, implication_text};
pub use tree_lines::tree_text;
pub use verdict::CertVerdict;
