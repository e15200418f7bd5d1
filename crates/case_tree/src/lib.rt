//! Case trees: certificates that a set of clauses over cells of variables has no allowed assignment.
//!
//! Order: the nodes of a tree are a list in preorder, the subtree of a true variable before that of a false one.
//! Cost: `check` makes one pass over the nodes, looks at each node at what its reason names, and takes no memory beyond a
//! path that is made once.
//!
//! It accepts a tree exactly where every node is right, and a closed tree means that no assignment is allowed. Here are
//! variables and clauses; what they stand for is the caller's.
#![tactic(auto)]

mod checker;
mod clauses;
mod reasons;
mod trail;
mod tree;

pub use checker::{Checked, Path, check};
pub use clauses::{Clauses, Literal, VarCell};
pub use reasons::holds;
pub use trail::Trail;
pub use tree::{Node, Reason, Tree};
