//! The parts of a tree of cases by their names.

use cell_values::Which;
use text_lists::Text;

/// The values of an attribute in a tuple.
#[derive(Drop)]
pub struct CellName {
    pub tuple: Which,
    pub attr: Text,
}

#[derive(Drop)]
pub enum VarName {
    /// The tuple has the value there.
    Value(CellName, Text),
    /// The two tuples agree on the attribute.
    Equal(Text),
}

/// Why no assignment goes on from a leaf. Clauses are numbered from 1.
#[derive(Drop)]
pub enum ReasonName {
    Clause(u64),
    Two(VarName, VarName),
    NoneOf(CellName),
}

pub enum NodeName {
    Split(VarName),
    Leaf(ReasonName),
    Open,
}

// By hand, so that whatever drops a node calls this, and isn't proved for each kind of node.
impl Drop for NodeName {
    fn drop(self) {
        match self {
            NodeName::Split(_) | NodeName::Leaf(_) | NodeName::Open => {}
        }
    }
}
