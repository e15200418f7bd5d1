//! Inclusion dependencies, over the numbers of a schema.

use cfd_semantics::{Inclusion, InclusionRow};
use schema_core::Text;

/// A tableau row: a constant for each attribute that has them on the left, and on the right.
pub type CindRow = InclusionRow<Text>;

/// An inclusion dependency of a left table in a right one. Tables and attributes are numbered from 0, in
/// the order of the schema.
#[derive(Drop)]
pub struct Cind {
    pub name: Text,
    pub left: usize,
    pub right: usize,
    pub rule: Inclusion<Text>,
}
