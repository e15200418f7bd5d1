//! The cells of a pattern tableau.

ghost use Rattle.std.specs.Prelude.{◌≡◌, IfOk};

use crate::value_set::ValueSet;
use std::alloc::{AllocError, Global};
use text_lists::{List, Text};

/// What a cell asks of a value: nothing, to be the constant, to be in the set, or not to be in it.
#[derive(Drop)]
pub enum Pattern<V> {
    Any,
    Is(V),
    In(ValueSet<V>),
    NotIn(ValueSet<V>),
}

impl<V> Pattern<V> {
    ghost use Rattle.cfd_semantics.specs.Pattern.{is_set};

    /// Whether the cell is a set or the complement of one.
    pub fn is_set(&self) -> bool
        ensures { result ≡ is_set self.now }
    {
        matches!(self, Pattern::In(_) | Pattern::NotIn(_))
    }
}

impl<V: PartialEq> Pattern<V> {
    ghost use Rattle.cfd_semantics.specs.Pattern.{matches};

    /// Whether the value is one that the cell asks for.
    pub fn matches(&self, value: &V) -> bool
        ensures { result ≡ matches V.eq self.now value.now }
    {
        match self {
            Pattern::Any => true,
            Pattern::Is(constant) => constant == value,
            Pattern::In(members) => members.as_slice().contains(value),
            Pattern::NotIn(members) => !members.as_slice().contains(value),
        }
    }
}

impl Pattern<Text> {
    /// The same cell, with memory of its own.
    pub fn copied(&self) -> Result<Pattern<Text>, AllocError>
        ensures { IfOk result (λ copy. copy ≡ self.now) }
    {
        match self {
            Pattern::Any => Ok(Pattern::Any),
            Pattern::Is(value) => Ok(Pattern::Is(value.clone()?)),
            Pattern::In(members) => Ok(Pattern::In(members.copied()?)),
            Pattern::NotIn(members) => Ok(Pattern::NotIn(members.copied()?)),
        }
    }
}

/// The same cells, with memory of their own.
pub fn copied_cells(
    alloc: Global,
    cells: &[Pattern<Text>],
) -> Result<List<Pattern<Text>>, AllocError>
    ensures { IfOk result (λ copies. copies ≡ cells.now) }
{
    let mut copies = List::new(alloc);
    for cell in cells {
        copies.push(cell.copied()?)?;
    }
    Ok(copies)
}
