//! The members of a set cell.

ghost use Rattle.std.specs.Prelude.{◌≡◌, IfOk};

use std::alloc::{AllocError, Global};
use std::marker::Model;
use text_lists::{List, Text};

/// Values, in their order. They lie behind a pointer, since most cells of a tableau are no sets and a cell is as large as
/// the largest that it can be.
#[derive(Drop)]
pub struct ValueSet<V> {
    list: Box<List<V>>,
}

impl<V> Model for ValueSet<V> {
    ghost use Rattle.std.specs.Prelude as prelude;

    ghost Value = { prelude.List V };

    ghost view = { λ set. set.list.value };
}

impl<V: Drop> ValueSet<V> {
    /// The set of these.
    pub fn new(alloc: Global, list: List<V>) -> Result<ValueSet<V>, AllocError>
        ensures { IfOk result (λ set. set ≡ list) }
    {
        let list = Box::new(alloc, list)?;
        Ok(ValueSet { list })
    }
}

impl<V> ValueSet<V> {
    pub fn as_slice(&self) -> &[V]
        ensures { result.now ≡ self.now }
    {
        self.list.as_slice()
    }
}

impl ValueSet<Text> {
    /// The same set, with memory of its own.
    pub fn copied(&self) -> Result<ValueSet<Text>, AllocError>
        ensures { IfOk result (λ copy. copy ≡ self.now) }
    {
        let list = self.list.clone()?;
        Ok(ValueSet { list })
    }
}
