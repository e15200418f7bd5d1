//! Texts as tuples of value ids, and back.

ghost use Rattle.std.specs.Prelude.{◌≡◌, ◌<◌, length, map, slice_set, IfOk};
ghost use Rattle.row_store.specs.Tuple.{ids_if, ids_of};
ghost use Rattle.value_pool.specs.Pool.{KeepsIds};
ghost use Rattle.bench_core.specs.Stored.{HaveTexts, text_of};

use row_store::Tuple;
use schema_core::{List, Text, Texts};
use std::alloc::{AllocError, Global};
use std::rc::RcSlice;
use value_pool::{Pool, ValueId};

/// The tuple of texts, which are added to the pool where they are new.
pub(crate) fn intern_all(
    alloc: Global,
    pool: &mut Pool,
    texts: &[Text],
) -> Result<Tuple, AllocError>
    ensures texts { IfOk result (λ tuple. map (text_of pool.new) (ids_of tuple) ≡ texts.now) }
    ensures named { IfOk result (λ tuple. HaveTexts pool.new (ids_of tuple)) }
    ensures kept { KeepsIds pool.old pool.new }
{
    let mut ids: Vec<ValueId> = Vec::with_capacity(alloc, texts.len())?;
    for text in texts {
        let id = pool.intern(text.as_str())?;
        ids.push(id)?;
    }
    RcSlice::from_vec(ids)
}

/// A tuple with another text at a column.
pub(crate) fn with_text(
    alloc: Global,
    pool: &mut Pool,
    tuple: &Tuple,
    column: usize,
    text: &Text,
) -> Result<Tuple, AllocError>
    requires column { column < length (ids_of tuple.now) }
    requires named { HaveTexts pool.old (ids_of tuple.now) }
    ensures texts { IfOk result (λ changed. map (text_of pool.new) (ids_of changed) ≡ slice_set (map (text_of pool.old) (ids_of tuple.now)) column text.now) }
    ensures named { IfOk result (λ changed. HaveTexts pool.new (ids_of changed)) }
    ensures kept { KeepsIds pool.old pool.new }
{
    let mut ids = Vec::from_slice(alloc, tuple.as_slice())?;
    ids[column] = pool.intern(text.as_str())?;
    RcSlice::from_vec(ids)
}

/// The texts that the ids of a tuple name.
pub fn texts_of(alloc: Global, pool: &Pool, tuple: &Tuple) -> Result<Texts, AllocError>
    requires { HaveTexts pool.now (ids_of tuple.now) }
    ensures { IfOk result (λ texts. texts ≡ map (text_of pool.now) (ids_of tuple.now)) }
{
    let mut texts = List::new(alloc);
    for id in tuple.as_slice() {
        texts.push(Text::new(alloc, pool.text(*id))?)?;
    }
    Ok(texts)
}

/// Another handle of a tuple that may be missing.
pub(crate) fn shared(tuple: &Option<Tuple>) -> Result<Option<Tuple>, AllocError>
    ensures { IfOk result (λ copy. ids_if copy ≡ ids_if tuple.now) }
{
    match tuple {
        None => Ok(None),
        Some(tuple) => Ok(Some(tuple.clone()?)),
    }
}
