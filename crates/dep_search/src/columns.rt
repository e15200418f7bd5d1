//! Rows by numbers: which have the same text at an attribute.
ghost use Rattle.std.specs.Prelude.{◌≡◌, ◌≤◌, ◌<◌, ◌+◌, [], ◌∷◌, length, All, IfOk, OnOk};
ghost use Rattle.value_pool.specs.Pool.{HasId, KeepsIds};
ghost use Rattle.dep_search.specs.Rows.{Row};
ghost use Rattle.dep_search.specs.Leaders.{AreColumns, AreWithin, Tells};

use hash_keys::HashKeys;
use std::alloc::{AllocError, Global};
use text_lists::{List, Texts};
use value_pool::Pool;

/// For each attribute, the rows by numbers. Texts are looked up by a hash with these keys.
pub fn columns(
    alloc: Global,
    keys: HashKeys,
    rows: &[Texts],
    attrs: usize,
) -> Result<List<List<usize>>, AllocError>
    requires { All (λ (row : Row). length row ≡ attrs) rows.now }
    ensures { IfOk result (AreColumns rows.now attrs) }
{
    let mut columns = List::new(alloc);
    for attr in 0..attrs {
        columns.push(column(alloc, keys, rows, attr)?)?;
    }
    Ok(columns)
}

// A number for each row: that of its text at the attribute.
#[tactic(auto, using(crate::proofs::Told::tells_from_ids))]
fn column(
    alloc: Global,
    keys: HashKeys,
    rows: &[Texts],
    attr: usize,
) -> Result<List<usize>, AllocError>
    requires { All (λ (row : Row). attr < length row) rows.now }
    ensures same { IfOk result (Tells rows.now (attr ∷ [])) }
    ensures within { IfOk result AreWithin }
{
    let mut pool = Pool::with_hasher(alloc, keys);
    let mut ids = List::new(alloc);
    for row in rows {
        ids.push(intern(&mut pool, row.as_slice()[attr].as_str())?)?;
    }
    // The length is what says that no text stands twice.
    let _len = pool.len();
    Ok(ids)
}

// The number of a text, of which there is at most one more than before.
fn intern(pool: &mut Pool, text: &str) -> Result<usize, AllocError>
    ensures id { IfOk result (HasId pool.new text.now) }
    ensures few { OnOk result (length pool.new ≤ length pool.old + 1) }
    ensures kept { KeepsIds pool.old pool.new }
{
    let id = pool.intern(text)?;
    Ok(id as usize)
}
