//! What the values of a column show.

ghost use Rattle.std.specs.Prelude.{◌≡◌, ◌≤◌, ◌↔◌, [], IfOk, IsTrue, length, slice_index_or};
ghost use Rattle.std.specs.Str.{bytes_eq};
ghost use Rattle.text_lists.specs.Repeats.{AreDistinct, is_among};
ghost use Rattle.schema_draft.specs.Columns.{column_of, few_values, is_key};

use crate::repeats::first_repeated;
use hash_keys::HashKeys;
use schema_core::bounds::CONSTANT_BYTES;
use schema_core::{List, Text, Texts};
use std::alloc::{AllocError, Global};

/// How many values a domain is told of at most.
pub const FEW: usize = 16;

/// The values of the column at a place, with an empty one where a row is shorter.
pub fn column_of(alloc: Global, rows: &[Texts], place: usize) -> Result<Texts, AllocError>
    ensures { IfOk result (λ values. values ≡ column_of rows.now place) }
{
    let mut values = List::new(alloc);
    for row in rows {
        values.push(text_at(alloc, row, place)?)?;
    }
    Ok(values)
}

fn text_at(alloc: Global, row: &Texts, place: usize) -> Result<Text, AllocError>
    ensures { IfOk result (λ text. text ≡ slice_index_or row.now place []) }
{
    match row.as_slice().get(place) {
        Some(text) => text.clone(),
        None => Text::new(alloc, ""),
    }
}

/// Whether the column tells its rows apart: no value stands twice, and there are two rows at least. Values are
/// hashed with these keys.
pub fn is_key(alloc: Global, keys: HashKeys, values: &[Text]) -> Result<bool, AllocError>
    ensures test { IfOk result (λ test. test ≡ is_key values.now) }
    ensures meaning { IfOk result (λ test. IsTrue test ↔ (AreDistinct values.now × (2 ≤ length values.now))) }
{
    Ok(values.len() >= 2 && first_repeated(alloc, keys, values)?.is_none())
}

/// The distinct values of a column in the order in which they stand first, if it has few that a domain may list.
pub fn few_values(alloc: Global, values: &[Text]) -> Result<Option<Texts>, AllocError>
    ensures { IfOk result (λ found. found ≡ few_values values.now) }
{
    let mut few: Texts = List::new(alloc);
    for value in values {
        if !is_among(few.as_slice(), value) {
            if few.as_slice().len() == FEW || value.as_str().len() > CONSTANT_BYTES {
                return Ok(None);
            }
            few.push(value.clone()?)?;
        }
    }
    if few.as_slice().is_empty() {
        return Ok(None);
    }
    Ok(Some(few))
}

fn is_among(texts: &[Text], text: &Text) -> bool
    ensures { result ≡ is_among bytes_eq texts.now text.now }
{
    texts.iter().any(|t| t.is(text.as_str()))
}
