//! Odd values of one column.

ghost use Rattle.std.specs.Prelude.{◌≡◌, ◌==◌, ◌&&◌, ℕ, List, IfOk, count_by, not};
ghost use Rattle.std.specs.HashSet.{contains_by};
ghost use Rattle.std.specs.Str.{bytes_eq};
ghost use Rattle.text_lists.specs.Repeats.{is_among};
ghost use Rattle.table_flaws.specs.Flaws.{is_long, long_rows, spaced_rows, trimmed};

use hash_keys::HashKeys;
use schema_core::{List, Text};
use std::alloc::{AllocError, Global};
use std::collections::HashSet;

/// How many lines a cell may have, and not be told.
pub const MOST_LINES: usize = 10;

/// The rows, numbered from 1, whose value runs over more than ten lines.
pub fn long_rows(alloc: Global, values: &[Text]) -> Result<List<usize>, AllocError>
    ensures { IfOk result (λ rows. rows ≡ long_rows values.now) }
{
    let mut rows = List::new(alloc);
    for (place, value) in values.iter().enumerate() {
        if is_long(value) {
            rows.push(place + 1)?;
        }
    }
    Ok(rows)
}

fn is_long(value: &Text) -> bool
    ensures { result ≡ is_long value.now }
{
    line_feeds(value.as_str().as_bytes()) >= MOST_LINES
}

fn line_feeds(bytes: &[u8]) -> usize
    ensures { result ≡ count_by (λ b. b == 10) bytes.now }
{
    bytes.iter().filter(|b| **b == b'\n').count()
}

/// The rows, numbered from 1, whose value has blanks at an end and stands in the column without them, too.
pub fn spaced_rows(
    alloc: Global,
    keys: HashKeys,
    values: &[Text],
) -> Result<List<usize>, AllocError>
    ensures { IfOk result (λ rows. rows ≡ spaced_rows values.now) }
{
    let all = all_of(alloc, keys, values)?;
    let mut rows = List::new(alloc);
    for (place, value) in values.iter().enumerate() {
        if is_spaced(&all, value.as_str()) {
            rows.push(place + 1)?;
        }
    }
    Ok(rows)
}

fn is_spaced(all: &HashSet<&str, HashKeys>, value: &str) -> bool
    ensures { result ≡ (not (bytes_eq (trimmed value.now) value.now) && contains_by (λ key. bytes_eq (trimmed value.now) key.now) all.now) }
{
    let without = trimmed(value);
    without != value && all.contains(without)
}

fn trimmed(value: &str) -> &str
    ensures { result.now ≡ trimmed value.now }
{
    value.trim_ascii()
}

fn all_of(
    alloc: Global,
    keys: HashKeys,
    values: &[Text],
) -> Result<HashSet<&str, HashKeys>, AllocError>
    ensures { IfOk result (λ all. (q : List ℕ) → contains_by (λ key. bytes_eq q key.now) all ≡ is_among bytes_eq values.now q) }
{
    let mut all = HashSet::with_hasher(alloc, keys);
    for value in values {
        all.insert(value.as_str())?;
    }
    Ok(all)
}
