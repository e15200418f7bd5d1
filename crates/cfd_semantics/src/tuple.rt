//! Tuples at attributes. A tuple is a list of values, and an attribute is a place in it. A tuple that lacks an attribute
//! passes no test there.

ghost use Rattle.std.specs.Prelude.{◌≡◌, false, is_some, option_copied, slice_get};
ghost use Rattle.std.specs.Option.{option_map_or};
ghost use Rattle.cfd_semantics.specs.Pattern.{matches, all_match};
ghost use Rattle.cfd_semantics.specs.Tuple.{values_at, same_values};

use crate::pattern::Pattern;
use text_lists::List;

/// A row of a table: its id and its tuple.
pub type Row<V> = (u64, List<V>);

/// The tuple's value at an attribute, if it has the attribute.
pub(crate) fn value_at<V>(tuple: &[V], attribute: usize) -> Option<&V>
    ensures { option_copied result ≡ slice_get tuple.now attribute }
{
    tuple.get(attribute)
}

/// Whether the tuple has each of the attributes.
pub(crate) fn has_all<V>(x: &[usize], tuple: &[V]) -> bool
    ensures { result ≡ is_some (values_at tuple.now x.now) }
{
    for attribute in x {
        if value_at(tuple, *attribute).is_none() {
            return false;
        }
    }
    true
}

/// Whether the tuple's values at the attributes match the cells.
pub(crate) fn matches_at<V: PartialEq>(cells: &[Pattern<V>], x: &[usize], tuple: &[V]) -> bool
    ensures { result ≡ option_map_or (all_match V.eq cells.now) (values_at tuple.now x.now) false }
{
    if cells.len() != x.len() {
        return false;
    }
    for (place, attribute) in x.iter().enumerate() {
        if !matches_cell(&cells[place], value_at(tuple, *attribute)) {
            return false;
        }
    }
    true
}

// Whether the tuple has the attribute, with a value that passes.
fn matches_cell<V: PartialEq>(cell: &Pattern<V>, value: Option<&V>) -> bool
    ensures { result ≡ option_map_or (matches V.eq cell.now) (option_copied value.entry) false }
{
    match value {
        Some(value) => cell.matches(value),
        None => false,
    }
}

// Whether both values are there, and are the same.
fn are_same<V: PartialEq>(value: Option<&V>, other: Option<&V>) -> bool
    ensures { result ≡ option_map_or (λ v. option_map_or (V.eq v) (option_copied other.entry) false) (option_copied value.entry) false }
{
    match value {
        Some(value) => match other {
            Some(other) => value == other,
            None => false,
        },
        None => false,
    }
}

/// Whether one tuple's values at some attributes are the other's at others.
pub(crate) fn same_at<V: PartialEq>(x: &[usize], tuple: &[V], y: &[usize], other: &[V]) -> bool
    ensures { result ≡ option_map_or
        (λ values. option_map_or (same_values V.eq values) (values_at other.now y.now) false)
        (values_at tuple.now x.now) false }
{
    if x.len() != y.len() {
        return false;
    }
    for (place, attribute) in x.iter().enumerate() {
        if !are_same(value_at(tuple, *attribute), value_at(other, y[place])) {
            return false;
        }
    }
    true
}

/// Whether the tuple has these constants at the attributes.
pub(crate) fn has_at<V: PartialEq>(constants: &[V], x: &[usize], tuple: &[V]) -> bool
    ensures { result ≡ option_map_or (same_values V.eq constants.now) (values_at tuple.now x.now) false }
{
    if constants.len() != x.len() {
        return false;
    }
    for (place, attribute) in x.iter().enumerate() {
        if !are_same(Some(&constants[place]), value_at(tuple, *attribute)) {
            return false;
        }
    }
    true
}
