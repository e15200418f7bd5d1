//! The key of a row's group: its ids on X.
ghost use Rattle.std.specs.Prelude.{◌≡◌, ◌<◌, ◌∷◌, false, length, nat_eq};
ghost use Rattle.cfd_semantics.specs.Pattern.{all_match};
ghost use Rattle.std.specs.Option.{option_map_or, ForSome};
ghost use Rattle.row_store.specs.Tuple.{ids_behind, ids_of};
ghost use Rattle.row_store.specs.Watch.{IsWide};
ghost use Rattle.group_index.specs.Keys.{gives_alike};

use crate::index::IdCell;
use row_store::{Tuple, agree};
use value_pool::ValueId;

/// Whether a row gives the same entry with two tuples, one of which may be missing: they have the same ids on X and on A.
pub(crate) fn same_entry(one: Option<&Tuple>, other: &Tuple, x: &[usize], a: usize) -> bool
    requires wide_one { ForSome (ids_behind one) (IsWide (a ∷ x.now)) }
    requires wide_other { IsWide (a ∷ x.now) (ids_of other.now) }
    ensures { result ≡ option_map_or (λ ids. gives_alike ids (ids_of other.now) x.now a) (ids_behind one.entry) false }
{
    match one {
        Some(tuple) => alike(tuple, other, x, a),
        None => false,
    }
}

fn alike(one: &Tuple, other: &Tuple, x: &[usize], a: usize) -> bool
    requires a_one { a < length (ids_of one.now) }
    requires a_other { a < length (ids_of other.now) }
    requires wide_one { IsWide x.now (ids_of one.now) }
    requires wide_other { IsWide x.now (ids_of other.now) }
    ensures { result ≡ gives_alike (ids_of one.now) (ids_of other.now) x.now a }
{
    one.as_slice()[a] == other.as_slice()[a] && agree(one, other, x)
}

/// Whether the ids match the cells place by place.
pub(crate) fn matches_all(cells: &[IdCell], ids: &[ValueId]) -> bool
    ensures { result ≡ all_match nat_eq cells.now ids.now }
{
    if cells.len() != ids.len() {
        return false;
    }
    for (place, id) in ids.iter().enumerate() {
        if !cells[place].matches(id) {
            return false;
        }
    }
    true
}
