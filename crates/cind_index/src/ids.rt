//! The ids of a tuple at attributes, held against a list of ids.
ghost use Rattle.std.specs.Prelude.{◌≡◌};
ghost use Rattle.std.specs.Str.{bytes_eq};
ghost use Rattle.row_store.specs.Tuple.{ids_at, ids_of};
ghost use Rattle.row_store.specs.Watch.{IsWide};

use row_store::Tuple;
use value_pool::ValueId;

/// Whether these are the ids at the attributes.
pub(crate) fn has_ids(tuple: &Tuple, attributes: &[usize], ids: &[ValueId]) -> bool
    requires { IsWide attributes.now (ids_of tuple.now) }
    ensures { result ≡ bytes_eq ids.now (ids_at (ids_of tuple.now) attributes.now) }
{
    if ids.len() != attributes.len() {
        return false;
    }
    for (place, attribute) in attributes.iter().enumerate() {
        if tuple.as_slice()[*attribute] != ids[place] {
            return false;
        }
    }
    true
}
