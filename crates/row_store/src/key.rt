//! Keys: the ids that a tuple has at some attributes, by which maps look rows up.
ghost use Rattle.std.specs.Prelude.{◌≡◌, ◌≤◌, length, OnErr, OnOk};
ghost use Rattle.std.specs.Str.{bytes_eq};
ghost use Rattle.row_store.specs.Tuple.{ids_at, ids_of};
ghost use Rattle.row_store.specs.Watch.{IsWide};

use crate::store::Tuple;
use smallvec::SmallVec;
use std::alloc::AllocError;
use value_pool::ValueId;

/// The ids of a key. Up to four stand in place, so that most keys take no memory of their own.
pub type Key = SmallVec<ValueId, 4>;

/// Makes room for a key of so many ids.
pub fn make_room(key: &mut Key, count: usize) -> Result<(), AllocError>
    ensures ok { OnOk result (count ≤ key.new.capacity) }
    ensures err { OnErr result (key.new ≡ key.old) }
{
    if key.capacity() < count {
        *key = Key::with_capacity(*key.allocator(), count)?;
    }
    Ok(())
}

/// Writes the ids of a tuple at the attributes into a key that has the room.
pub fn write_key(key: &mut Key, tuple: &Tuple, attributes: &[usize])
    requires room { length attributes.now ≤ key.old.capacity }
    requires wide { IsWide attributes.now (ids_of tuple.now) }
    ensures ids { key.new.items ≡ ids_at (ids_of tuple.now) attributes.now }
    ensures room { key.new.capacity ≡ key.old.capacity }
{
    key.clear();
    for attribute in attributes {
        key.push_reserved(tuple.as_slice()[*attribute]);
    }
}

/// Whether two tuples have the same ids at the attributes.
pub fn agree(one: &Tuple, other: &Tuple, attributes: &[usize]) -> bool
    requires wide_one { IsWide attributes.now (ids_of one.now) }
    requires wide_other { IsWide attributes.now (ids_of other.now) }
    ensures { result ≡ bytes_eq (ids_at (ids_of one.now) attributes.now) (ids_at (ids_of other.now) attributes.now) }
{
    for attribute in attributes {
        if one.as_slice()[*attribute] != other.as_slice()[*attribute] {
            return false;
        }
    }
    true
}
