//! The first items of a list, and the item at a place.
ghost use Rattle.std.specs.Prelude.{◌≡◌, slice_get, slice_index, take};
ghost use Rattle.std.specs.Option.{option_copied};

/// The first so many items, or all where there are no more.
pub fn front_of<T>(items: &[T], first: usize) -> &[T]
    ensures { result.now ≡ take first items.now }
{
    match items.get(..first) {
        Some(front) => front,
        None => items,
    }
}

/// The item at a place, if there is one.
pub fn item<T>(items: &[T], place: usize) -> Option<&T>
    ensures { option_copied result ≡ slice_get items.now place }
{
    items.get(place)
}

/// The number at a place, and 0 where there is none.
pub fn count_at(counts: &[usize], place: usize) -> usize
    ensures { result ≡ slice_index counts.now place }
{
    match counts.get(place) {
        Some(count) => *count,
        None => 0,
    }
}
