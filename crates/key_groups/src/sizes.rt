//! Groups by how many items they have.

ghost use Rattle.std.specs.Prelude.{OnOk};
ghost use Rattle.std.specs.List.Sorted.{IsPermutation};
ghost use Rattle.key_groups.specs.Arranged.{IsLargestFirst, IsRarestFirst};
ghost use Rattle.key_groups.specs.Groups.{group_size};

use std::alloc::AllocError;
use std::cmp::Reverse;
use text_lists::List;

/// Arranges groups by how many items they have, the smallest first.
pub fn rarest_first<K, T>(groups: &mut Vec<(K, List<T>)>) -> Result<(), AllocError>
    ensures arranged { OnOk result (IsRarestFirst group_size groups.old.items groups.new.items) }
    ensures permutation { IsPermutation groups.old.items groups.new.items }
{
    groups.sort_by_key(|group| group.1.as_slice().len())
}

/// Arranges groups by how many items they have, the largest first.
pub fn largest_first<K, T>(groups: &mut Vec<(K, List<T>)>) -> Result<(), AllocError>
    ensures arranged { OnOk result (IsLargestFirst group_size groups.old.items groups.new.items) }
    ensures permutation { IsPermutation groups.old.items groups.new.items }
{
    groups.sort_by_key(|group| Reverse(group.1.as_slice().len()))
}
