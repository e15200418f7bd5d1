//! How many rows groups and missing keys have together.
ghost use Rattle.std.specs.Prelude.{◌≡◌, ◌+◌, IfOk, sum_by};
ghost use Rattle.violation_groups.specs.Groups.{group_size, missing_size, value_size};

use crate::groups::{Group, Missing, ValueRows};
use std::alloc::AllocError;

/// The sum of two counts. One beyond the last number of its type is told as want of memory.
pub fn sum_of(one: usize, other: usize) -> Result<usize, AllocError>
    ensures { IfOk result (λ sum. sum ≡ one + other) }
{
    one.checked_add(other).ok_or(AllocError)
}

fn values_size(values: &[ValueRows]) -> Result<usize, AllocError>
    ensures { IfOk result (λ size. size ≡ sum_by value_size values.now) }
{
    let mut size = 0;
    for value in values {
        size = sum_of(size, value.rows.as_slice().len())?;
    }
    Ok(size)
}

/// How many lines of the list groups stand for. A row that is listed for two tableau rows counts twice.
pub fn groups_size(groups: &[Group]) -> Result<usize, AllocError>
    ensures { IfOk result (λ size. size ≡ sum_by group_size groups.now) }
{
    let mut size = 0;
    for group in groups {
        let more = values_size(group.values.as_slice())?;
        size = sum_of(size, more)?;
    }
    Ok(size)
}

/// How many lines of the list missing keys stand for. A row that is listed for two tableau rows counts twice.
pub fn missing_size(missing: &[Missing]) -> Result<usize, AllocError>
    ensures { IfOk result (λ size. size ≡ sum_by missing_size missing.now) }
{
    let mut size = 0;
    for key in missing {
        size = sum_of(size, key.rows.as_slice().len())?;
    }
    Ok(size)
}
