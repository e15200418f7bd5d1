//! The value that truth values of the variables stand for.

ghost use Rattle.std.specs.Prelude.{◌≡◌, ◌+◌, ◌<◌, ◌≤◌, false, length, IfSome, slice_index_or};
ghost use Rattle.cell_values.specs.Standing.{chosen};

/// The place of the first of `count` values whose variable is true. The variable of the first value is `first`.
pub fn chosen(truth: &[bool], first: usize, count: usize) -> Option<usize>
    requires { first + count ≤ length truth.now }
    ensures chosen { result ≡ chosen (λ var. slice_index_or truth.now var false) first count }
    ensures within { IfSome result (λ place. place < count) }
{
    for place in 0..count {
        if truth[first + place] {
            return Some(place);
        }
    }
    None
}
