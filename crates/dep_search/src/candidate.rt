//! What may be found: a dependency by numbers.

/// The attribute on the right, the number of the left side, and for constants the row that has them.
#[derive(Clone, Copy)]
pub struct Candidate {
    pub a: usize,
    pub side: usize,
    pub row: Option<usize>,
}
