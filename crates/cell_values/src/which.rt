//! How many tuples a question is about, and which of them is meant.

/// A question is about one tuple, or about two.
#[derive(Clone, Copy, PartialEq, Eq)]
pub enum TupleCount {
    One,
    Two,
}

/// The only tuple of a question about one, or the first or the second of two.
#[derive(Clone, Copy, PartialEq, Eq)]
pub enum Which {
    Only,
    First,
    Second,
}
