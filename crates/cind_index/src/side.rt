//! The two sides of an inclusion.

/// The side of the rows that ask for an answer, and the side of the rows that answer.
#[derive(Clone, Copy)]
pub enum Side {
    Left,
    Right,
}
