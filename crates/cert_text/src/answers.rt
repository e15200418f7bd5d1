//! The kinds of questions, the first line of an answer, and what was read of a certificate so far.

use crate::cert::{Asked, CertParts, TreeLines, TupleLine};
use text_lists::Texts;

/// Whether a question is about one tuple or about two.
#[derive(Clone, Copy, PartialEq, Eq)]
pub enum Kind {
    Consistency,
    Implication,
}

/// A tuple that answers the question, a tree that leaves no case open, or one of which the budget of leaves was spent.
#[derive(Drop)]
pub enum AnswerLine {
    Values(Texts),
    Closed,
    Spent(u64),
}

/// What was read of a certificate so far.
#[derive(Drop)]
pub enum Draft {
    Nothing,
    Asked(Asked),
    /// The first of two tuples.
    Half(Asked, TupleLine),
    /// Nodes of a tree, and how many of its subtrees are missing.
    Nodes(Asked, TreeLines, usize),
    Whole(CertParts),
}
