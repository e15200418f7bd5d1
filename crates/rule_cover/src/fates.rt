//! What becomes of the pieces of a table.

ghost use Rattle.std.specs.Prelude.{◌≡◌};
ghost use Rattle.rule_cover.specs.Fates.{is_spent, stays};

use case_tree::Tree;
use schema_core::{List, Texts};
use std::alloc::AllocError;
use thiserror::Error;

/// A dependency by its number, and one of its tableau rows. Both are numbered from 0.
#[derive(Clone, Copy, PartialEq, Eq)]
pub struct Piece {
    pub dep: usize,
    pub row: usize,
}

/// A tree shows that the others imply the piece; or two tuples that satisfy the others and not the piece show that they
/// don't; or the budget is spent, and the piece stays too.
#[derive(Drop)]
pub enum Fate {
    Dropped(Tree),
    Kept(Texts, Texts),
    Spent(Tree),
}

impl Fate {
    /// Whether the piece stays.
    pub fn stays(&self) -> bool
        ensures { result ≡ stays self.now }
    {
        match self {
            Fate::Dropped(_) => false,
            Fate::Kept(_, _) => true,
            Fate::Spent(_) => true,
        }
    }

    /// Whether the budget was spent on its question.
    pub fn is_spent(&self) -> bool
        ensures { result ≡ is_spent self.now }
    {
        match self {
            Fate::Dropped(_) => false,
            Fate::Kept(_, _) => false,
            Fate::Spent(_) => true,
        }
    }
}

/// The pieces of a table in their order, each with its fate.
#[derive(Drop)]
pub struct PieceFates {
    pub fates: List<(Piece, Fate)>,
}

#[derive(Clone, Copy, Debug, PartialEq, Eq, Error)]
pub enum CoverFault {
    #[error("no table has this name")]
    UnknownTable,
    #[error("out of memory")]
    Memory,
}

impl From<AllocError> for CoverFault {
    ghost use Rattle.std.specs.Prelude.{◌≡◌};
    ghost use Rattle.rule_cover.specs.declared.fates.CoverFault.TheVariants.{Memory};

    ghost from_gives = { λ error fault. fault ≡ Memory };

    fn from(error: AllocError) -> CoverFault {
        CoverFault::Memory
    }
}
