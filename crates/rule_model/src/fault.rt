//! Why a declaration is refused.

ghost use Rattle.std.specs.Prelude.{◌≡◌};
ghost use Rattle.rule_model.specs.declared.fault.AddFault.TheVariants.{Memory};

use schema_core::{Limit, Text};
use std::alloc::AllocError;
use thiserror::Error;

/// What is wrong with a declaration. The variants stand in the order in which they are tested.
#[derive(Debug, Error)]
pub enum RuleFault {
    /// An earlier declaration has the name.
    #[error("an earlier rule has this name")]
    DuplicateRule(Text),
    /// The schema has no table of the name.
    #[error("the schema has no such table")]
    UnknownTable(Text),
    /// The master table of an editing rule is not marked as one.
    #[error("the table is not marked as a master table")]
    NotMaster(Text),
    /// The table has no attribute of the name.
    #[error("the table has no such attribute")]
    UnknownAttr(Text),
    /// The attribute stands twice in one list.
    #[error("an attribute stands twice in one list")]
    RepeatedAttr(Text),
    /// An editing rule matches no column with the master table.
    #[error("no column is matched with the master table")]
    NoMatchColumn,
    /// The target of an editing rule is one of the columns that it matches.
    #[error("the target is one of the matched columns")]
    TargetInX(Text),
    /// Two lists that belong to one another, or a row and its attributes, differ in length.
    #[error("two lists that belong to one another differ in length")]
    WidthMismatch,
    /// A constant, or a member of a set, is not in its attribute's domain.
    #[error("a constant is not in the domain of its attribute")]
    ConstantOutsideDomain { attr: Text, value: Text },
    /// A member stands twice in one set.
    #[error("a member stands twice in one set")]
    RepeatedConstant { attr: Text, value: Text },
    /// The source of an editing rule may hold a text that its target, which is told, may not.
    #[error("the source may hold what the target may not")]
    DomainMismatch(Text),
    /// The book would pass its limit.
    #[error("there are too many: {0:?}")]
    TooMany(Limit),
}

// By hand, so that whatever drops a fault calls this, and isn't proved for each kind of fault.
impl Drop for RuleFault {
    fn drop(self) {
        match self {
            RuleFault::DuplicateRule(_)
            | RuleFault::UnknownTable(_)
            | RuleFault::NotMaster(_)
            | RuleFault::UnknownAttr(_)
            | RuleFault::RepeatedAttr(_)
            | RuleFault::NoMatchColumn
            | RuleFault::TargetInX(_)
            | RuleFault::WidthMismatch
            | RuleFault::ConstantOutsideDomain { attr: _, value: _ }
            | RuleFault::RepeatedConstant { attr: _, value: _ }
            | RuleFault::DomainMismatch(_)
            | RuleFault::TooMany(_) => {}
        }
    }
}

/// Why a declaration did not join a book.
#[derive(Debug, Drop, Error)]
pub enum AddFault {
    #[error(transparent)]
    Rule(RuleFault),
    #[error("out of memory")]
    Memory,
}

impl From<AllocError> for AddFault {
    ghost from_gives = { λ _ e. e ≡ Memory };

    fn from(_e: AllocError) -> AddFault {
        AddFault::Memory
    }
}
