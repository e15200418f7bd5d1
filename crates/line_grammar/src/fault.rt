//! Why a file of lines is refused, whatever its grammar.

ghost use Rattle.std.specs.Prelude.{◌≡◌};

use std::alloc::AllocError;
use std::fmt::Debug;
use thiserror::Error;

/// The first faulty line of a file with its first cause, or want of memory.
#[derive(Debug, Drop, Error)]
#[error_bound(C: Debug)]
pub enum LineFault<C> {
    #[error("line {line}: {cause:?}")]
    At { line: usize, cause: C },
    #[error("out of memory")]
    Memory,
}

impl<C> From<AllocError> for LineFault<C> {
    ghost use Rattle.line_grammar.specs.declared.fault.LineFault.TheVariants.{Memory};

    ghost from_gives = { λ _ fault. fault ≡ Memory };

    fn from(_error: AllocError) -> LineFault<C> {
        LineFault::Memory
    }
}
