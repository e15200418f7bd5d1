//! Why there is no verdict.

ghost use Rattle.std.specs.Prelude.{◌≡◌};
ghost use Rattle.fix_engine.specs.declared.fault.FixFault.TheVariants as fault;

use std::alloc::AllocError;
use thiserror::Error;

/// Why a fix has no verdict. Each variant is told in the words of its error.
#[derive(Clone, Copy, Debug, PartialEq, Eq, Error)]
pub enum FixFault {
    #[error("a name that is vouched for is no attribute of the table")]
    UnknownAttr,
    #[error("out of memory")]
    Memory,
}

impl From<AllocError> for FixFault {
    ghost from_gives = { λ _ f. f ≡ fault.Memory };

    fn from(_: AllocError) -> FixFault {
        FixFault::Memory
    }
}
