//! Why a part of a line was not read.

ghost use Rattle.std.specs.Prelude.{◌≡◌};
ghost use Rattle.line_grammar.specs.declared.unread.Unread.TheVariants.{Memory};

use std::alloc::AllocError;

#[derive(Drop)]
pub enum Unread {
    /// No such part stands there.
    Absent,
    Memory,
}

impl From<AllocError> for Unread {
    ghost from_gives = { λ _ unread. unread ≡ Memory };

    fn from(_error: AllocError) -> Unread {
        Unread::Memory
    }
}
