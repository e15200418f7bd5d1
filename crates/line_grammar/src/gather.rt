//! What a file is read into, line by line or group by group.

ghost use Rattle.std.specs.Prelude.{◌≡◌, OnOk};
ghost use Rattle.line_grammar.specs.Faults.{Reading, GivesUnlessMemory, line_tells};

use crate::causes::LineCause;
use crate::fault::LineFault;
use std::alloc::Global;

/// Takes what stands in a file in turn, where `X` is `Line` or `Group`.
pub trait Gather<X> {
    type Cause: LineCause;

    // What was gathered so far, and what it is made with, which never changes.
    ghost Gathered: { Type 0 };

    ghost Made: { Type 0 };

    ghost gathered: { Self → Gathered };

    ghost made: { Self → Made };

    // What is gathered with one more, or why that is faulty.
    ghost with_item: { Made → Gathered → X → Reading Gathered Self.Cause };

    // What is true of it throughout.
    ghost is_fit: { Made → Gathered → Type 0 };

    /// Takes one more. After a refusal nothing is known of what was gathered.
    fn add(&mut self, alloc: Global, item: X) -> Result<(), LineFault<Self::Cause>>
        requires fit { is_fit (made self.old) (gathered self.old) }
        ensures exact { GivesUnlessMemory line_tells (with_item (made self.old) (gathered self.old) item) (λ _. gathered self.new) result }
        ensures fit { OnOk result (is_fit (made self.new) (gathered self.new)) }
        ensures made { made self.new ≡ made self.old };
}
