//! The rules of each kind that declarations stand for.

ghost use Rattle.std.specs.Prelude.{◌≡◌, [], take};

use crate::cind::Cind;
use crate::dep::Dep;
use crate::edit_rule::EditRule;
use schema_core::List;
use std::alloc::Global;

#[derive(Drop)]
pub struct Rules {
    pub deps: List<Dep>,
    pub cinds: List<Cind>,
    pub edits: List<EditRule>,
}

impl Rules {
    pub fn none(alloc: Global) -> Rules
        ensures { result ≡ record { deps = []; cinds = []; edits = [] } }
    {
        Rules {
            deps: List::new(alloc),
            cinds: List::new(alloc),
            edits: List::new(alloc),
        }
    }

    /// Keeps the first so many of each kind.
    pub fn truncate(&mut self, deps: usize, cinds: usize, edits: usize)
        ensures { self.new ≡ record { deps = take deps self.old.deps; cinds = take cinds self.old.cinds; edits = take edits self.old.edits } }
    {
        self.deps.truncate(deps);
        self.cinds.truncate(cinds);
        self.edits.truncate(edits);
    }
}
